//! The links of a file to files with debug information.
#![tactic(auto, using(nugwier_report::proofs::Saying::saying_both))]

ghost use Rattle.std.specs.Prelude.{◌≡◌, IfOk, OnOk};
ghost use Rattle.elf_records.specs.Number.{ok_map};
ghost use Rattle.nugwier_sections.specs.DebugLinks.{form_of, left_after_section, link_in, link_of_section, link_told};
ghost use Rattle.nugwier_sections.specs.DebugLinks.{said_of_debug_links};
ghost use Rattle.nugwier_report.specs.Whole.{file_of};
ghost use Rattle.nugwier_report.specs.Said.{saying};

use crate::debug_link_rows::{tell_debug_alt_link, tell_debug_link};
use elf::endian::EndianParse;
use elf::section::SectionHeader;
use elf::string_table::TerminatedStrings;
use elf_tools::debug_link::{debug_alt_link, debug_link};
use nugwier_layouts::layouts;
use nugwier_report::headings::{heading_members, known_names};
use nugwier_report::listed::ListedFile;
use nugwier_report::named_sections::is_named;
use nugwier_report::names::label_name;
use nugwier_report::problem::{Fault, Part, Stop};
use nugwier_report::reading;
use nugwier_report::tell::Tell;
use nugwier_report::typed_sections::{left_after, within};

/// The form of the link that a section has.
#[derive(Clone, Copy)]
enum LinkForm {
    /// To a file with the debug information of this one, `.gnu_debuglink`.
    Own,
    /// To a file that several files share, `.gnu_debugaltlink`.
    Shared,
}

/// Tells the link of each section that has one. Sections may share their bytes: no more bytes are listed than the file has.
pub fn tell_debug_links<E: EndianParse, R: ListedFile<E>, T: Tell>(
    file: &R,
    tell: &mut T,
) -> Result<(), Stop>
    ensures { OnOk result (tell.new
        ≡ saying T.one tell.old (said_of_debug_links (file_of (R.file file.now) (R.bytes file.now)))) }
{
    let names = known_names(file)?;
    let mut left = file.size();
    let mut number = 0;
    for section in file.section_list() {
        left = tell_section(file, &names, left, number, section, tell)?;
        number += 1;
    }
    Ok(())
}

// Tells the link of a section, if it has one. Returns how many bytes of links may follow.
fn tell_section<E: EndianParse, R: ListedFile<E>, T: Tell>(
    file: &R,
    names: &Option<TerminatedStrings<'_>>,
    left: u64,
    number: u64,
    section: &SectionHeader,
    tell: &mut T,
) -> Result<u64, Stop>
    ensures after { IfOk result (λ after. after
        ≡ left_after_section (file_of (R.file file.now) (R.bytes file.now)) names.now left section.now) }
    ensures told { OnOk result (tell.new ≡ saying T.one tell.old
        (link_of_section (file_of (R.file file.now) (R.bytes file.now)) names.now left number section.now)) }
{
    let Some(form) = form_of(names, section) else {
        return Ok(left);
    };
    let bytes = reading::content(file, section)?;
    let after = left_after(left, &bytes);
    let members = heading_members(number, label_name(names, section));
    tell.state(&layouts::DEBUG_LINK_HEADING, &members)?;
    tell_link(file.endianness(), form, number, within(left, bytes), tell)?;
    Ok(after)
}

// The form of the link that a section has by its name, if there are names.
fn form_of(names: &Option<TerminatedStrings<'_>>, section: &SectionHeader) -> Option<LinkForm>
    ensures { result ≡ form_of names.now section.now }
{
    if is_named(names, section, ".gnu_debuglink") {
        Some(LinkForm::Own)
    } else if is_named(names, section, ".gnu_debugaltlink") {
        Some(LinkForm::Shared)
    } else {
        None
    }
}

// Tells the link of a form in these bytes, or why it is not listed.
fn tell_link<E: EndianParse, T: Tell>(
    order: E,
    form: LinkForm,
    number: u64,
    bytes: Result<&[u8], Fault>,
    tell: &mut T,
) -> Result<(), Stop>
    ensures { OnOk result (tell.new ≡ saying T.one tell.old (link_told number
        (link_in (E.little order) form (ok_map (λ bytes. bytes.now) bytes.entry)))) }
{
    let place = Part::Section(number).whole();
    let bytes = match bytes {
        Ok(bytes) => bytes,
        Err(fault) => return tell.problem(place, &fault),
    };
    match form {
        LinkForm::Own => match debug_link(order, bytes) {
            Ok(link) => tell_debug_link(number, link, tell),
            Err(error) => tell.problem(place, &error),
        },
        LinkForm::Shared => match debug_alt_link(bytes) {
            Ok(link) => tell_debug_alt_link(number, link, tell),
            Err(error) => tell.problem(place, &error),
        },
    }
}
