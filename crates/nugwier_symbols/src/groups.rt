//! The section groups of a file.
#![tactic(auto, using(nugwier_report::proofs::Saying::saying_both))]

ghost use Rattle.std.specs.Prelude.{◌≡◌, IfOk, OnOk};
ghost use Rattle.elf_records.specs.Number.{ok_map};
ghost use Rattle.nugwier_symbols.specs.Groups.{group_in, said_of_groups, section_group_said, signature_of};
ghost use Rattle.nugwier_report.specs.Whole.{file_of};
ghost use Rattle.nugwier_report.specs.inner.TypedSections.{section_view};
ghost use Rattle.nugwier_symbols.specs.GroupRows.{group_view};
ghost use Rattle.nugwier_report.specs.Labels.{named_by};
ghost use Rattle.nugwier_report.specs.Said.{saying};

use crate::group_rows::{Group, tell_group};
use crate::relocation_rows::symbol_name;
use crate::relocations::labels_of;
use elf::ParseError;
use elf::endian::EndianParse;
use elf::headers::Headers;
use elf::parse::ParsingIterator;
use elf::section::SectionHeader;
use elf::string_table::TerminatedStrings;
use elf_records::slices::rest_of;
use nugwier_report::listed::ListedFile;
use nugwier_report::names::Labels;
use nugwier_report::problem::{Part, Stop};
use nugwier_report::reading;
use nugwier_report::tell::Tell;
use nugwier_report::typed_sections::{GROUP_TYPES, TypedSection, sections_of};
use std::alloc::Global;

/// Tells the group of each section that is one.
pub fn tell_groups<E: EndianParse, R: ListedFile<E>, T: Tell>(
    alloc: Global,
    file: &R,
    tell: &mut T,
) -> Result<(), Stop>
    ensures { OnOk result (tell.new ≡ saying T.one tell.old
        (said_of_groups (file_of (R.file file.now) (R.bytes file.now)))) }
{
    let labels = labels_of(file)?;
    for section in sections_of(alloc, file, &GROUP_TYPES)? {
        tell_section(file, &labels, section, tell)?;
    }
    Ok(())
}

// Tells the group of a section, or why it cannot be read.
fn tell_section<'f, E: EndianParse, R: ListedFile<E>, T: Tell>(
    file: &'f R,
    labels: &Labels<'f>,
    section: TypedSection<'f>,
    tell: &mut T,
) -> Result<(), Stop>
    ensures { OnOk result (tell.new ≡ saying T.one tell.old (section_group_said (named_by labels.now)
        (file_of (R.file file.now) (R.bytes file.now)) (section_view section.entry))) }
{
    let TypedSection {
        number,
        header,
        bytes,
    } = section;
    let place = Part::Section(number).whole();
    let bytes = match bytes {
        Ok(bytes) => bytes,
        Err(fault) => return tell.problem(place, &fault),
    };
    match group_in(file, labels, &header, bytes)? {
        Ok(group) => tell_group(number, group, labels, tell),
        Err(error) => tell.problem(place, &error),
    }
}

// The group in the bytes of a section: a flag word, and the members.
fn group_in<'f, E: EndianParse, R: ListedFile<E>>(
    file: &'f R,
    labels: &Labels<'f>,
    section: &SectionHeader,
    bytes: &'f [u8],
) -> Result<Result<Group<'f, E>, ParseError>, Stop>
    ensures { IfOk result (λ found. ok_map group_view found
        ≡ group_in (named_by labels.now) (file_of (R.file file.now) (R.bytes file.now)) section.now bytes.now) }
{
    let mut offset = 0;
    let order = file.endianness();
    match order.parse_u32_at(&mut offset, bytes) {
        Ok(flags) => {
            let signature = signature_of(file, labels, section)?;
            let members = ParsingIterator::new(order, file.class(), rest_of(4, bytes));
            Ok(Ok(Group {
                flags,
                members,
                signature,
            }))
        }
        Err(error) => Ok(Err(error)),
    }
}

// The name of the symbol that a section names, of a table that it links to.
fn signature_of<'f, E: EndianParse, R: ListedFile<E>>(
    file: &'f R,
    labels: &Labels<'f>,
    section: &SectionHeader,
) -> Result<Result<&'f [u8], ParseError>, Stop>
    ensures { IfOk result (λ found. ok_map (λ name. name.now) found
        ≡ signature_of (named_by labels.now) (file_of (R.file file.now) (R.bytes file.now)) section.now) }
{
    let linked = match file.section_at(section.sh_link as usize) {
        Ok(linked) => linked,
        Err(error) => return Ok(Err(error)),
    };
    let (table, strings) = match reading::symbols_of(file, &linked)? {
        Ok(symbols) => symbols,
        Err(error) => return Ok(Err(error)),
    };
    match table.get(section.sh_info as usize) {
        Ok(symbol) => Ok(symbol_name(labels, &TerminatedStrings::new(&strings), &symbol)),
        Err(error) => Ok(Err(error)),
    }
}
