//! The sections.
#![tactic(auto, using(nugwier_report::proofs::Saying::saying_both))]

ghost use Rattle.std.specs.Prelude.{◌≡◌, IfOk, OnOk};
ghost use Rattle.elf.specs.Names.{name_table};
ghost use Rattle.nugwier_sections.specs.Sections.{said_of_sections};
ghost use Rattle.nugwier_report.specs.Headings.{known_names};
ghost use Rattle.nugwier_report.specs.Whole.{file_of};
ghost use Rattle.nugwier_report.specs.Said.{saying, unread, whole};
ghost use Rattle.nugwier_report.specs.declared.problem.Part.TheVariants.{SectionNames as IsSectionNames};

use crate::section_rows::SectionRow;
use elf::endian::EndianParse;
use elf::headers::Headers;
use elf::string_table::TerminatedStrings;
use nugwier_layouts::layouts;
use nugwier_report::headings::count_members;
use nugwier_report::listed::ListedFile;
use nugwier_report::problem::{Part, Stop};
use nugwier_report::reading;
use nugwier_report::rows::tell_slice;
use nugwier_report::tell::Tell;

/// Tells the sections, if the file declares any.
pub fn tell_sections<E: EndianParse, R: ListedFile<E>, T: Tell>(
    file: &R,
    tell: &mut T,
) -> Result<(), Stop>
    ensures { OnOk result (tell.new ≡ saying T.one tell.old
        (said_of_sections (R.header file.now).e_machine (file_of (R.file file.now) (R.bytes file.now)))) }
{
    if !file.declares_sections() {
        return Ok(());
    }
    let names = names_of(file, tell)?;
    let sections = file.section_list();
    let machine = file.file_header().e_machine;
    tell.state(&layouts::SECTIONS_HEADING, &count_members(sections.len()))?;
    tell_slice(sections, &SectionRow { machine, names }, tell)
}

// The names of the sections. It is a problem if they cannot be read.
fn names_of<'f, E: EndianParse, R: ListedFile<E>, T: Tell>(
    file: &'f R,
    tell: &mut T,
) -> Result<Option<TerminatedStrings<'f>>, Stop>
    ensures names { IfOk result (λ names. names ≡ known_names (file_of (R.file file.now) (R.bytes file.now))) }
    ensures told { OnOk result (tell.new ≡ saying T.one tell.old
        (unread (whole IsSectionNames) (name_table (file_of (R.file file.now) (R.bytes file.now))))) }
{
    match reading::names(file)? {
        Ok(names) => Ok(names),
        Err(error) => {
            tell.problem(Part::SectionNames.whole(), &error)?;
            Ok(None)
        }
    }
}
