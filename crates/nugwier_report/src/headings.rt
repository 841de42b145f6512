//! The names of sections in headings, for people.
ghost use Rattle.std.specs.Prelude.{◌≡◌, IfOk};
ghost use Rattle.nugwier_report.specs.Headings.{count_members, counted_members, heading_members, known_names};
ghost use Rattle.nugwier_report.specs.Whole.{file_of};
ghost use Rattle.nugwier_layouts.specs.Members.{members_said};

use crate::listed::ListedFile;
use crate::problem::Stop;
use crate::reading;
use elf::endian::EndianParse;
use elf::string_table::TerminatedStrings;
use nugwier_layouts::json::{Member, Value, number_value};

/// Returns the names of the sections, if they can be read.
pub fn known_names<'f, E: EndianParse, R: ListedFile<E>>(
    file: &'f R,
) -> Result<Option<TerminatedStrings<'f>>, Stop>
    ensures { IfOk result (λ names. names ≡ known_names (file_of (R.file file.now) (R.bytes file.now))) }
{
    match reading::names(file)? {
        Ok(names) => Ok(names),
        Err(_) => Ok(None),
    }
}

/// Returns the members of a heading: the number and the name of a section.
pub fn heading_members(number: u64, name: &[u8]) -> [Member<'_>; 2]
    ensures { members_said result ≡ heading_members number name.now }
{
    [
        ("section", Value::Number(number)),
        ("name", Value::Text(Some(name))),
    ]
}

/// Returns the members of a heading: the number and the name of a section, and the number of rows under it.
pub fn counted_members(number: u64, name: &[u8], count: Option<u64>) -> [Member<'_>; 3]
    ensures { members_said result ≡ counted_members number name.now count }
{
    [
        ("section", Value::Number(number)),
        ("name", Value::Text(Some(name))),
        ("count", number_value(count)),
    ]
}

/// Returns the member of a heading: the number of rows under it.
pub fn count_members(count: usize) -> [Member<'static>; 1]
    ensures { members_said result ≡ count_members count }
{
    [("count", Value::Number(count as u64))]
}
