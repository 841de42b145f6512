//! The dynamic entries of a file, and the strings that they name.
#![tactic(auto, using(nugwier_report::proofs::Saying::saying_both))]

ghost use Rattle.std.specs.Prelude.{◌≡◌, IfOk, OnOk};
ghost use Rattle.std.specs.Result.{result_ok};
ghost use Rattle.elf_linking.specs.Needed.{strings_by};
ghost use Rattle.nugwier_dynamic.specs.Entries.{each_said, names_said, said_of_entries, said_of_needed};
ghost use Rattle.nugwier_dynamic.specs.Entries.{strings_missed};
ghost use Rattle.nugwier_report.specs.Said.{saying};
ghost use Rattle.nugwier_report.specs.Whole.{file_of};

use crate::entry_rows::{EntryRow, NeededRow};
use elf::dynamic::Dyn;
use elf::endian::EndianParse;
use elf::string_table::{StringTable, TerminatedStrings};
use elf_linking::needed::{NamesError, entries_in};
use nugwier_layouts::layouts;
use nugwier_report::headings::count_members;
use nugwier_report::listed::ListedFile;
use nugwier_report::problem::{Part, Stop};
use nugwier_report::reading;
use nugwier_report::rows::tell_slice;
use nugwier_report::tell::Tell;
use std::alloc::Global;
use std::fmt;

/// Tells each dynamic entry of a file, if there are any, for people under a heading.
pub fn tell_entries<E: EndianParse, R: ListedFile<E>, T: Tell>(
    alloc: Global,
    file: &R,
    tell: &mut T,
) -> Result<(), Stop>
    ensures { OnOk result (tell.new ≡ saying T.one tell.old
        (said_of_entries (R.header file.now).e_machine (file_of (R.file file.now) (R.bytes file.now)))) }
{
    match reading::dynamic(file)? {
        Ok(Some(table)) => {
            let entries = entries_in(alloc, &table)?;
            tell_each(file, entries.as_slice(), tell)
        }
        Ok(None) => Ok(()),
        Err(error) => tell.problem(Part::Dynamic.whole(), &error),
    }
}

/// Tells the libraries that the dynamic entries name, if there are any, and the search paths.
pub fn tell_needed<E: EndianParse, R: ListedFile<E>, T: Tell>(
    alloc: Global,
    file: &R,
    tell: &mut T,
) -> Result<(), Stop>
    ensures { OnOk result (tell.new ≡ saying T.one tell.old
        (said_of_needed (R.header file.now).e_machine (file_of (R.file file.now) (R.bytes file.now)))) }
{
    match reading::dynamic(file)? {
        Ok(Some(table)) => {
            let entries = entries_in(alloc, &table)?;
            tell_names(file, entries.as_slice(), tell)
        }
        Ok(None) => Ok(()),
        Err(error) => tell.problem(Part::Dynamic.whole(), &error),
    }
}

// Tells each of these entries, under a heading.
fn tell_each<E: EndianParse, R: ListedFile<E>, T: Tell>(
    file: &R,
    entries: &[Dyn],
    tell: &mut T,
) -> Result<(), Stop>
    ensures { OnOk result (tell.new ≡ saying T.one tell.old (each_said (
      (R.header file.now).e_machine,
      entries.now,
      strings_by (file_of (R.file file.now) (R.bytes file.now)) entries.now,
    ))) }
{
    let strings = found_strings(file, entries, tell)?;
    tell.state(&layouts::ENTRIES_HEADING, &count_members(entries.len()))?;
    let machine = file.file_header().e_machine;
    tell_slice(entries, &EntryRow { machine, strings }, tell)
}

// Tells those of these entries that name a library or a search path, if their strings can be found.
fn tell_names<E: EndianParse, R: ListedFile<E>, T: Tell>(
    file: &R,
    entries: &[Dyn],
    tell: &mut T,
) -> Result<(), Stop>
    ensures { OnOk result (tell.new ≡ saying T.one tell.old (names_said (
      (R.header file.now).e_machine,
      entries.now,
      strings_by (file_of (R.file file.now) (R.bytes file.now)) entries.now,
    ))) }
{
    let machine = file.file_header().e_machine;
    match found_strings(file, entries, tell)? {
        Some(strings) => tell_slice(entries, &NeededRow { machine, strings }, tell),
        None => Ok(()),
    }
}

/// Returns the strings that dynamic entries name, or tells that they cannot be found.
pub fn found_strings<'f, E: EndianParse, R: ListedFile<E>, T: Tell>(
    file: &'f R,
    entries: &[Dyn],
    tell: &mut T,
) -> Result<Option<TerminatedStrings<'f>>, Stop>
    ensures found { IfOk result (λ found. found
        ≡ result_ok (strings_by (file_of (R.file file.now) (R.bytes file.now)) entries.now)) }
    ensures wrong { OnOk result (tell.new ≡ saying T.one tell.old
        (strings_missed (strings_by (file_of (R.file file.now) (R.bytes file.now)) entries.now))) }
{
    match reading::strings_of(file, entries)? {
        Ok(bytes) => Ok(Some(TerminatedStrings::new(&StringTable::new(bytes)))),
        Err(error) => {
            tell.problem(Part::DynamicStrings.whole(), &StringsFault(error))?;
            Ok(None)
        }
    }
}

// Why strings cannot be found.
#[derive(Drop)]
struct StringsFault(NamesError);

impl fmt::Display for StringsFault {
    ghost use Rattle.nugwier_dynamic.specs.Entries.{strings_text};

    ghost output = { λ fault. strings_text fault.0 };

    fn fmt<W: fmt::Write>(&self, f: &mut fmt::Formatter<W>) -> fmt::Result {
        match &self.0 {
            NamesError::NoAddress => f.write_str("no entry DT_STRTAB gives their address"),
            NamesError::NoSize => f.write_str("no entry DT_STRSZ gives their size"),
            NamesError::NotLoaded(address) => {
                write!(f, "no segment of type PT_LOAD has them at 0x{address:x}")
            }
            error => write!(f, "{error}"),
        }
    }
}
