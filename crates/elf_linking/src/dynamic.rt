//! What is looked up and bound of a file: its dynamic symbols, the object that it is, and the uses that its
//! relocations make of the symbols. A file that declares section headers is read by these. One that declares none is
//! read by its dynamic entries, as the dynamic linker reads each file.
ghost use Rattle.std.specs.Prelude.{◌≡◌};
ghost use Rattle.std.specs.Option.{option_map};
ghost use Rattle.elf.specs.Answers.{symbols_view};
ghost use Rattle.elf.specs.Parts.{loaded};
ghost use Rattle.elf_dynamic.specs.dynamic_view.Entries.{entries_in};
ghost use Rattle.elf_dynamic.specs.dynamic_view.Relocations.{relocations};
ghost use Rattle.elf_linking.specs.DynamicFile.{GivesDynamic, dynamic_symbols, dynamic_uses, dynamic_versions};
ghost use Rattle.elf_linking.specs.DynamicFile.{hash_parts, uses_by_all};
ghost use Rattle.elf_linking.specs.ObjectTable.{hash_view};
ghost use Rattle.elf_linking.specs.VersionedView.{versioned_view};
ghost use Rattle.elf_parts.specs.gnu_symver.Table.{versions_view};
ghost use Rattle.elf_records.specs.Number.{ok_map};
ghost use Rattle.elf_records.specs.Table.{table_view};

use crate::VersionedObject;
use crate::bindings::uses::{SymbolUses, UsesError, add_each, add_uses};
use crate::resolve::{HashParts, ObjectFault, checked_in};
use elf::dynamic::DynamicTable;
use elf::endian::EndianParse;
use elf::gnu_symver::SymbolVersionTable;
use elf::reader::Reader;
use elf::string_table::StringTable;
use elf::symbol::SymbolTable;
use elf_dynamic::dynamic_view::{DynamicError, PltRelocations, plt_relocations, relas, rels};
use elf_dynamic::linked;
use elf_dynamic::linked::{LinkedBy, linked_by};

/// Returns the dynamic symbols of `linked::dynamic_symbols`. The error is `Dynamic` with that of this function.
pub fn dynamic_symbols<'f, E: EndianParse, R: Reader<E>>(
    file: &'f R,
) -> Result<Option<(SymbolTable<'f, E>, StringTable<'f>)>, ObjectFault>
    ensures { ok_map (option_map symbols_view) result ≡ dynamic_symbols (loaded (R.file file.now) (R.ranges file.now)) }
{
    let symbols = linked::dynamic_symbols(file)?;
    Ok(symbols)
}

// The hash section of a file, if it has one, with what it is checked over.
pub(crate) fn hash_parts<'f, E: EndianParse, R: Reader<E>>(
    file: &'f R,
) -> Result<Option<HashParts<'f, E>>, ObjectFault>
    ensures { ok_map (option_map hash_view) result ≡ hash_parts (loaded (R.file file.now) (R.ranges file.now)) }
{
    let Some((kind, bytes)) = linked::hash_section(file)? else {
        return Ok(None);
    };
    match dynamic_symbols(file)? {
        Some(symbols) => Ok(Some((kind, (bytes, symbols)))),
        None => Err(ObjectFault::NoSymbols),
    }
}

// The versions of its symbols, if it has any.
pub(crate) fn versions<'f, E: EndianParse, R: Reader<E>>(
    file: &'f R,
) -> Result<Option<SymbolVersionTable<'f, E>>, ObjectFault>
    ensures { ok_map (option_map versions_view) result ≡ dynamic_versions (loaded (R.file file.now) (R.ranges file.now)) }
{
    let versions = linked::dynamic_versions(file)?;
    Ok(versions)
}

/// Returns the object that a file is in a look-up with versions, or `None` exactly if it has no hash section. The
/// symbols are those of `dynamic_symbols`.
///
/// Errors, in order: `Dynamic` if the hash section is not available (`linked::hash_section`), or the dynamic symbols;
/// `NoSymbols` if there are none; `Read` if `new` of the table returns an error; `Faulty` with the first fault of the
/// section; `Dynamic` if the versions are not available. Of a file that is loaded in part also `Dynamic` with
/// `DynamicError::Missing`.
pub fn dynamic_object<'f, E: EndianParse, R: Reader<E>>(
    file: &'f R,
) -> Result<Option<VersionedObject<'f, E>>, ObjectFault>
    ensures { GivesDynamic (versioned_view versions_view) (loaded (R.file file.now) (R.ranges file.now)) result }
{
    let Some((kind, (bytes, (symbols, strings)))) = hash_parts(file)? else {
        return Ok(None);
    };
    let table = checked_in(
        kind,
        file.endianness(),
        file.class(),
        bytes,
        symbols,
        strings,
    )?;
    let versions = versions(file)?;
    Ok(Some(VersionedObject { table, versions }))
}

// Adds the uses that all relocations make that dynamic entries give.
fn add_relocations<E: EndianParse, R: Reader<E>>(
    machine: u16,
    file: &R,
    entries: &DynamicTable<'_, E>,
    uses: &mut [SymbolUses],
) -> Result<(), DynamicError>
    ensures { ok_map (λ _. uses.new) result ≡ ok_map (uses_by_all machine uses.old)
        (relocations (loaded (R.file file.now) (R.ranges file.now)) (entries_in (table_view entries.now))) }
{
    if let Some(rels) = rels(file, entries)? {
        add_each(machine, rels, uses);
    }
    if let Some(relas) = relas(file, entries)? {
        add_each(machine, relas, uses);
    }
    match plt_relocations(file, entries)? {
        Some(PltRelocations::Rel(rels)) => add_each(machine, rels, uses),
        Some(PltRelocations::Rela(relas)) => add_each(machine, relas, uses),
        None => {}
    }
    Ok(())
}

/// Adds the uses that the relocations of a file make of its dynamic symbols, in the order of their table. If
/// the file declares no section headers, its relocations are those that its dynamic entries give.
///
/// Errors: those of `add_uses`; of a file that declares no section headers `Dynamic` if its dynamic entries or its
/// relocations are not available.
pub fn add_dynamic_uses<E: EndianParse, R: Reader<E>>(
    machine: u16,
    file: &R,
    uses: &mut [SymbolUses],
) -> Result<(), UsesError>
    ensures { ok_map (λ _. uses.new) result
        ≡ dynamic_uses machine (loaded (R.file file.now) (R.ranges file.now)) uses.old }
{
    match linked_by(file)? {
        LinkedBy::Sections => add_uses(machine, file, uses),
        LinkedBy::Entries(entries) => {
            add_relocations(machine, file, &entries, uses)?;
            Ok(())
        }
        LinkedBy::Nothing => Ok(()),
    }
}
