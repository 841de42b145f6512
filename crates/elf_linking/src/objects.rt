//! The object that a file is in a look-up with versions, and what an undefined symbol of a file requests.
ghost use Rattle.elf.specs.ObjectFile.{object_file};
ghost use Rattle.elf.specs.ElfBytes.{view};
ghost use Rattle.std.specs.Option.{option_map};
ghost use Rattle.elf_parts.specs.gnu_symver.Table.{versions_view};
ghost use Rattle.elf_linking.specs.BindingObjects.{GivesVersioned, IsReference};
ghost use Rattle.elf_linking.specs.VersionedView.{versioned_view};

use crate::resolve::{ObjectFault, object_table};
use crate::{Unreadable, VersionedObject, Wanted, version_of};
use elf::ElfBytes;
use elf::endian::EndianParse;
use elf::gnu_symver::SymbolVersions;

/// Returns the checked hash table of a file with the versions of its symbols, if it has version indexes. Returns
/// `None` exactly if the file has no hash section.
///
/// Errors, in order: those of `object_table`; `Read` with that of `ElfBytes::symbol_version_table`.
pub fn versioned_object<'data, E: EndianParse>(
    file: &ElfBytes<'data, E>,
) -> Result<Option<VersionedObject<'data, E>>, ObjectFault>
    ensures { GivesVersioned (versioned_view versions_view) (object_file E.little (view file.now)) result }
{
    match object_table(file)? {
        Some(table) => {
            let versions = file.symbol_version_table()?;
            Ok(Some(VersionedObject { table, versions }))
        }
        None => Ok(None),
    }
}

/// Returns what an undefined symbol, counted from 0, requests: the version that it has in its file, as
/// `Compatible`, or `Any` if it has none. The error is that of `version_of`.
pub fn reference<'a, E: EndianParse, V: SymbolVersions<E>>(
    versions: Option<&'a V>,
    symbol: usize,
) -> Result<Wanted<'a>, Unreadable>
    ensures { IsReference (option_map (λ table. V.versions table.now) versions.entry) symbol result }
{
    let Some(versions) = versions else {
        return Ok(Wanted::Any);
    };
    match version_of(versions, symbol)? {
        Some(version) => Ok(Wanted::Compatible(version)),
        None => Ok(Wanted::Any),
    }
}
