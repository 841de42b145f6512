//! Hash sections that are checked, of one section and of a list of files, and a name that is looked up in their tables.
ghost use Rattle.std.specs.Prelude.{IfErr, IfOk};
ghost use Rattle.elf_records.specs.StringTable.{strings_view};
ghost use Rattle.elf_records.specs.Table.{table_view};
ghost use Rattle.elf_hash_check.specs.Object.{object_in};
ghost use Rattle.elf_linking.specs.Resolver.{IsTrueOf};
ghost use Rattle.elf_laws.specs.Found.{IsCheckedAndFound, IsFoundInFiles};

use elf::endian::EndianParse;
use elf::file::Class;
use elf::string_table::StringTable;
use elf::symbol::{Symbol, SymbolTable};
use elf::{ElfBytes, ParseError};
use elf_hash_check::hashcheck::{Checked, HashKind, check_any};
use elf_linking::resolve::resolve;
use elf_linking::resolver::{TablesError, tables};
use std::alloc::Global;

/// Checks the bytes of a hash section of either kind as `check_any` does, and looks a name up in the checked table.
/// Returns `Sound` exactly if the section is sound for these symbols, and otherwise its first fault. With `Sound` comes
/// the index and the symbol of the name: of a GNU section the least such index, of a SysV section the first along its
/// chain; or `None` exactly if no indexed symbol has the name. Returns an error exactly if the section holds no table.
pub fn check_and_find<E: EndianParse>(
    kind: HashKind,
    endian: E,
    class: Class,
    section: &[u8],
    symtab: SymbolTable<'_, E>,
    strtab: StringTable<'_>,
    name: &[u8],
) -> Result<Checked<Option<(usize, Symbol)>>, ParseError>
    ensures { let object = object_in kind (E.little endian) class section.now
        (table_view symtab.entry) (strings_view strtab.entry) in IsCheckedAndFound object name.now result }
{
    match check_any(kind, endian, class, section, symtab, strtab)? {
        Checked::Sound(table) => Ok(Checked::Sound(table.find(name))),
        Checked::Faulty(fault) => Ok(Checked::Faulty(fault)),
    }
}

/// Makes the checked tables of the files, as `tables` does, and looks a name up over them, as `resolve` does. The first
/// file whose hash section indexes the name decides: returns its place in the list, counted from 0, with the index and
/// the symbol that its `find` returns. Returns `None` exactly if no file's hash section indexes the name. The hash
/// section of each file is then sound. The errors are those of `tables`.
pub fn find_in_files<E: EndianParse>(
    alloc: Global,
    files: &[ElfBytes<'_, E>],
    name: &[u8],
) -> Result<Option<(usize, usize, Symbol)>, TablesError>
    ensures found { IfOk result (IsFoundInFiles E.little files.now name.now) }
    ensures refused { IfErr result (IsTrueOf E.little files.now) }
{
    let tables = tables(alloc, files)?;
    Ok(resolve(tables.as_slice(), name))
}
