//! The tables of a file that its headers lead to: symbols and dynamic entries.
ghost use Rattle.std.specs.Prelude.{◌≡◌, true};
ghost use Rattle.elf_records.specs.Table.{table_view};
ghost use Rattle.elf.specs.Answers.{dynamic, first_symbols};
ghost use Rattle.elf_c.specs.Loaded.{loaded_of_c};
ghost use Rattle.elf_c.specs.Status.{IsWrittenIf, read_status};
ghost use Rattle.elf_c.specs.Symbols.{dynamic_view, no_dynamics_in, no_symbols_in, symbols_type};
ghost use Rattle.elf_c.specs.Symbols.{symbols_view_of_c};
ghost use Rattle.elf_c.specs.Tables.{table_of_c};

use crate::file::NugwierFile;
use crate::status::{NugwierStatus, done, unread};
use crate::table::{NugwierTable, table_shown};
use elf::{abi, reader};
use elf_parts::dynamic::DynamicTable;
use elf_parts::endian::AnyEndian;

/// The symbols of a file with their strings, if it has any.
#[repr(C)]
#[derive(Default, Drop)]
pub struct NugwierSymbolTable<'data> {
    pub found: bool,
    pub symbols: NugwierTable<'data>,
    pub strings: &'data [u8],
}

/// The dynamic entries of a file, if it has any.
#[repr(C)]
#[derive(Default, Drop)]
pub struct NugwierDynamicTable<'data> {
    pub found: bool,
    pub entries: NugwierTable<'data>,
}

// The type of a section of symbols.
fn symbols_type(dynamic: bool) -> u32
    ensures { result ≡ symbols_type dynamic }
{
    if dynamic {
        abi::SHT_DYNSYM
    } else {
        abi::SHT_SYMTAB
    }
}

/// Finds the symbols of a file with their strings: those of the first section of type `SHT_DYNSYM` if `dynamic`, and
/// otherwise of the first section of type `SHT_SYMTAB`. If there is none, `found` is false, and nothing else is
/// written. An error leaves `symbols` as it is; the errors are those of `ElfBytes::symbol_table` and
/// `ElfBytes::dynamic_symbol_table`.
#[unsafe(no_mangle)]
pub extern "C" fn nugwier_symbol_table<'data>(
    file: &'data NugwierFile<'data>,
    dynamic: bool,
    symbols: &mut NugwierSymbolTable<'data>,
) -> NugwierStatus
    ensures status { result ≡ read_status (first_symbols (symbols_type dynamic) (loaded_of_c file.now)) }
    ensures symbols { IsWrittenIf symbols_view_of_c no_symbols_in symbols.new symbols.old
        (first_symbols (symbols_type dynamic) (loaded_of_c file.now)) }
{
    match reader::first_symbols::<AnyEndian, _>(file, symbols_type(dynamic)) {
        Ok(Some((table, strings))) => {
            *symbols = NugwierSymbolTable {
                found: true,
                symbols: table_shown(&table),
                strings: strings.bytes(),
            };
            done()
        }
        Ok(None) => {
            symbols.found = false;
            done()
        }
        Err(error) => unread(&error),
    }
}

// Dynamic entries that were found, as C sees them.
pub(crate) fn dynamics_shown<'data>(
    entries: &DynamicTable<'data, AnyEndian>,
) -> NugwierDynamicTable<'data>
    ensures entries { table_of_c result.entries ≡ table_view entries.now }
    ensures found { result.found ≡ true }
{
    NugwierDynamicTable {
        found: true,
        entries: table_shown(entries),
    }
}

/// Finds the dynamic entries of a file: those of the first section of type `SHT_DYNAMIC` or, if the file declares no
/// section headers, of the first segment of type `PT_DYNAMIC`. If there is none, `found` is false, and nothing else is
/// written. An error leaves `dynamics` as it is; the errors are those of `ElfBytes::dynamic`.
#[unsafe(no_mangle)]
pub extern "C" fn nugwier_dynamic_table<'data>(
    file: &'data NugwierFile<'data>,
    dynamics: &mut NugwierDynamicTable<'data>,
) -> NugwierStatus
    ensures status { result ≡ read_status (dynamic (loaded_of_c file.now)) }
    ensures dynamics { IsWrittenIf dynamic_view no_dynamics_in dynamics.new dynamics.old
        (dynamic (loaded_of_c file.now)) }
{
    match reader::dynamic::<AnyEndian, _>(file) {
        Ok(Some(entries)) => {
            *dynamics = dynamics_shown(&entries);
            done()
        }
        Ok(None) => {
            dynamics.found = false;
            done()
        }
        Err(error) => unread(&error),
    }
}
