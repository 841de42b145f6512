//! Symbols with their names, many at once.
ghost use Rattle.std.specs.Prelude.{◌≡◌, ◌≤◌, length};
ghost use Rattle.elf_parts.specs.Hash.{named_symbol};
ghost use Rattle.elf_records.specs.Number.{ok_map};
ghost use Rattle.elf_records.specs.StringTable.{strings_view};
ghost use Rattle.elf_records.specs.Table.{table_in, table_view};
ghost use Rattle.elf_c.specs.Filled.{AreFilled, AreHeld, AreRead};
ghost use Rattle.elf_c.specs.Named.{IsNamed, named_shown, named_view};
ghost use Rattle.elf_c.specs.Tables.{table_of_c};

use crate::records::NugwierSymbol;
use crate::table::{ForC, NugwierTable, bytes_from, records_in};
use elf_parts::endian::{AnyEndian, BigEndian, EndianParse, LittleEndian};
use elf_parts::file::Class;
use elf_parts::parse::{ParseAt, ParseError};
use elf_parts::string_table::StringTable;
use elf_parts::symbol::{Symbol, SymbolTable};

/// A symbol and its name.
#[repr(C)]
#[derive(Drop)]
pub struct NugwierNamedSymbol<'data> {
    pub symbol: NugwierSymbol,
    pub name: &'data [u8],
}

// A symbol of a table, with its name.
#[tactic(auto, unfolding(elf_parts::specs::Hash::named_symbol))]
#[inline(always)]
fn named<'data>(
    symbols: &SymbolTable<'_, AnyEndian>,
    strings: &StringTable<'data>,
    index: usize,
) -> Result<NugwierNamedSymbol<'data>, ParseError>
    ensures { ok_map named_view result
        ≡ ok_map named_shown (named_symbol (table_view symbols.now) (strings_view strings.now) index) }
{
    let symbol = symbols.get(index)?;
    let name = strings.get_raw(symbol.st_name as usize)?;
    Ok(NugwierNamedSymbol {
        symbol: symbol.show(),
        name,
    })
}

// Fills places with the symbols of a table starting at `first` and their names, as far as each symbol can be read from
// its own bytes. It may stop early. Inlined, so the compiler knows the byte order and the size of a symbol.
#[tactic(auto, using(crate::proofs::Filling::none_read))]
#[inline(always)]
fn fill_quickly<'data, E: EndianParse>(
    endian: E,
    class: Class,
    bytes: &[u8],
    strings: &StringTable<'data>,
    first: usize,
    places: &mut [NugwierNamedSymbol<'data>],
) -> usize
    ensures { AreRead IsNamed (named_symbol (table_in (E.little endian) class bytes.now) (strings_view strings.now))
        first result places.old places.new }
{
    let size = Symbol::size_for(class);
    let Some(mut left) = bytes_from(bytes, first, size) else {
        return 0;
    };
    let mut count = 0;
    while count < places.len() {
        let Some((own, after)) = left.split_at_checked(size) else {
            return count;
        };
        let mut start = 0;
        let Ok(symbol) = Symbol::parse_at(endian, class, &mut start, own) else {
            return count;
        };
        let Ok(name) = strings.get_raw(symbol.st_name as usize) else {
            return count;
        };
        places[count] = NugwierNamedSymbol {
            symbol: symbol.show(),
            name,
        };
        left = after;
        count += 1;
    }
    count
}

// Fills the front of the places; `fill_rest` fills what is left. In each arm the byte order and the class are known to
// the compiler.
#[inline(always)]
fn fill_front<'data>(
    table: &NugwierTable<'_>,
    strings: &StringTable<'data>,
    first: usize,
    places: &mut [NugwierNamedSymbol<'data>],
) -> usize
    ensures { AreRead IsNamed (named_symbol (table_of_c table.now) (strings_view strings.now)) first result
        places.old places.new }
{
    let bytes = table.bytes;
    match (table.little, table.is_64) {
        (true, true) => fill_quickly(LittleEndian, Class::ELF64, bytes, strings, first, places),
        (true, false) => fill_quickly(LittleEndian, Class::ELF32, bytes, strings, first, places),
        (false, true) => fill_quickly(BigEndian, Class::ELF64, bytes, strings, first, places),
        (false, false) => fill_quickly(BigEndian, Class::ELF32, bytes, strings, first, places),
    }
}

// Fills the places from number `start` on, and returns how many are filled then: up to the first symbol that cannot be
// read or has no name, and no more than there are places.
fn fill_rest<'data>(
    table: &NugwierTable<'_>,
    strings: &StringTable<'data>,
    first: usize,
    start: usize,
    places: &mut [NugwierNamedSymbol<'data>],
) -> usize
    requires within { start ≤ length places.old }
    requires front { AreHeld IsNamed (named_symbol (table_of_c table.now) (strings_view strings.now)) first start
        places.old }
    ensures from { start ≤ result }
    ensures filled { AreFilled IsNamed (named_symbol (table_of_c table.now) (strings_view strings.now)) first result
        places.old places.new }
{
    let symbols = records_in::<Symbol>(table);
    let mut count = start;
    while count < places.len() {
        let Some(index) = first.checked_add(count) else {
            return count;
        };
        let Ok(symbol) = named(&symbols, strings, index) else {
            return count;
        };
        places[count] = symbol;
        count += 1;
    }
    count
}

/// Fills `symbols` with the symbols of a table and their names, the first of them number `first`. Returns how many were
/// written: up to the first that cannot be read, or whose name cannot be found in `strings`, and no more than there are
/// places.
#[tactic(auto, using(crate::proofs::Filling::all_filled))]
#[unsafe(no_mangle)]
pub extern "C" fn nugwier_named_symbols<'data>(
    table: &NugwierTable<'_>,
    strings: &'data [u8],
    first: usize,
    symbols: &mut [NugwierNamedSymbol<'data>],
) -> usize
    ensures { AreFilled IsNamed (named_symbol (table_of_c table.now) strings.now) first result
        symbols.old symbols.new }
{
    let strings = StringTable::new(strings);
    let front = fill_front(table, &strings, first, symbols);
    if front == symbols.len() {
        return front;
    }
    fill_rest(table, &strings, first, front, symbols)
}
