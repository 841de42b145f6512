//! Symbols by address.
ghost use Rattle.std.specs.Prelude.{◌≡◌};
ghost use Rattle.elf_records.specs.Symbol.{symbol_reads};
ghost use Rattle.elf_records.specs.Table.{table_len, table_view};
ghost use Rattle.elf_c.specs.Addresses.{IsFoundBefore, IsLastBefore, starts_before};
ghost use Rattle.elf_c.specs.Tables.{table_of_c};

use crate::find::{NugwierFound, found_shown};
use crate::table::{NugwierTable, records_in};
use elf_parts::endian::AnyEndian;
use elf_parts::symbol::{Symbol, SymbolTable};
use elf_tools::addresses::has_address;

// Whether a symbol has an address, which is this one or one before it.
fn starts_before(symbol: &Symbol, address: u64) -> bool
    ensures { result ≡ starts_before address symbol.now }
{
    has_address(symbol) && symbol.st_value <= address
}

// The last symbol, in the order of addresses, that starts at an address or before it, with its index.
fn last_before(symbols: &SymbolTable<'_, AnyEndian>, address: u64) -> Option<(usize, Symbol)>
    ensures { IsLastBefore (table_view symbols.now) (table_len symbol_reads (table_view symbols.now)) address result }
{
    let mut last: Option<(usize, Symbol)> = None;
    let mut greatest = 0;
    for index in 0..symbols.len() {
        if let Ok(symbol) = symbols.get(index)
            && greatest <= symbol.st_value
            && starts_before(&symbol, address)
        {
            greatest = symbol.st_value;
            last = Some((index, symbol));
        }
    }
    last
}

/// Finds the last symbol of a table, in the order of addresses, that starts at an address or before it, with its index,
/// counted from 0: of several with one address that which comes last in the table. These are the symbols that have an
/// address (`elf_tools::addresses::has_address`). If there is none, all numbers are 0. The time grows with the number of
/// the symbols.
#[unsafe(no_mangle)]
pub extern "C" fn nugwier_symbol_at(
    symbols: &NugwierTable<'_>,
    address: u64,
    found: &mut NugwierFound,
)
    ensures { IsFoundBefore (table_of_c symbols.now) address found.new }
{
    *found = found_shown(&last_before(&records_in(symbols), address));
}
