//! The check of symbols.
ghost use Rattle.std.specs.Prelude.{MatchOption};
ghost use Rattle.elf_parts.specs.Hash.{symbol_at};
ghost use Rattle.elf_records.specs.Table.{table_view};
ghost use Rattle.elf_check.specs.Symbols.{IsFirstOfTable, IsTrueOfSymbol, SoundSymbol};
ghost use Rattle.elf_check.specs.Members.{AllSound};

use crate::faults::SymbolFault;
use crate::relocations::record_below;
use elf::abi;
use elf::endian::EndianParse;
use elf::string_table::TerminatedStrings;
use elf::symbol::{Symbol, SymbolTable};

// What a symbol lacks.
fn symbol_fault(
    symbol: &Symbol,
    strings: &TerminatedStrings<'_>,
    sections: usize,
) -> Option<SymbolFault>
    ensures { MatchOption result (SoundSymbol sections strings.now symbol.now)
        (IsTrueOfSymbol sections strings.now symbol.now) }
{
    let name = symbol.st_name;
    if !strings.has_string_at(name as usize) {
        return Some(SymbolFault::NoName { name });
    }
    let section = symbol.st_shndx;
    if section < abi::SHN_LORESERVE && section as usize >= sections {
        return Some(SymbolFault::NoSection { section });
    }
    None
}

// The first symbol that is not sound, and what it lacks.
pub(crate) fn first_bad_symbol<E: EndianParse>(
    symbols: &SymbolTable<'_, E>,
    strings: &TerminatedStrings<'_>,
    sections: usize,
) -> Option<(usize, SymbolFault)>
    ensures { let table = table_view symbols.now in
        MatchOption result (AllSound (symbol_at table) (SoundSymbol sections strings.now))
        (λ bad. IsFirstOfTable sections table strings.now bad.0 bad.1) }
{
    for index in 0..symbols.len() {
        let symbol = record_below(symbols, index);
        match symbol_fault(&symbol, strings, sections) {
            Some(fault) => return Some((index, fault)),
            None => {}
        }
    }
    None
}
