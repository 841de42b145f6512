//! Relocations of a file that was checked, in order.
ghost use Rattle.std.specs.Prelude.{◌≡◌};
ghost use Rattle.std.specs.Iterator.{YieldsFirstBy, item_count};
ghost use Rattle.std.specs.Option.{option_map};
ghost use Rattle.elf_records.specs.Table.{table_items, table_view};
ghost use Rattle.elf_check.specs.RelocationLists.{symbol_in, with_symbols};
ghost use Rattle.elf_check.specs.Whole.{named_view, whole_symbols};

use super::symbols::WholeSymbols;
use crate::relocations::record_below;
use elf::endian::EndianParse;
use elf::laws::lists::list_is_what_get_gives;
use elf::laws::tables::iter_gives_len_records;
use elf::parse::ParsingTable;
use elf::relocation::Relocation;
use elf::symbol::Symbol;

/// Relocations in order, each with the symbol that it names and its name, if symbols are linked and shown. After its
/// first `None` it keeps returning `None`.
#[derive(Debug, Drop)]
pub struct WholeRelocations<'data, E: EndianParse, P: Relocation> {
    table: ParsingTable<'data, E, P>,
    symbols: Option<WholeSymbols<'data, E>>,
    next: usize,
}

// The symbol of an index and the bytes of its name, if symbols are linked and it can be read.
fn symbol_in<'data, E: EndianParse>(
    symbols: &Option<WholeSymbols<'data, E>>,
    index: usize,
) -> Option<(Symbol, &'data [u8])>
    ensures { option_map named_view result ≡ symbol_in (option_map whole_symbols symbols.now) index }
{
    match symbols {
        Some(symbols) => symbols.get(index),
        None => None,
    }
}

impl<'data, E: EndianParse, P: Relocation> WholeRelocations<'data, E, P> {
    ghost use Rattle.elf_check.specs.RelocationViews.{relocations_left};

    pub(super) fn new(
        table: ParsingTable<'data, E, P>,
        symbols: Option<WholeSymbols<'data, E>>,
    ) -> Self
        ensures { relocations_left P.reads P.symbol_of result
            ≡ with_symbols P.symbol_of (option_map whole_symbols symbols.entry) (table_items P.reads (table_view
            table.entry)) }
    {
        WholeRelocations {
            table,
            symbols,
            next: 0,
        }
    }
}

impl<'data, E: EndianParse, P: Relocation> Iterator for WholeRelocations<'data, E, P> {
    type Item = (P, Option<(Symbol, &'data [u8])>);

    ghost use Rattle.elf_check.specs.RelocationViews.{relocations_left};
    ghost use Rattle.elf_check.specs.Whole.{relocation_view};

    ghost next_gives = { YieldsFirstBy relocation_view (relocations_left P.reads P.symbol_of) };

    ghost remaining = { item_count (relocations_left P.reads P.symbol_of) };

    fn next(&mut self) -> Option<(P, Option<(Symbol, &'data [u8])>)> {
        list_is_what_get_gives::<P>();
        iter_gives_len_records(&self.table);
        if self.next >= self.table.len() {
            return None;
        }
        let relocation = record_below(&self.table, self.next);
        let symbol = symbol_in(&self.symbols, relocation.symbol() as usize);
        self.next += 1;
        Some((relocation, symbol))
    }

    fn size_hint(&self) -> (usize, Option<usize>) {
        let left = self.len();
        (left, Some(left))
    }
}

impl<'data, E: EndianParse, P: Relocation> ExactSizeIterator for WholeRelocations<'data, E, P> {
    fn len(&self) -> usize {
        iter_gives_len_records(&self.table);
        self.table.len().saturating_sub(self.next)
    }
}
