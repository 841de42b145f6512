//! The symbols of a section, in order.
ghost use Rattle.std.specs.Prelude.{◌≡◌, length};
ghost use Rattle.std.specs.Iterator.{YieldsFirstBy, item_count};
ghost use Rattle.elf_records.specs.Table.{table_items, table_len};
ghost use Rattle.elf_records.specs.Symbol.{symbol_reads};
ghost use Rattle.elf_check.specs.Symbols.{AllNamed, with_names};

use super::symbols::WholeSymbols;
use elf::endian::EndianParse;
use elf::laws::lists::list_is_what_get_gives;
use elf::laws::tables::iter_gives_len_records;
use elf::symbol::Symbol;

/// Symbols in order, each with the bytes of its name. It knows their number. After its first `None` it keeps returning
/// `None`.
#[derive(Debug, Drop)]
pub struct WholeSymbolsIter<'data, E: EndianParse> {
    symbols: WholeSymbols<'data, E>,
    next: usize,
}

impl<'data, E: EndianParse> WholeSymbols<'data, E> {
    ghost use Rattle.elf_check.specs.Whole.{named_left, whole_symbols};

    /// The symbols in order, each with the bytes of its name: as many as there are.
    pub fn iter(&self) -> WholeSymbolsIter<'data, E>
        ensures items { let (symbols, strings) = whole_symbols self.now in
            named_left result ≡ with_names strings (table_items symbol_reads symbols) }
        ensures names { AllNamed (whole_symbols self.now).1 (table_items symbol_reads (whole_symbols self.now).0) }
        ensures all { length (named_left result) ≡ table_len symbol_reads (whole_symbols self.now).0 }
    {
        list_is_what_get_gives::<Symbol>();
        iter_gives_len_records(&self.symbols);
        let _ = self.symbols.len();
        WholeSymbolsIter {
            symbols: WholeSymbols::new(self.symbols, self.strings, self.sections),
            next: 0,
        }
    }
}

impl<'data, E: EndianParse> Iterator for WholeSymbolsIter<'data, E> {
    type Item = (Symbol, &'data [u8]);

    ghost use Rattle.elf_check.specs.Whole.{named_left, named_view};

    ghost next_gives = { YieldsFirstBy named_view named_left };

    ghost remaining = { item_count named_left };

    fn next(&mut self) -> Option<(Symbol, &'data [u8])> {
        list_is_what_get_gives::<Symbol>();
        iter_gives_len_records(&self.symbols.symbols);
        if self.next >= self.symbols.symbols.len() {
            return None;
        }
        let found = self.symbols.get(self.next).unwrap();
        self.next += 1;
        Some(found)
    }

    fn size_hint(&self) -> (usize, Option<usize>) {
        let left = self.len();
        (left, Some(left))
    }
}

impl<'data, E: EndianParse> ExactSizeIterator for WholeSymbolsIter<'data, E> {
    fn len(&self) -> usize {
        iter_gives_len_records(&self.symbols.symbols);
        self.symbols.len().saturating_sub(self.next)
    }
}
