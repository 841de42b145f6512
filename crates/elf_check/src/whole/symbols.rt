//! The symbols of a section of a file that was checked.
ghost use Rattle.std.specs.Prelude.{◌≡◌, ◌<◌, ◌↔◌, ℕ, IsOk, IsSome};
ghost use Rattle.std.specs.Option.{option_map};
ghost use Rattle.std.specs.Result.{result_ok};
ghost use Rattle.elf_parts.specs.Hash.{named_symbol};
ghost use Rattle.elf_records.specs.Table.{table_len, table_view};
ghost use Rattle.elf_records.specs.StringTable.{strings_view};
ghost use Rattle.elf_records.specs.Symbol.{symbol_reads};
ghost use Rattle.elf_check.specs.Symbols.{SoundSymbolTable};
ghost use Rattle.elf_check.specs.inner.SoundProps.{SoundSymbolTable-prop};

use elf::endian::EndianParse;
use elf::laws::tables::get_succeeds_below_len;
use elf::string_table::StringTable;
use elf::symbol::{Symbol, SymbolTable};

/// Symbols whose names can all be read.
#[derive(Debug, Drop)]
pub struct WholeSymbols<'data, E: EndianParse> {
    pub(super) symbols: SymbolTable<'data, E>,
    pub(super) strings: StringTable<'data>,
    pub(super) sections: usize,
    ghost sound: { SoundSymbolTable sections (table_view symbols) (strings_view strings) } by { SoundSymbolTable-prop
        sections (table_view symbols) (strings_view strings) },
}

impl<'data, E: EndianParse> WholeSymbols<'data, E> {
    ghost use Rattle.elf_check.specs.Whole.{named_view, whole_symbols};

    pub(super) fn new(
        symbols: SymbolTable<'data, E>,
        strings: StringTable<'data>,
        sections: usize,
    ) -> Self
        requires { SoundSymbolTable sections (table_view symbols) (strings_view strings) }
        ensures { whole_symbols result ≡ (table_view symbols.entry, strings_view strings.entry) }
    {
        WholeSymbols {
            symbols,
            strings,
            sections,
        }
    }

    // Each symbol can be read with its name.
    pub(super) fn are_read(&self)
        ensures { let (symbols, strings) = whole_symbols self.now in
            (i : ℕ) → i < table_len symbol_reads symbols → IsOk (named_symbol symbols strings i) }
    {
        let _ = self.symbols.len();
    }

    /// How many symbols there are.
    pub fn len(&self) -> usize
        ensures { result ≡ table_len symbol_reads (whole_symbols self.now).0 }
    {
        self.symbols.len()
    }

    /// The symbol at an index with the bytes of its name, or `None` exactly if there is none.
    #[tactic(auto, unfolding(elf_parts::specs::Hash::named_symbol))]
    pub fn get(&self, index: usize) -> Option<(Symbol, &'data [u8])>
        ensures value { option_map named_view result
            ≡ result_ok (named_symbol (whole_symbols self.now).0 (whole_symbols self.now).1 index) }
        ensures below { IsSome result ↔ (index < table_len symbol_reads (whole_symbols self.now).0) }
    {
        get_succeeds_below_len(&self.symbols, index);
        match self.symbols.get(index) {
            Ok(symbol) => {
                let name = self.strings.get_raw(symbol.st_name as usize).unwrap();
                Some((symbol, name))
            }
            Err(_) => None,
        }
    }
}
