//! The count of the symbols that a checker reads.
ghost use Rattle.std.specs.Option.{option_map};
ghost use Rattle.std.specs.Prelude.{◌≡◌};
ghost use Rattle.elf_records.specs.StringTable.{strings_view};
ghost use Rattle.elf_records.specs.Table.{table_view};
ghost use Rattle.elf_hash_check.specs.Reads.{count_after, read_count};
ghost use Rattle.elf_hash_check.specs.WithSymbols.{name_at};

use elf_parts::endian::EndianParse;
use elf_parts::string_table::StringTable;
use elf_parts::symbol::SymbolTable;

/// The number of symbols that a checker has read, whether the read succeeded or not. It stops at 2^64 - 1.
#[derive(Copy, Clone, Debug, Default, PartialEq, Eq)]
pub struct Reads {
    count: u64,
}

impl Reads {
    /// A count of 0.
    pub fn new() -> Self
        ensures { read_count result ≡ 0 }
    {
        Reads { count: 0 }
    }

    /// Returns the number of symbols that were read.
    pub fn count(&self) -> u64
        ensures { result ≡ read_count self.now }
    {
        self.count
    }

    // Reads a symbol, and gives its name where both can be read. Inlined, since a name that is returned by a call goes
    // through memory.
    #[tactic(auto, unfolding(crate::specs::WithSymbols::symbol_and_name, elf_parts::specs::Hash::named_symbol))]
    #[inline(always)]
    pub(crate) fn name_at<'data, E: EndianParse>(
        &mut self,
        symtab: &SymbolTable<'data, E>,
        strtab: &StringTable<'data>,
        index: usize,
    ) -> Option<&'data [u8]>
        ensures name { option_map (λ name. name.now) result
            ≡ name_at (table_view symtab.now) (strings_view strtab.now) index }
        ensures count { read_count self.new ≡ count_after (read_count self.old) 1 }
    {
        self.count = self.count.saturating_add(1);
        let symbol = symtab.get_quickly(index)?;
        strtab.get_raw(symbol.st_name as usize).ok()
    }
}
