//! The words of a hash section.
ghost use Rattle.std.specs.Prelude.{◌≡◌, ◌<◌, ◌^◌, Some};
ghost use Rattle.elf_parts.specs.Hash.{word_count};
ghost use Rattle.elf_records.specs.Table.{table_view};
ghost use Rattle.elf_hash_check.specs.WithSymbols.{word};

use elf_parts::endian::EndianParse;
use elf_parts::laws::find::words_read_below_count;
use elf_parts::parse::ParsingTable;

pub(crate) type U32Table<'data, E> = ParsingTable<'data, E, u32>;

// A word of a table.
#[tactic(auto, unfolding(crate::specs::WithSymbols::word, elf_parts::specs::Hash::word_at))]
pub(crate) fn word_of<E: EndianParse>(words: &U32Table<'_, E>, index: usize) -> Option<u32>
    ensures { result ≡ word (table_view words.now) index }
{
    words.get_quickly(index)
}

// A word below the count.
pub(crate) fn word_below<E: EndianParse>(words: &U32Table<'_, E>, index: usize) -> usize
    requires { index < word_count (table_view words.now) }
    ensures value { word (table_view words.now) index ≡ Some result }
    ensures bound { result < 2 ^ 32 }
{
    words_read_below_count(words);
    match word_of(words, index) {
        Some(word) => word as usize,
        None => 0,
    }
}

// How many words a table holds.
pub(crate) fn word_count<E: EndianParse>(words: &U32Table<'_, E>) -> usize
    ensures count { result ≡ word_count (table_view words.now) }
    ensures bound { result < 2 ^ 62 }
{
    words.len()
}
