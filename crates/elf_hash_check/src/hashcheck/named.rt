//! All symbols of a name that a checked section indexes.
ghost use Rattle.std.specs.Prelude.{◌≡◌, ◌-◌};
ghost use Rattle.std.specs.Iterator.{YieldsFirst, item_count};
ghost use Rattle.elf_records.specs.StringTable.{strings_view};
ghost use Rattle.elf_records.specs.Table.{table_view};
ghost use Rattle.elf_hash_check.specs.NamedSymbols.{index_behind, indexes_from, indexes_left, symbols_with_name};
ghost use Rattle.elf_hash_check.specs.NamedSymbols.{named_left};
ghost use Rattle.elf_hash_check.specs.NamedSymbols.{symbol_named, unless_last, unless_zero};
ghost use Rattle.elf_hash_check.specs.WithSymbols.{word};

use crate::hashcheck::table_words::{U32Table, word_count, word_of};
use elf_parts::endian::EndianParse;
use elf_parts::laws::find::words_read_below_count;
use elf_parts::string_table::{StringTable, TerminatedStrings};
use elf_parts::symbol::{Symbol, SymbolTable};

// What leads from one index to the next.
#[derive(Copy, Clone, Debug)]
pub(crate) enum Following {
    // The chain word of an index is the next index, or 0.
    Chain,
    // The next index follows. The chain words begin with that of the index `first`, and bit 0 ends a run.
    Run { first: u32 },
}

// The indexes of a chain or a run, from one on: at most `left`.
#[derive(Debug, Drop)]
pub(crate) struct FollowingIndexes<'data, E: EndianParse> {
    links: Following,
    chains: U32Table<'data, E>,
    next: Option<usize>,
    left: usize,
}

// The next index of a chain.
fn behind_in_chain<E: EndianParse>(chains: &U32Table<'_, E>, index: usize) -> Option<usize>
    ensures { result ≡ unless_zero (word (table_view chains.now) index) }
{
    let next = word_of(chains, index)?;
    if next == 0 { None } else { Some(next as usize) }
}

// The next index of a run.
fn behind_in_run<E: EndianParse>(
    chains: &U32Table<'_, E>,
    first: u32,
    index: usize,
) -> Option<usize>
    ensures { result ≡ unless_last index (word (table_view chains.now) (index - first)) }
{
    // A word that can be read lies below the count, which is less than 2^62: so the next index is a number of 64 bits.
    words_read_below_count(chains);
    word_count(chains);
    let place = index.saturating_sub(first as usize);
    let word = word_of(chains, place)?;
    if word % 2 == 1 { None } else { Some(index + 1) }
}

impl<'data, E: EndianParse> FollowingIndexes<'data, E> {
    pub(crate) fn new(
        links: Following,
        chains: U32Table<'data, E>,
        next: Option<usize>,
        left: usize,
    ) -> Self
        ensures { indexes_left result ≡ indexes_from (index_behind (table_view chains.entry) links) left next }
    {
        FollowingIndexes {
            links,
            chains,
            next,
            left,
        }
    }

    fn behind(&self, index: usize) -> Option<usize>
        ensures { result ≡ index_behind (table_view self.now.chains) self.now.links index }
    {
        match self.links {
            Following::Chain => behind_in_chain(&self.chains, index),
            Following::Run { first } => behind_in_run(&self.chains, first, index),
        }
    }
}

impl<'data, E: EndianParse> Iterator for FollowingIndexes<'data, E> {
    type Item = usize;

    ghost next_gives = { YieldsFirst indexes_left };

    ghost remaining = { item_count indexes_left };

    #[tactic(auto, using(crate::proofs::NamedLists::walk_steps))]
    fn next(&mut self) -> Option<usize> {
        if self.left == 0 {
            return None;
        }
        let index = self.next?;
        self.left -= 1;
        self.next = self.behind(index);
        Some(index)
    }
}

/// An iterator over the indexed symbols with a name, each with its index, in the order in which a look-up meets
/// them. After its first `None` it keeps returning `None`. Nothing is allocated.
#[derive(Debug, Drop)]
pub struct NamedSymbols<'a, 'data, E: EndianParse> {
    walk: FollowingIndexes<'data, E>,
    symtab: SymbolTable<'data, E>,
    strings: TerminatedStrings<'data>,
    name: &'a [u8],
}

impl<'a, 'data, E: EndianParse> NamedSymbols<'a, 'data, E> {
    pub(crate) fn new(
        walk: FollowingIndexes<'data, E>,
        symtab: SymbolTable<'data, E>,
        strtab: StringTable<'data>,
        name: &'a [u8],
    ) -> Self
        ensures { named_left result
            ≡ symbols_with_name (table_view symtab.entry) (strings_view strtab.entry) name.now
            (indexes_left walk.entry) }
    {
        NamedSymbols {
            walk,
            symtab,
            strings: TerminatedStrings::new(&strtab),
            name,
        }
    }

    // The symbol of an index, if it has the name.
    #[tactic(auto, unfolding(crate::specs::WithSymbols::symbol_and_name, elf_parts::specs::Hash::named_symbol))]
    fn symbol_named(&self, index: usize) -> Option<(usize, Symbol)>
        ensures { let s = self.now in
            result ≡ symbol_named (table_view s.symtab) s.strings s.name.now index }
    {
        let symbol = self.symtab.get(index).ok()?;
        match self.strings.is(symbol.st_name as usize, self.name) {
            Ok(true) => Some((index, symbol)),
            _ => None,
        }
    }
}

impl<'a, 'data, E: EndianParse> Iterator for NamedSymbols<'a, 'data, E> {
    type Item = (usize, Symbol);

    ghost next_gives = { YieldsFirst named_left };

    ghost remaining = { item_count named_left };

    fn next(&mut self) -> Option<(usize, Symbol)> {
        for _ in 0..self.walk.left {
            let index = self.walk.next()?;
            let found = self.symbol_named(index);
            if found.is_some() {
                return found;
            }
        }
        None
    }
}
