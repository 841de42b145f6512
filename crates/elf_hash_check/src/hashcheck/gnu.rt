//! GNU sections that are sound.
ghost use Rattle.std.specs.Prelude.{◌≡◌, ℕ, List, [], true};
ghost use Rattle.elf_parts.specs.GnuFind.{excludes, gnu_view};
ghost use Rattle.elf_parts.specs.Hash.{gnu_hash_of, word_count};
ghost use Rattle.elf_hash_check.specs.Indexed.{IndexedGnu, IsLeastNamed, IsNumberOf};
ghost use Rattle.elf_hash_check.specs.NamedSymbols.{AreAllNamed, named_left};
ghost use Rattle.elf_hash_check.specs.Object.{Object};
ghost use Rattle.elf_hash_check.specs.SoundGnu.{SoundGnu};
ghost use Rattle.elf_hash_check.specs.WithSymbols.{gnu_with};
ghost use Rattle.elf_hash_check.specs.inner.SoundProps.{GnuReads, GnuReads-prop, SoundGnu-prop};

mod check;

use crate::hashcheck::named::{Following, FollowingIndexes, NamedSymbols};
use crate::hashcheck::table_words::word_count;
pub use check::{check_gnu, check_gnu_counted};
use elf_parts::endian::EndianParse;
use elf_parts::hash::GnuHashTable;
use elf_parts::string_table::StringTable;
use elf_parts::symbol::{Symbol, SymbolTable};

/// The table of a GNU hash section that is sound for its symbols.
#[derive(Debug, Drop)]
pub struct CheckedGnuHash<'data, E: EndianParse> {
    table: GnuHashTable<'data, E>,
    symtab: SymbolTable<'data, E>,
    strtab: StringTable<'data>,
    indexed: usize,
    ghost sound: { SoundGnu (gnu_with table symtab strtab) } by { SoundGnu-prop (gnu_with table symtab strtab) },
    ghost readable: { GnuReads (gnu_view table) } by { GnuReads-prop (gnu_view table) },
    ghost counted: { indexed ≡ word_count (gnu_view table).chains },
}

impl<'data, E: EndianParse> CheckedGnuHash<'data, E> {
    ghost use Rattle.elf_hash_check.specs.CheckedTable.{checked_gnu_view, gnu_indexed};
    ghost use Rattle.elf_hash_check.specs.NamedSymbols.{indexes_left, run_from};

    /// Returns the least index with the name and its symbol, or `None` exactly if no indexed symbol has the name.
    pub fn find(&self, name: &[u8]) -> Option<(usize, Symbol)>
        ensures { IsLeastNamed (checked_gnu_view self.now) name.now result }
    {
        match self.table.find(name, &self.symtab, &self.strtab) {
            Ok(found) => found,
            Err(_) => None,
        }
    }

    /// Returns whether the bloom words tell that no indexed symbol has a name with this hash (`gnu_hash`).
    pub fn excludes(&self, hash: u32) -> bool
        ensures value { result ≡ excludes (checked_gnu_view self.now).table hash }
        ensures none { result ≡ true → (name : List ℕ) → gnu_hash_of name ≡ hash
            → AreAllNamed (Object.ByGnu (checked_gnu_view self.now)) name [] }
    {
        self.table.excludes(hash)
    }

    // The indexes of a run, starting at the index that `find` returns, if it returns one.
    fn run_from(&self, found: Option<(usize, Symbol)>) -> FollowingIndexes<'data, E>
        ensures { indexes_left result ≡ run_from (checked_gnu_view self.now).table found }
    {
        let chains = self.table.chains();
        let links = Following::Run {
            first: self.table.hdr.table_start_idx,
        };
        let Some((index, _)) = found else {
            return FollowingIndexes::new(links, chains, None, 0);
        };
        let place = index.saturating_sub(self.table.hdr.table_start_idx as usize);
        let left = word_count(&chains).saturating_sub(place);
        FollowingIndexes::new(links, chains, Some(index), left)
    }

    /// Returns an iterator over all indexed symbols with a name, each once with its index, in the order of their
    /// indexes. The first is the one that `find` returns.
    pub fn find_all<'a>(&self, name: &'a [u8]) -> NamedSymbols<'a, 'data, E>
        ensures { AreAllNamed (Object.ByGnu (checked_gnu_view self.now)) name.now (named_left result) }
    {
        let walk = self.run_from(self.find(name));
        NamedSymbols::new(walk, self.symtab, self.strtab, name)
    }

    /// Returns the number of symbols that the section indexes: one for each chain word.
    pub fn indexed(&self) -> usize
        ensures count { result ≡ gnu_indexed self.now }
        ensures words { result ≡ word_count (checked_gnu_view self.now).table.chains }
        ensures members { IsNumberOf result (IndexedGnu (checked_gnu_view self.now).table) }
    {
        self.indexed
    }
}
