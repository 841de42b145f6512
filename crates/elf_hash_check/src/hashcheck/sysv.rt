//! SysV sections that are sound.
ghost use Rattle.std.specs.Prelude.{◌≡◌};
ghost use Rattle.elf_parts.specs.Hash.{word_count};
ghost use Rattle.elf_parts.specs.SysvFind.{sysv_view};
ghost use Rattle.elf_hash_check.specs.Indexed.{IndexedSysv, IsFirstNamed, IsNumberOf, chain_lengths};
ghost use Rattle.elf_hash_check.specs.NamedSymbols.{AreAllNamed, named_left};
ghost use Rattle.elf_hash_check.specs.Object.{Object};
ghost use Rattle.elf_hash_check.specs.SoundSysv.{SoundSysv};
ghost use Rattle.elf_hash_check.specs.WithSymbols.{sysv_with};
ghost use Rattle.elf_hash_check.specs.inner.SoundProps.{SoundSysv-prop, SysvReads, SysvReads-prop};

mod check;

use crate::hashcheck::named::{Following, FollowingIndexes, NamedSymbols};
use crate::hashcheck::table_words::word_count;
pub use check::{check_sysv, check_sysv_counted};
use elf_parts::endian::EndianParse;
use elf_parts::hash::SysVHashTable;
use elf_parts::string_table::StringTable;
use elf_parts::symbol::{Symbol, SymbolTable};

/// The table of a SysV hash section that is sound for its symbols.
#[derive(Debug, Drop)]
pub struct CheckedSysvHash<'data, E: EndianParse> {
    table: SysVHashTable<'data, E>,
    symtab: SymbolTable<'data, E>,
    strtab: StringTable<'data>,
    indexed: usize,
    ghost sound: { SoundSysv (sysv_with table symtab strtab) } by { SoundSysv-prop (sysv_with table symtab strtab) },
    ghost readable: { SysvReads (sysv_view table) } by { SysvReads-prop (sysv_view table) },
    ghost counted: { indexed ≡ chain_lengths (sysv_view table) (word_count (sysv_view table).buckets) },
}

impl<'data, E: EndianParse> CheckedSysvHash<'data, E> {
    ghost use Rattle.elf_hash_check.specs.CheckedTable.{checked_sysv_view, sysv_indexed};
    ghost use Rattle.elf_hash_check.specs.NamedSymbols.{chain_from, indexes_left};

    /// Returns the index and the symbol of a name, the first along its chain, or `None` exactly if no indexed
    /// symbol has the name.
    pub fn find(&self, name: &[u8]) -> Option<(usize, Symbol)>
        ensures { IsFirstNamed (checked_sysv_view self.now) name.now result }
    {
        match self.table.find(name, &self.symtab, &self.strtab) {
            Ok(found) => found,
            Err(_) => None,
        }
    }

    // The indexes of a chain, starting at the index that `find` returns, if it returns one.
    fn chain_from(&self, found: Option<(usize, Symbol)>) -> FollowingIndexes<'data, E>
        ensures { indexes_left result ≡ chain_from (checked_sysv_view self.now).table found }
    {
        let chains = self.table.chains();
        let left = word_count(&chains);
        match found {
            Some((index, _)) => FollowingIndexes::new(Following::Chain, chains, Some(index), left),
            None => FollowingIndexes::new(Following::Chain, chains, None, 0),
        }
    }

    /// Returns an iterator over all indexed symbols with a name, each once with its index, in the order of their chain.
    /// The first is the one that `find` returns.
    pub fn find_all<'a>(&self, name: &'a [u8]) -> NamedSymbols<'a, 'data, E>
        ensures { AreAllNamed (Object.BySysv (checked_sysv_view self.now)) name.now (named_left result) }
    {
        let walk = self.chain_from(self.find(name));
        NamedSymbols::new(walk, self.symtab, self.strtab, name)
    }

    /// Returns the number of symbols that the section indexes: the sum of the lengths of its chains.
    pub fn indexed(&self) -> usize
        ensures count { result ≡ sysv_indexed self.now }
        ensures lengths { let table = (checked_sysv_view self.now).table in
            result ≡ chain_lengths table (word_count table.buckets) }
        ensures members { IsNumberOf result (IndexedSysv (checked_sysv_view self.now).table) }
    {
        self.indexed
    }
}
