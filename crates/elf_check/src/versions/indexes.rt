//! The check of version indexes.
ghost use Rattle.std.specs.Prelude.{◌≡◌, ◌<◌, ◌≤◌, ◌↔◌, ℕ, Ok, IsOk, MatchOption};
ghost use Rattle.elf_parts.specs.gnu_symver.Table.{index_of};
ghost use Rattle.elf_check.specs.inner.Kept.{AreSound};
ghost use Rattle.elf_check.specs.versions.Indexes.{IsTrueOfFirst, SoundIndexes, count_with_index};

use crate::faults::VersionsFault;
use elf::endian::EndianParse;
use elf::gnu_symver::{SymbolVersions, VersionIndex};

// How many versions have the index of a symbol.
fn count_with_index<E: EndianParse, V: SymbolVersions<E>>(
    table: &V,
    symbol: usize,
    index: &VersionIndex,
) -> usize
    requires { index_of (V.versions table.now) symbol ≡ Ok index.now }
    ensures count { result ≡ count_with_index (V.versions table.now) index.now }
    ensures most { result ≤ 2 }
{
    if index.index() == 0 || index.index() == 1 {
        return 1;
    }
    let is_defined = !matches!(table.get_definition(symbol), Ok(None));
    let is_needed = !matches!(table.get_requirement(symbol), Ok(None));
    is_defined as usize + is_needed as usize
}

// How many numbers of versions are kept.
const KEPT: usize = 64;

// The same. One version has a number that is kept, and it is not looked up again.
fn count_with_kept<E: EndianParse, V: SymbolVersions<E>>(
    table: &V,
    symbol: usize,
    index: &VersionIndex,
    kept: &mut [u16],
) -> usize
    requires index { index_of (V.versions table.now) symbol ≡ Ok index.now }
    requires sound { AreSound (V.versions table.now) kept.old }
    ensures count { result ≡ count_with_index (V.versions table.now) index.now }
    ensures most { result ≤ 2 }
    ensures sound { AreSound (V.versions table.now) kept.new }
{
    let number = index.0;
    let place = number as usize % KEPT;
    if place < kept.len() && kept[place] == number {
        return 1;
    }
    let count = count_with_index::<E, V>(table, symbol, index);
    if count == 1 && place < kept.len() {
        kept[place] = number;
    }
    count
}

/// The fault of the first symbol whose version index is not that of exactly one version.
pub(super) fn first_fault<E: EndianParse, V: SymbolVersions<E>>(
    table: &V,
    symbols: usize,
) -> Option<VersionsFault>
    requires { (i : ℕ) → IsOk (index_of (V.versions table.now) i) ↔ (i < symbols) }
    ensures { MatchOption result (SoundIndexes (V.versions table.now)) (IsTrueOfFirst (V.versions table.now)) }
{
    let mut kept = [0; KEPT];
    for symbol in 0..symbols {
        let index = table.get_index(symbol).unwrap();
        match count_with_kept::<E, V>(table, symbol, &index, &mut kept) {
            0 => return Some(VersionsFault::UnknownIndex { symbol }),
            1 => {}
            _ => return Some(VersionsFault::AmbiguousIndex { symbol }),
        }
    }
    None
}
