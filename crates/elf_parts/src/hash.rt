//! Hash sections, which find symbols by name: SysV (gABI, chapter "Hash Table") and GNU.
ghost use Rattle.std.specs.Prelude.{◌≡◌, ◌<◌, ◌^◌, IfNone, IfSome, IsErr, None, Ok};
ghost use Rattle.elf_parts.specs.Hash.{if_named, named_symbol, word_at, word_count};
ghost use Rattle.elf_parts.specs.inner.Answers.{read_again};
ghost use Rattle.elf_records.specs.Number.{ok_map};
ghost use Rattle.elf_records.specs.Table.{table_view};

use crate::endian::EndianParse;
use crate::parse::{ParseError, ParsingTable};
use crate::string_table::TerminatedStrings;
use crate::symbol::{Symbol, SymbolTable};

mod gnu;
mod sysv;

pub use gnu::{GnuHashHeader, GnuHashTable, gnu_hash};
pub use sysv::{SysVHashHeader, SysVHashTable, sysv_hash};

/// A table of words of four bytes.
type U32Table<'data, E> = ParsingTable<'data, E, u32>;

/// What a look-up returns: the index and the symbol, if there is one.
type Found = Result<Option<(usize, Symbol)>, ParseError>;

// The reads of a look-up are inlined, and return `None` for an error. `refused` reads again and returns it: a
// `ParseError` is large, and to carry one that is not there costs more than the look-up.

// A read of a look-up that failed.
#[derive(Drop)]
enum Refusal {
    // The word of a bucket.
    BucketAt(usize),
    // A chain word.
    ChainAt(usize),
    // A symbol or its name.
    SymbolAt(usize),
}

// What a look-up finds, or the read that failed.
type Answer = Result<Option<(usize, Symbol)>, Refusal>;

// A word of a table, or `None` if it cannot be read.
#[tactic(auto, unfolding(crate::specs::Hash::word_at))]
#[inline(always)]
fn word<E: EndianParse>(words: &U32Table<'_, E>, index: usize) -> Option<usize>
    ensures value { IfSome result (λ n. word_at (table_view words.now) index ≡ Ok n) }
    ensures refused { IfNone result (IsErr (word_at (table_view words.now) index)) }
{
    let word = words.get_quickly(index)?;
    Some(word as usize)
}

// How many words a table holds.
#[inline(always)]
fn word_count<E: EndianParse>(words: &U32Table<'_, E>) -> usize
    ensures count { result ≡ word_count (table_view words.now) }
    ensures bound { result < 2 ^ 62 }
{
    words.len()
}

// A symbol and its name.
#[tactic(auto, unfolding(crate::specs::Hash::named_symbol))]
fn named_symbol<'data, E: EndianParse>(
    symtab: &SymbolTable<'data, E>,
    strings: &TerminatedStrings<'data>,
    index: usize,
) -> Result<(Symbol, &'data [u8]), ParseError>
    ensures { ok_map (λ found. (found.0, found.1.now)) result ≡ named_symbol (table_view symtab.now) strings.now index }
{
    let symbol = symtab.get(index)?;
    let name = strings.get_raw(symbol.st_name as usize)?;
    Ok((symbol, name))
}

// An index and its symbol, where that has the name, or `None` if it cannot be read.
#[tactic(auto, unfolding(crate::specs::Hash::named_symbol))]
#[inline(always)]
fn if_named<'data, E: EndianParse>(
    symtab: &SymbolTable<'data, E>,
    strings: &TerminatedStrings<'data>,
    name: &[u8],
    index: usize,
) -> Option<Option<(usize, Symbol)>>
    ensures value { IfSome result (λ found.
        ok_map (if_named name.now index) (named_symbol (table_view symtab.now) strings.now index) ≡ Ok found) }
    ensures refused { IfNone result
        (IsErr (ok_map (if_named name.now index) (named_symbol (table_view symtab.now) strings.now index))) }
{
    let symbol = symtab.get_quickly(index)?;
    if strings.is_quickly(symbol.st_name as usize, name)? {
        Some(Some((index, symbol)))
    } else {
        Some(None)
    }
}

// The error of a read that failed.
#[tactic(auto, unfolding(crate::specs::Hash::word_at))]
#[inline(never)]
fn refused<E: EndianParse>(
    buckets: &U32Table<'_, E>,
    chains: &U32Table<'_, E>,
    symtab: &SymbolTable<'_, E>,
    strings: &TerminatedStrings<'_>,
    refusal: Refusal,
) -> Found
    ensures { result ≡ read_again (table_view buckets.now) (table_view chains.now) (table_view symtab.now) strings.now
        refusal }
{
    match refusal {
        Refusal::BucketAt(bucket) => {
            buckets.get(bucket)?;
        }
        Refusal::ChainAt(place) => {
            chains.get(place)?;
        }
        Refusal::SymbolAt(index) => {
            named_symbol(symtab, strings, index)?;
        }
    }
    Ok(None)
}
