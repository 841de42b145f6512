//! The parts of a source that are cached.
ghost use Rattle.std.specs.Prelude.{◌≡◌, [], ◌∷◌, ◌≤◌, ◌<◌, ◌+◌, ◌^◌, length, map};
ghost use Rattle.std.specs.Prelude.{false, not, nat_le, nat_lt, ◌&&◌, is_some, IsSome, IsTrue, IfSome, IfNone};
ghost use Rattle.std.specs.Prelude.{OnOk, Err, IfErr, ℕ};
ghost use Rattle.std.specs.List.{filter, All, AllPairs, Contains};
ghost use Rattle.std.specs.BTreeMap.{get_by};
ghost use Rattle.std.specs.Ordering.{nat_cmp};
ghost use Rattle.elf_reading.specs.Cache.{Piece, AreSpread, IsPartOf, IsPut, covers, end_of, is_within, piece_of};
ghost use Rattle.elf_reading.specs.Cache.{last_of, part_at, range_of};
ghost use Rattle.std.specs.Option.{option_map};
ghost use Rattle.elf_reading.specs.Cache.{is_cached};
ghost use Rattle.elf_records.specs.declared.parse.ParseError.{ParseError};

use elf_records::parse::ParseError;
use std::alloc::Allocator;
use std::collections::BTreeMap;
use std::marker::Model;
use std::ops::Bound;

/// The cached parts of a source, by their starts. None lies within another, so a look-up examines only one of them.
#[derive(Drop)]
pub struct Cache<A: Allocator> {
    buffers: BTreeMap<u64, Vec<u8, A>, A>,
}

impl<A: Allocator> Model for Cache<A> {
    ghost use Rattle.std.specs.Prelude.{List, map};
    ghost use Rattle.elf_reading.specs.Cache.{Piece, AreSpread, piece_of};

    ghost Value = { List Piece };

    ghost view = { λ c. map (piece_of (λ v. v.items)) c.buffers.entries };

    ghost invariant = { λ c. AreSpread (λ v. v.items) c.buffers.entries };
}

impl<A: Allocator> Cache<A> {
    /// An empty cache.
    pub fn new(alloc: A) -> Self
        ensures { result ≡ [] }
    {
        Cache {
            buffers: BTreeMap::new(alloc),
        }
    }

    /// Whether one buffer has all bytes from `start` to `end`.
    pub fn holds(&self, start: u64, end: u64) -> bool
        ensures { result ≡ is_cached (map range_of self.now) start end }
    {
        self.find(start, end).is_some()
    }

    // The buffer that has all bytes from `start` to `end`. Of the buffers that start at or before `start` the last one
    // also ends last, so no other buffer can have them.
    fn find(&self, start: u64, end: u64) -> Option<(u64, &[u8])>
        ensures cached { is_some result ≡ is_cached (map range_of self.now) start end }
        ensures covers { IfSome result (λ r. Contains self.now (record { start = r.0; bytes = r.1.now })
            × IsTrue (covers start end (record { start = r.0; bytes = r.1.now }))) }
        ensures last { option_map (λ r. record { start = r.0; bytes = r.1.now }) result
            ≡ last_of (covers start end) self.now }
    {
        let (from, bytes) = self.buffers.range(..=start).next_back()?;
        if end.saturating_sub(*from) <= bytes.len() as u64 {
            return Some((*from, bytes));
        }
        None
    }

    /// The bytes from `start` to `end`, if one buffer has all of them; `None` if `end` is less than `start`.
    pub fn get(&self, start: u64, end: u64) -> Option<&[u8]>
        ensures cached { is_some result ≡ (nat_le start end && is_cached (map range_of self.now) start end) }
        ensures part { IfSome result (λ bytes. IsPartOf self.now start end bytes.now) }
        ensures value { option_map (λ bytes. bytes.now) result ≡ part_at self.now start end }
    {
        if end < start {
            return None;
        }
        match self.find(start, end) {
            Some((from, bytes)) => Some(&bytes[(start - from) as usize..(end - from) as usize]),
            None => None,
        }
    }

    /// Caches a buffer, and drops the buffers that lie within it. If its range is cached already, the buffer itself is
    /// dropped. Each buffer is dropped at most once, so the amortized cost of a call is logarithmic in the number of
    /// buffers.
    ///
    /// Errors, in order, which leave the cache as it was: `IntegerOverflow` if the end of the buffer does not fit 64
    /// bits; `OutOfMemory` if the allocation failed.
    pub fn put(&mut self, start: u64, bytes: Vec<u8, A>) -> Result<(), ParseError>
    where
        A: Copy,
        ensures put { OnOk result (IsPut (record { start = start; bytes = bytes.items }) self.old self.new) }
        ensures refused { start + length bytes.items < 2 ^ 64 →
            IfErr result (λ e. (e ≡ ParseError.OutOfMemory) × (self.new ≡ self.old)) }
        ensures overflow { 2 ^ 64 ≤ start + length bytes.items →
            (result ≡ Err ParseError.IntegerOverflow) × (self.new ≡ self.old) }
    {
        let Some(end) = start.checked_add(bytes.len() as u64) else {
            return Err(ParseError::IntegerOverflow);
        };
        if self.holds(start, end) {
            return Ok(());
        }
        if self.buffers.insert(start, bytes).is_err() {
            return Err(ParseError::OutOfMemory);
        }
        remove_within(&mut self.buffers, start, end);
        Ok(())
    }
}

// Drops the buffers that start past `start` and end at or before `end`.
fn remove_within<A: Allocator>(buffers: &mut BTreeMap<u64, Vec<u8, A>, A>, start: u64, end: u64)
    requires { AreSpread (λ v. v.items) (filter (λ e. nat_lt start e.0) buffers.old.entries) }
    ensures { buffers.new.entries
        ≡ filter (λ e. not (is_within start end (piece_of (λ v. v.items) e))) buffers.old.entries }
{
    while let Some(next) = next_within(buffers, start, end) {
        buffers.remove(&next);
    }
}

// The first buffer that starts past `start`, if it ends at or before `end`. If it does not, no later buffer does.
fn next_within<A: Allocator>(
    buffers: &BTreeMap<u64, Vec<u8, A>, A>,
    start: u64,
    end: u64,
) -> Option<u64>
    requires { AreSpread (λ v. v.items) (filter (λ e. nat_lt start e.0) buffers.now.entries) }
    ensures one { IfSome result (λ k. IfSome (get_by (nat_cmp k) buffers.now)
        (λ v. IsTrue (is_within start end (piece_of (λ v. v.items) (k, v))))) }
    ensures there { IfSome result (λ k. IsSome (get_by (nat_cmp k) buffers.now)) }
    ensures none { IfNone result
        (All (λ e. is_within start end (piece_of (λ v. v.items) e) ≡ false) buffers.now.entries) }
{
    let (from, bytes) = buffers
        .range((Bound::Excluded(start), Bound::Unbounded))
        .next()?;
    if *from <= end && bytes.len() as u64 <= end - *from {
        return Some(*from);
    }
    None
}
