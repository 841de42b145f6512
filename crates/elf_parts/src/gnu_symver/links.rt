//! Linked records, and the one iterator over them on which all version iterators are built.
ghost use Rattle.std.specs.Prelude.{◌≡◌, ◌≤◌, ◌+◌, ◌-◌, ℕ, List, length, ⊤};
ghost use Rattle.std.specs.Iterator.{YieldsFirst, item_count};
ghost use Rattle.elf_parts.specs.Link.{from_next};
ghost use Rattle.elf_parts.specs.gnu_symver.Links.{links_in, links_left, links_view, next_start};
ghost use Rattle.elf_parts.specs.gnu_symver.Links.{front_then, records_of};
ghost use Rattle.elf_records.specs.Table.{Table, table_in};

use crate::endian::EndianParse;
use crate::file::Class;
use crate::parse::{ParseAt, read_quickly, read_record};
use std::alloc::AllocError;
use std::marker::PhantomData;

/// A record that states the distance from its own start to the start of the next record.
pub trait Linked: ParseAt {
    // How many bytes after its start the next record begins; 0 if there is none.
    ghost next_distance: { Self → ℕ };

    /// Returns the distance to the next record, in bytes; 0 if this record is the last one.
    fn distance(&self) -> u32
        ensures { result ≡ next_distance self.now };
}

/// An entry of a version section: a record to which auxiliary entries are linked.
pub trait VersionEntry: Linked {
    type Aux: Linked;

    // An entry from its offset on, with its auxiliary entries.
    ghost with_aux: { Table → ℕ × Self → Self × List Self.Aux };

    /// Returns the auxiliary entries of this entry, whose own start is the offset `start`, in bytes.
    fn aux<'data, E: EndianParse>(
        &self,
        entries: &Links<'data, E, Self>,
        start: usize,
    ) -> Links<'data, E, Self::Aux>
        ensures entries { (self.now, records_of (links_left Self.Aux.reads.record_at Self.Aux.next_distance result))
            ≡ with_aux (links_view entries.now) (start, self.now) }
        ensures view { links_view result ≡ links_view entries.now };
}

// Where the record `distance` bytes after `start` begins, if there is one.
fn next_start(start: usize, distance: u32) -> Option<usize>
    ensures { result ≡ next_start start distance }
{
    if distance == 0 {
        return None;
    }
    start.checked_add(distance as usize)
}

/// An iterator over linked records, each with the offset of its start, in bytes.
#[derive(Debug)]
#[derive_where(Copy)]
pub struct Links<'data, E: EndianParse, R: Linked> {
    little: bool,
    class: Class,
    count: u64,
    data: &'data [u8],
    offset: usize,
    order: PhantomData<E>,
    records: PhantomData<R>,
}

// A derived `Clone` would clone field by field, and be slower to prove.
impl<'data, E: EndianParse, R: Linked> Clone for Links<'data, E, R> {
    ghost is_clone = { λ x y. y ≡ x };

    ghost is_infallible = { λ _. ⊤ };

    fn clone(&self) -> Result<Self, AllocError> {
        Ok(*self)
    }
}

impl<'data, E: EndianParse, R: Linked> Links<'data, E, R> {
    /// Returns the records that are linked from the one at `offset`, in bytes: at most `count`, and at most as many as
    /// the data have bytes.
    #[tactic(auto, using(crate::proofs::LinkedRecords::count_bounds))]
    pub fn new(little: bool, class: Class, count: u64, offset: usize, data: &'data [u8]) -> Self
        ensures items { links_left R.reads.record_at R.next_distance result
            ≡ links_in R.reads.record_at R.next_distance (table_in little class «data».now) count offset }
        ensures view { links_view result ≡ table_in little class «data».now }
        ensures few { length (links_left R.reads.record_at R.next_distance result) ≤ length «data».now }
        ensures most { length (links_left R.reads.record_at R.next_distance result) ≤ count }
    {
        Links {
            little,
            class,
            count,
            data,
            offset,
            order: PhantomData,
            records: PhantomData,
        }
    }

    /// Returns the records of another type that are linked from the one `distance` bytes after `start`: at most
    /// `count`.
    pub fn aux<A: Linked>(&self, start: usize, count: u16, distance: u32) -> Links<'data, E, A>
        ensures items { links_left A.reads.record_at A.next_distance result
            ≡ links_in A.reads.record_at A.next_distance (links_view self.now) count (start + distance) }
        ensures view { links_view result ≡ links_view self.now }
    {
        // No record begins at the end of the data or after it.
        let offset = start.saturating_add(distance as usize).min(self.data.len());
        Links::new(self.little, self.class, count as u64, offset, self.data)
    }

    /// Returns the offset of the next record, in bytes.
    pub fn offset(&self) -> usize
        ensures { result ≡ self.now.offset }
    {
        self.offset
    }

    /// How many records are left at most.
    pub fn limit(&self) -> u64
        ensures { result ≡ self.now.count }
    {
        self.count
    }

    /// Returns the length of the data, in bytes.
    pub fn data_len(&self) -> usize
        ensures { result ≡ length (links_view self.now).bytes }
    {
        self.data.len()
    }

    /// Goes on to the record at `offset`, which is `steps` records further.
    pub fn skip_to(&mut self, offset: usize, steps: u64)
        ensures view { links_view self.new ≡ links_view self.old }
        ensures offset { self.new.offset ≡ offset }
        ensures count { self.new.count ≡ self.old.count - steps }
    {
        self.offset = offset;
        self.count = self.count.saturating_sub(steps);
    }

    // Where the record `distance` bytes after the next one begins, or the end of the data if there is none.
    fn behind(&self, distance: u32) -> usize
        ensures { (n : ℕ) → links_in R.reads.record_at R.next_distance (links_view self.now) n result
            ≡ from_next (next_start self.now.offset distance)
            (links_in R.reads.record_at R.next_distance (links_view self.now) n) }
    {
        match next_start(self.offset, distance) {
            Some(offset) => offset,
            None => self.data.len(),
        }
    }

    /// Reads the next record, whatever the count is, and goes on to the one after it, or to the end of the data if
    /// there is none.
    pub fn step(&mut self) -> Option<R>
        ensures view { links_view self.new ≡ links_view self.old }
        ensures count { self.new.count ≡ self.old.count - 1 }
        ensures items { (n : ℕ) → links_in R.reads.record_at R.next_distance (links_view self.old) n self.old.offset
            ≡ front_then n self.old.offset result
            (links_in R.reads.record_at R.next_distance (links_view self.old) (n - 1) self.new.offset) }
    {
        let mut end = self.offset;
        match read_record::<R>(self.little, self.class, &mut end, self.data) {
            Ok(record) => {
                self.skip_to(self.behind(record.distance()), 1);
                Some(record)
            }
            Err(_) => {
                self.skip_to(self.data.len(), 1);
                None
            }
        }
    }
}

impl<'data, E: EndianParse, R: Linked> Iterator for Links<'data, E, R> {
    type Item = (usize, R);

    ghost next_gives = { λ s r t. YieldsFirst (links_left R.reads.record_at R.next_distance) s r t
        × (links_view t ≡ links_view s) };

    ghost remaining = { item_count (links_left R.reads.record_at R.next_distance) };

    #[inline(always)]
    fn next(&mut self) -> Option<(usize, R)> {
        if self.count == 0 {
            return None;
        }
        let start = self.offset;
        match read_quickly::<R>(self.little, self.class, start, self.data) {
            Some(record) => {
                self.skip_to(self.behind(record.distance()), 1);
                Some((start, record))
            }
            None => {
                self.count = 0;
                None
            }
        }
    }
}
