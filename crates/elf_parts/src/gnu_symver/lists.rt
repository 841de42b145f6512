//! Iterators over the entries of the version sections and over their auxiliary entries (GNU symbol versioning).
ghost use Rattle.std.specs.Prelude.{◌≡◌, ◌≤◌, length, IfSome};
ghost use Rattle.std.specs.Iterator.{YieldsFirst, YieldsFirstBy, item_count};
ghost use Rattle.elf_records.specs.Table.{table_in};
ghost use Rattle.elf_parts.specs.gnu_symver.Lists.{aux_left, aux_records, aux_view};
ghost use Rattle.elf_parts.specs.gnu_symver.Lists.{entries_in, entries_left, entry_view, links_entry};
ghost use Rattle.elf_parts.specs.gnu_symver.Links.{links_view};

use super::links::{Linked, Links, VersionEntry};
use super::records::{VerDef, VerDefAux, VerNeed, VerNeedAux};
use crate::endian::EndianParse;
use crate::file::Class;
use crate::string_table::StringTable;

/// An iterator over the auxiliary entries of one entry: at most the count, up to the one whose next field is 0, and
/// up to the first that cannot be read. After its first `None` it keeps returning `None`.
#[derive(Debug, Drop)]
pub struct AuxIterator<'data, E: EndianParse, A: Linked> {
    links: Links<'data, E, A>,
}

/// The versions that are needed of one file.
pub type VerNeedAuxIterator<'data, E> = AuxIterator<'data, E, VerNeedAux>;

/// The names of one version.
pub type VerDefAuxIterator<'data, E> = AuxIterator<'data, E, VerDefAux>;

impl<'data, E: EndianParse, A: Linked> AuxIterator<'data, E, A> {
    /// Returns the entries that are linked from the one at `starting_offset`, in bytes: at most `count`, and at most as
    /// many as the data have bytes.
    #[tactic(auto, using(crate::proofs::LinkedRecords::map_bounds))]
    pub fn new(
        endian: E,
        class: Class,
        count: u16,
        starting_offset: usize,
        data: &'data [u8],
    ) -> Self
        ensures items { aux_left A.reads.record_at A.next_distance result
            ≡ aux_records A.reads.record_at A.next_distance (table_in (E.little endian) class «data».now) count
            starting_offset }
        ensures view { aux_view result ≡ table_in (E.little endian) class «data».now }
        ensures few { length (aux_left A.reads.record_at A.next_distance result) ≤ length «data».now }
        ensures most { length (aux_left A.reads.record_at A.next_distance result) ≤ count }
    {
        AuxIterator {
            links: Links::new(
                endian.is_little(),
                class,
                count as u64,
                starting_offset,
                data,
            ),
        }
    }
}

impl<'data, E: EndianParse, A: Linked> Iterator for AuxIterator<'data, E, A> {
    type Item = A;

    ghost next_gives = { YieldsFirst (aux_left A.reads.record_at A.next_distance) };

    ghost remaining = { item_count (aux_left A.reads.record_at A.next_distance) };

    #[inline(always)]
    fn next(&mut self) -> Option<A> {
        let (_, record) = self.links.next()?;
        Some(record)
    }
}

/// An iterator over the entries of a version section, each with its auxiliary entries: at most the count, up to the
/// one whose next field is 0, and up to the first that cannot be read. After its first `None` it keeps returning
/// `None`.
#[derive(Debug)]
#[derive_where(Clone, Copy)]
pub struct EntryIterator<'data, E: EndianParse, V: VersionEntry> {
    links: Links<'data, E, V>,
}

/// The needs, each with the versions that are needed of its file.
pub type VerNeedIterator<'data, E> = EntryIterator<'data, E, VerNeed>;

/// The definitions, each with its names.
pub type VerDefIterator<'data, E> = EntryIterator<'data, E, VerDef>;

/// The entries of a version section, and the strings that their names lie in.
pub type EntriesWithStrings<'data, E, V> = (EntryIterator<'data, E, V>, StringTable<'data>);

impl<'data, E: EndianParse, V: VersionEntry> EntryIterator<'data, E, V> {
    /// Returns the entries that are linked from the one at `starting_offset`, in bytes: at most `count`, and at most as
    /// many as the data have bytes.
    #[tactic(auto, using(crate::proofs::LinkedRecords::map_bounds))]
    pub fn new(
        endian: E,
        class: Class,
        count: u64,
        starting_offset: usize,
        data: &'data [u8],
    ) -> Self
        ensures items { entries_left V.reads.record_at V.next_distance V.with_aux result
            ≡ entries_in V.reads.record_at V.next_distance V.with_aux (table_in (E.little endian) class «data».now)
            count starting_offset }
        ensures few { length (entries_left V.reads.record_at V.next_distance V.with_aux result) ≤ length «data».now }
        ensures most { length (entries_left V.reads.record_at V.next_distance V.with_aux result) ≤ count }
    {
        EntryIterator {
            links: Links::new(endian.is_little(), class, count, starting_offset, data),
        }
    }

    /// The length of the data, in bytes.
    pub(super) fn data_len(&self) -> usize
        ensures { result ≡ length (links_view self.now.links).bytes }
    {
        self.links.data_len()
    }

    /// The next entry, with the links to its auxiliary entries, which lie in the same data.
    #[inline(always)]
    pub(super) fn next_links(&mut self) -> Option<(V, Links<'data, E, V::Aux>)>
        ensures steps { YieldsFirstBy (links_entry V.Aux.reads.record_at V.Aux.next_distance)
            (entries_left V.reads.record_at V.next_distance V.with_aux) self.old result self.new }
        ensures view { links_view self.new.links ≡ links_view self.old.links }
        ensures data { IfSome result (λ item. links_view item.1 ≡ links_view self.old.links) }
    {
        let (start, entry) = self.links.next()?;
        let links = entry.aux(&self.links, start);
        Some((entry, links))
    }
}

impl<'data, E: EndianParse, V: VersionEntry> Iterator for EntryIterator<'data, E, V> {
    type Item = (V, AuxIterator<'data, E, V::Aux>);

    ghost next_gives = { YieldsFirstBy (entry_view V.Aux.reads.record_at V.Aux.next_distance)
        (entries_left V.reads.record_at V.next_distance V.with_aux) };

    ghost remaining = { item_count (entries_left V.reads.record_at V.next_distance V.with_aux) };

    #[inline(always)]
    fn next(&mut self) -> Option<(V, AuxIterator<'data, E, V::Aux>)> {
        let (entry, links) = self.next_links()?;
        Some((entry, AuxIterator { links }))
    }
}
