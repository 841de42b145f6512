//! The check of linked records.
ghost use Rattle.std.specs.Prelude.{◌≡◌, ◌≤◌, ◌↔◌, ℕ, List, length, IsTrue, MatchOption};
ghost use Rattle.elf_records.specs.StringTable.{strings_view};
ghost use Rattle.elf_records.specs.Table.{Table};
ghost use Rattle.elf_parts.specs.gnu_symver.Links.{links_left, links_view};
ghost use Rattle.elf_check.specs.Chains.{IsTrueOfChain, SoundChain, total_extent};

use crate::faults::ChainFault;
use elf::endian::EndianParse;
use elf::gnu_symver::links::{Linked, Links};
use elf::string_table::StringTable;

/// A linked record that can be sound.
pub(crate) trait Checkable: Linked + Drop {
    // Whether a record that begins at an offset of some bytes is sound, by the strings that it names.
    ghost sound: { List ℕ → Table → ℕ × Self → Type 0 };

    /// Whether this record, whose own start is the offset `start`, in bytes, is sound.
    fn is_sound<E: EndianParse>(
        &self,
        start: usize,
        links: &Links<'_, E, Self>,
        strings: &StringTable<'_>,
    ) -> bool
        ensures { IsTrue result ↔ sound (strings_view strings.now) (links_view links.now) (start, self.now) };
}

/// An entry of a version section: a record that declares auxiliary records.
pub(crate) trait Entry: Checkable {
    // How many bytes they take.
    ghost extent: { Self → ℕ };

    /// How many bytes the auxiliary records that this record declares take.
    fn extent(&self) -> u64
        ensures { result ≡ extent self.now };
}

// Whether the auxiliary records of these linked records take at most `limit` bytes.
pub(crate) fn do_fit<E: EndianParse, R: Entry>(links: Links<'_, E, R>, limit: u64) -> bool
    ensures { IsTrue result ↔ (total_extent R.extent (links_left R.reads.record_at R.next_distance links.entry) ≤
        limit) }
{
    let mut room = limit;
    for (_, record) in links {
        let extent = record.extent();
        if extent > room {
            return false;
        }
        room -= extent;
    }
    true
}

// What these linked records lack, if `count` of them are declared.
pub(crate) fn chain_fault<E: EndianParse, R: Checkable>(
    links: Links<'_, E, R>,
    count: u64,
    strings: &StringTable<'_>,
) -> Option<ChainFault>
    requires { length (links_left R.reads.record_at R.next_distance links) ≤ count }
    ensures { let list = links_left R.reads.record_at R.next_distance links.entry in
        let sound = R.sound (strings_view strings.now) (links_view links.entry) in
        MatchOption result (SoundChain R.next_distance sound count list) (IsTrueOfChain R.next_distance sound count
        list) }
{
    let mut found = 0;
    let mut distance = 0;
    for (start, record) in links {
        if !record.is_sound(start, &links, strings) {
            return Some(ChainFault::At { index: found });
        }
        distance = record.distance();
        found += 1;
    }
    if found < count {
        Some(ChainFault::Short { found })
    } else if distance != 0 {
        Some(ChainFault::NotLast)
    } else {
        None
    }
}
