//! The dynamic entries of a file that was checked, each with its string.
ghost use Rattle.std.specs.Prelude.{◌≡◌, ◌≤◌, IsTrue, length, take};
ghost use Rattle.std.specs.Iterator.{YieldsFirstBy, item_count};
ghost use Rattle.std.specs.List.{list_all};
ghost use Rattle.std.specs.Option.{option_map};
ghost use Rattle.elf_records.specs.Dynamic.{dyn_reads};
ghost use Rattle.elf_records.specs.StringTable.{strings_view};
ghost use Rattle.elf_records.specs.Table.{table_items, table_view};
ghost use Rattle.elf_check.specs.Dynamic.{before_null, has_its_string, string_of, entries_with_strings};
ghost use Rattle.elf_check.specs.inner.DynamicProps.{SoundRun, SoundRun-prop};

use crate::dynamic::{is_null, names_string};
use crate::relocations::record_below;
use elf::dynamic::{Dyn, DynamicTable};
use elf::endian::EndianParse;
use elf::laws::lists::list_is_what_get_gives;
use elf::laws::tables::iter_gives_len_records;
use elf::string_table::StringTable;

/// The dynamic entries before the first with the tag `DT_NULL`, each with the bytes of the string that it names:
/// `DT_NEEDED`, `DT_SONAME`, `DT_RPATH` and `DT_RUNPATH` name one, and no other entry does. It knows their number. After
/// its first `None` it keeps returning `None`.
#[derive(Debug, Drop)]
pub struct WholeDynamic<'data, E: EndianParse> {
    entries: DynamicTable<'data, E>,
    strings: StringTable<'data>,
    next: usize,
    end: usize,
    ghost sound: { SoundRun (strings_view strings) end (table_items dyn_reads (table_view entries)) } by { SoundRun-prop
        (strings_view strings) end (table_items dyn_reads (table_view entries)) },
}

// The string that an entry names.
fn string_of<'data>(strings: &StringTable<'data>, entry: &Dyn) -> Option<&'data [u8]>
    requires { IsTrue (has_its_string (strings_view strings.now) entry.now) }
    ensures { option_map (λ string. string.now) result ≡ string_of (strings_view strings.now) entry.now }
{
    if names_string(entry) {
        Some(strings.get_raw(entry.d_val() as usize).unwrap())
    } else {
        None
    }
}

// How many entries there are before the first that ends a table.
fn entry_count<E: EndianParse>(table: &DynamicTable<'_, E>) -> usize
    ensures { result ≡ length (before_null (table_items dyn_reads (table_view table.now))) }
{
    table.iter().take_while(|entry| !is_null(entry)).count()
}

impl<'data, E: EndianParse> WholeDynamic<'data, E> {
    ghost use Rattle.elf_check.specs.DynamicViews.{entries_left};

    pub(super) fn new(table: &DynamicTable<'data, E>, strings: StringTable<'data>) -> Self
        requires { IsTrue (list_all (has_its_string (strings_view strings)) (before_null (table_items dyn_reads
            (table_view table.now)))) }
        ensures { entries_left result ≡ entries_with_strings (strings_view strings.entry) (before_null (table_items
            dyn_reads (table_view table.now))) }
    {
        WholeDynamic {
            entries: *table,
            strings,
            next: 0,
            end: entry_count(table),
        }
    }
}

impl<'data, E: EndianParse> Iterator for WholeDynamic<'data, E> {
    type Item = (Dyn, Option<&'data [u8]>);

    ghost use Rattle.elf_check.specs.DynamicViews.{entries_left, entry_view};

    ghost next_gives = { YieldsFirstBy entry_view entries_left };

    ghost remaining = { item_count entries_left };

    fn next(&mut self) -> Option<(Dyn, Option<&'data [u8]>)> {
        list_is_what_get_gives::<Dyn>();
        iter_gives_len_records(&self.entries);
        let _ = self.entries.len();
        if self.next >= self.end {
            return None;
        }
        let entry = record_below(&self.entries, self.next);
        let string = string_of(&self.strings, &entry);
        self.next += 1;
        Some((entry, string))
    }

    fn size_hint(&self) -> (usize, Option<usize>) {
        let left = self.len();
        (left, Some(left))
    }
}

impl<'data, E: EndianParse> ExactSizeIterator for WholeDynamic<'data, E> {
    fn len(&self) -> usize {
        self.end.saturating_sub(self.next)
    }
}
