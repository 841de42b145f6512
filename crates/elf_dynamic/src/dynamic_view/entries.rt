//! Dynamic entries, and their values by tag.
ghost use Rattle.std.specs.Prelude.{◌≡◌, IfErr, None};
ghost use Rattle.std.specs.Iterator.{YieldsFirst, item_count};
ghost use Rattle.std.specs.List.{last_or};
ghost use Rattle.std.specs.Option.{option_map};
ghost use Rattle.elf.specs.Parts.{loaded};
ghost use Rattle.elf_dynamic.specs.dynamic_view.Entries.{IsPlainError, dynamic_table, entries_in, entry_size, required};
ghost use Rattle.elf_dynamic.specs.dynamic_view.Entries.{value_of, values_left, values_of};
ghost use Rattle.elf_records.specs.Dynamic.{has_tag};
ghost use Rattle.elf_records.specs.Number.{ok_map};
ghost use Rattle.elf_records.specs.Table.{table_view};

use crate::dynamic_view::error::DynamicError;
use elf::abi;
use elf::dynamic::{Dyn, DynamicTable};
use elf::endian::EndianParse;
use elf::reader::{Reader, segment_dynamic};
use elf::segment::ProgramHeader;
use elf_parts::parse::ParsingIterator;

/// Returns whether the entry has a tag, one of `DT_*`.
pub fn has_tag(entry: &Dyn, tag: i64) -> bool
    ensures { result ≡ has_tag tag entry.now }
{
    entry.d_tag == tag
}

/// Returns the table of dynamic entries of the first segment of type `PT_DYNAMIC`, or `None` if there is none. The
/// functions of this module take its entries up to the first with the tag `DT_NULL`.
///
/// Errors: `Read` if its bytes cannot be read, `Missing` if they lie in the file and are not loaded.
pub fn dynamic_table<'f, E: EndianParse, R: Reader<E>>(
    file: &'f R,
) -> Result<Option<DynamicTable<'f, E>>, DynamicError>
    ensures value { ok_map (option_map table_view) result
        ≡ dynamic_table (loaded (R.file file.now) (R.ranges file.now)) }
    ensures plain { IfErr result IsPlainError }
{
    match file.first_segment_of(abi::PT_DYNAMIC) {
        Some(segment) => Ok(Some(segment_dynamic(file, &segment)?)),
        None => Ok(None),
    }
}

/// The values of the dynamic entries with one tag, in order. After its first `None` it keeps returning `None`.
#[derive(Debug, Drop)]
pub struct TagValues<'data, E: EndianParse> {
    entries: ParsingIterator<'data, E, Dyn>,
    tag: i64,
    ended: bool,
}

impl<'data, E: EndianParse> Iterator for TagValues<'data, E> {
    type Item = u64;

    ghost next_gives = { YieldsFirst values_left };

    ghost remaining = { item_count values_left };

    #[tactic(auto, using(crate::proofs::Walking::walk_steps))]
    fn next(&mut self) -> Option<u64> {
        if self.ended {
            return None;
        }
        while let Some(entry) = self.entries.next() {
            if has_tag(&entry, abi::DT_NULL) {
                self.ended = true;
                return None;
            }
            if has_tag(&entry, self.tag) {
                return Some(entry.d_val());
            }
        }
        None
    }
}

/// Returns the values of the entries with a tag, one of `DT_*`, in order, as of `DT_NEEDED`.
pub fn values<'data, E: EndianParse>(
    entries: &DynamicTable<'data, E>,
    tag: i64,
) -> TagValues<'data, E>
    ensures { values_left result ≡ values_of tag (entries_in (table_view entries.now)) }
{
    TagValues {
        entries: entries.iter(),
        tag,
        ended: false,
    }
}

// The last of some values.
fn last_of<E: EndianParse>(values: TagValues<'_, E>) -> Option<u64>
    ensures { result ≡ last_or None (values_left values.entry) }
{
    values.last()
}

/// Returns the value of a tag, one of `DT_*`, or `None` if no entry has it. Of several entries with a tag that only one
/// should have the last counts, as for the dynamic linkers of GNU and musl.
pub fn value<E: EndianParse>(entries: &DynamicTable<'_, E>, tag: i64) -> Option<u64>
    ensures { result ≡ value_of tag (entries_in (table_view entries.now)) }
{
    last_of(values(entries, tag))
}

/// Returns the value of a tag in copied entries, as `value` does in a table. The caller ends them before `DT_NULL`.
pub fn value_in(entries: &[Dyn], tag: i64) -> Option<u64>
    ensures { result ≡ value_of tag entries.now }
{
    let mut last = None;
    for entry in entries {
        if has_tag(entry, tag) {
            last = Some(entry.d_val());
        }
    }
    last
}

/// Returns the value of a tag that some entry has to have, as `value` does. The error is `NoEntry(tag)`, if none has it.
pub fn required<E: EndianParse>(
    entries: &DynamicTable<'_, E>,
    tag: i64,
) -> Result<u64, DynamicError>
    ensures value { result ≡ required tag (entries_in (table_view entries.now)) }
    ensures plain { IfErr result IsPlainError }
{
    value(entries, tag).ok_or(DynamicError::NoEntry(tag))
}

// The size of a record that an entry gives, if it is the one of the file's class.
pub(crate) fn entry_size<E: EndianParse>(
    entries: &DynamicTable<'_, E>,
    tag: i64,
    expected: u64,
) -> Result<u64, DynamicError>
    ensures value { result ≡ entry_size tag expected (entries_in (table_view entries.now)) }
    ensures plain { IfErr result IsPlainError }
{
    let found = required(entries, tag)?;
    if found == expected {
        Ok(expected)
    } else {
        Err(DynamicError::EntrySize(tag, found, expected))
    }
}
