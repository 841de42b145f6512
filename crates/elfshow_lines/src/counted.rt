//! Lists: a line for each item, and a last line with their number.
ghost use Rattle.std.specs.Prelude.{◌-◌, ◌^◌, ℕ, List, OnOk};
ghost use Rattle.std.specs.Iterator.{Drains, UpTo};
ghost use Rattle.std.specs.Io.KnownBytes.{Appends};
ghost use Rattle.elf_records.specs.Table.{items_left};
ghost use Rattle.elfshow_lines.specs.Counted.{counted_lines, end_line};
ghost use Rattle.elfshow_lines.specs.Adding.{Adds};

use crate::line_buffer::LineBuffer;
use elf_parts::endian::EndianParse;
use elf_parts::laws::tables::few_records_are_left;
use elf_parts::parse::{ParseAt, ParsingIterator};
use std::io;
use std::io::Write;

/// How the items of a list are shown: a line for each, with its number.
pub trait Line {
    type Item;

    ghost line: { Self → ℕ → Self.Item → List ℕ };

    fn add_line<W: Write>(&self, k: u64, item: &Self::Item, lines: &mut LineBuffer, out: &mut W)
        ensures { Adds (W.contents out.old) lines.old (W.contents out.new) lines.new
            (line self.now k item.now) };
}

/// Writes the lines of the items of an iterator, and their number. Stores none of the items.
pub fn write_list<L: Line, I: Iterator<Item = L::Item> + Drop, W: Write>(
    items: I,
    line: &L,
    out: &mut W,
) -> io::Result<()>
where
    L::Item: Drop,
    requires can { I.can_next items }
    requires few { UpTo (I.remaining items) (2 ^ 64 - 1) }
    ensures { OnOk result ((shown : List L.Item) × Drains I.next_gives items shown
        × Appends (W.contents out.old) (W.contents out.new) (counted_lines (L.line line.now) shown)) }
{
    let mut lines = LineBuffer::empty();
    let mut count = 0;
    for item in items {
        line.add_line(count, &item, &mut lines, out);
        if lines.has_failed() {
            return lines.end(out);
        }
        count += 1;
    }
    lines.end(out)?;
    write_end(count, out)
}

/// Writes the lines of the items of a slice, and their number.
pub fn write_slice<L: Line, W: Write>(items: &[L::Item], line: &L, out: &mut W) -> io::Result<()>
    ensures { OnOk result (Appends (W.contents out.old) (W.contents out.new)
        (counted_lines (L.line line.now) items.now)) }
{
    let mut lines = LineBuffer::empty();
    let mut number = 0;
    for item in items {
        line.add_line(number, item, &mut lines, out);
        if lines.has_failed() {
            return lines.end(out);
        }
        number += 1;
    }
    lines.end(out)?;
    write_end(number, out)
}

/// Writes the last line of a list of `count` items.
pub fn write_end<W: Write>(count: u64, out: &mut W) -> io::Result<()>
    ensures { OnOk result (Appends (W.contents out.old) (W.contents out.new) (end_line count)) }
{
    writeln!(out, "end {count}")
}

/// Writes the lines of the records of a table, and their number.
pub fn write_records<E: EndianParse, L: Line, W: Write>(
    records: ParsingIterator<'_, E, L::Item>,
    line: &L,
    out: &mut W,
) -> io::Result<()>
where
    L::Item: ParseAt + Drop,
    ensures { OnOk result (Appends (W.contents out.old) (W.contents out.new)
        (counted_lines (L.line line.now) (items_left L.Item.reads records.entry))) }
{
    few_records_are_left(&records);
    write_list(records, line, out)
}
