//! The lines of the strings of a table.
ghost use Rattle.std.specs.Prelude.{OnOk};
ghost use Rattle.std.specs.Io.KnownBytes.{Appends};
ghost use Rattle.elf_records.specs.StringTable.{strings_view};
ghost use Rattle.elfshow_lines.specs.Adding.{Adds};
ghost use Rattle.elfshow_lines.specs.Counted.{counted_lines};
ghost use Rattle.elfshow_lines.specs.Strings.{string_line, strings_of};

use crate::counted::write_end;
use crate::line_buffer::LineBuffer;
use elf_parts::string_table::StringTable;
use std::io;
use std::io::Write;

/// Writes the lines of the strings of a table, in order, up to the first offset at which no string can be
/// read, and their number.
pub fn write_strings<W: Write>(strings: StringTable<'_>, out: &mut W) -> io::Result<()>
    ensures { OnOk result (Appends (W.contents out.old) (W.contents out.new)
        (counted_lines string_line (strings_of (strings_view strings.entry)))) }
{
    let mut lines = LineBuffer::empty();
    let mut offset = 0;
    let mut count = 0;
    while let Ok(string) = strings.get_raw(offset) {
        add_string(offset, string, &mut lines, out);
        if lines.has_failed() {
            return lines.end(out);
        }
        offset += string.len() + 1;
        count += 1;
    }
    lines.end(out)?;
    write_end(count, out)
}

fn add_string<W: Write>(offset: usize, string: &[u8], lines: &mut LineBuffer, out: &mut W)
    ensures { Adds (W.contents out.old) lines.old (W.contents out.new) lines.new
        (string_line 0 (offset, string.now)) }
{
    lines.decimal("string ", offset as u64, out);
    lines.escaped_text(" name=", string, out);
    lines.text("\n", out);
}
