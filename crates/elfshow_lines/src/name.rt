//! The name of an item.
ghost use Rattle.std.specs.Prelude.{codes};
ghost use Rattle.elf_records.specs.StringTable.{string_at};
ghost use Rattle.elfshow_lines.specs.Pieces.{◌⧺◌};
ghost use Rattle.elfshow_lines.specs.Name.{name_field, name_read};
ghost use Rattle.elfshow_lines.specs.Adding.{Adds};

use crate::line_buffer::LineBuffer;
use elf_parts::string_table::TerminatedStrings;
use std::io;
use std::io::Write;

/// Adds the name field of an item whose name is at this offset in bytes, after a space. Without strings it is
/// `noname`.
pub fn add_name<W: Write>(
    names: &Option<TerminatedStrings<'_>>,
    offset: u32,
    lines: &mut LineBuffer,
    out: &mut W,
)
    ensures { Adds (W.contents out.old) lines.old (W.contents out.new) lines.new
        (codes " " ⧺ name_field names.now offset) }
{
    match names {
        Some(names) => add_name_in(names, offset, lines, out),
        None => lines.text(" noname", out),
    }
}

/// Adds the name of an item whose strings are known to exist.
pub fn add_name_in<W: Write>(
    names: &TerminatedStrings<'_>,
    offset: u32,
    lines: &mut LineBuffer,
    out: &mut W,
)
    ensures { Adds (W.contents out.old) lines.old (W.contents out.new) lines.new
        (codes " " ⧺ name_read (string_at names.now offset)) }
{
    match names.get_raw(offset as usize) {
        Ok(name) => lines.escaped_text(" name=", name, out),
        Err(_) => lines.text(" badname", out),
    }
}
