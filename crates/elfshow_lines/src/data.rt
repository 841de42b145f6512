//! The line of the bytes of a section or a segment.
ghost use Rattle.std.specs.Prelude.{OnOk};
ghost use Rattle.std.specs.Option.{option_map};
ghost use Rattle.std.specs.Io.KnownBytes.{Appends};
ghost use Rattle.elfshow_lines.specs.Adding.{Adds};
ghost use Rattle.elfshow_lines.specs.Data.{compression_fields, data_fields, section_data_line, segment_data_line};

use crate::line_buffer::LineBuffer;
use elf_parts::compression::CompressionHeader;
use std::io;
use std::io::Write;

/// Writes the line of a section's bytes, and of the compression header before them, if there is one.
pub fn write_section_data<W: Write>(
    bytes: &[u8],
    header: Option<&CompressionHeader>,
    out: &mut W,
) -> io::Result<()>
    ensures { OnOk result (Appends (W.contents out.old) (W.contents out.new)
        (section_data_line bytes.now (option_map (λ header. header.now) header.entry))) }
{
    let mut lines = LineBuffer::empty();
    add_data_fields(bytes, &mut lines, out);
    add_compression_fields(header, &mut lines, out);
    lines.text("\n", out);
    lines.end(out)
}

/// Writes the line of a segment's bytes.
pub fn write_segment_data<W: Write>(bytes: &[u8], out: &mut W) -> io::Result<()>
    ensures { OnOk result (Appends (W.contents out.old) (W.contents out.new) (segment_data_line bytes.now)) }
{
    let mut lines = LineBuffer::empty();
    add_data_fields(bytes, &mut lines, out);
    lines.text("\n", out);
    lines.end(out)
}

fn add_data_fields<W: Write>(bytes: &[u8], lines: &mut LineBuffer, out: &mut W)
    ensures { Adds (W.contents out.old) lines.old (W.contents out.new) lines.new
        (data_fields bytes.now) }
{
    lines.decimal("data size=", bytes.len() as u64, out);
    lines.bytes(" hex=", bytes, out);
}

fn add_compression_fields<W: Write>(
    header: Option<&CompressionHeader>,
    lines: &mut LineBuffer,
    out: &mut W,
)
    ensures { Adds (W.contents out.old) lines.old (W.contents out.new) lines.new
        (compression_fields (option_map (λ header. header.now) header.entry)) }
{
    let Some(header) = header else {
        return;
    };
    let CompressionHeader {
        ch_type,
        ch_size,
        ch_addralign,
    } = *header;
    lines.decimal(" chtype=", ch_type as u64, out);
    lines.decimal(" chsize=", ch_size, out);
    lines.decimal(" chalign=", ch_addralign, out);
}
