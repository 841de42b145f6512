//! The lines of program headers.
ghost use Rattle.elfshow_lines.specs.Adding.{Adds};
ghost use Rattle.elfshow_lines.specs.Segments.{segment_line, segment_places, segment_sizes};

use crate::counted::Line;
use crate::line_buffer::LineBuffer;
use elf_parts::segment::ProgramHeader;
use std::io;
use std::io::Write;

/// The line of a segment.
#[derive(Clone, Copy)]
pub struct SegmentLine;

impl Line for SegmentLine {
    type Item = ProgramHeader;

    ghost line = { λ by. segment_line };

    fn add_line<W: Write>(
        &self,
        k: u64,
        segment: &ProgramHeader,
        lines: &mut LineBuffer,
        out: &mut W,
    ) {
        lines.decimal("segment ", k, out);
        add_segment_places(segment, lines, out);
        add_segment_sizes(segment, lines, out);
        lines.text("\n", out);
    }
}

#[tactic(auto, unfolding(crate::specs::Segments::segment_places))]
fn add_segment_places<W: Write>(segment: &ProgramHeader, lines: &mut LineBuffer, out: &mut W)
    ensures { Adds (W.contents out.old) lines.old (W.contents out.new) lines.new
        (segment_places segment.now) }
{
    let ProgramHeader {
        p_type,
        p_flags,
        p_offset,
        p_vaddr,
        p_paddr,
        ..
    } = *segment;
    lines.decimal(" type=", p_type as u64, out);
    lines.hex(" flags=", p_flags as u64, out);
    lines.decimal(" offset=", p_offset, out);
    lines.hex(" vaddr=", p_vaddr, out);
    lines.hex(" paddr=", p_paddr, out);
}

#[tactic(auto, unfolding(crate::specs::Segments::segment_sizes))]
fn add_segment_sizes<W: Write>(segment: &ProgramHeader, lines: &mut LineBuffer, out: &mut W)
    ensures { Adds (W.contents out.old) lines.old (W.contents out.new) lines.new
        (segment_sizes segment.now) }
{
    let ProgramHeader {
        p_filesz,
        p_memsz,
        p_align,
        ..
    } = *segment;
    lines.decimal(" filesz=", p_filesz, out);
    lines.decimal(" memsz=", p_memsz, out);
    lines.decimal(" align=", p_align, out);
}
