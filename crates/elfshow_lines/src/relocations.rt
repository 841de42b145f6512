//! The lines of relocations.
ghost use Rattle.std.specs.Prelude.{codes};
ghost use Rattle.std.specs.Fmt.{decimal};
ghost use Rattle.elfshow_lines.specs.Pieces.{◌⧺◌, hex};
ghost use Rattle.elfshow_lines.specs.Adding.{Adds};
ghost use Rattle.elfshow_lines.specs.Relocations.{rel_line, rela_line};

use crate::counted::Line;
use crate::line_buffer::LineBuffer;
use elf_parts::relocation::{Rel, Rela};
use std::io;
use std::io::Write;

/// The line of a relocation without an addend.
#[derive(Clone, Copy)]
pub struct RelLine;

impl Line for RelLine {
    type Item = Rel;

    ghost line = { λ by. rel_line };

    fn add_line<W: Write>(&self, k: u64, rel: &Rel, lines: &mut LineBuffer, out: &mut W) {
        let Rel {
            r_offset,
            r_sym,
            r_type,
        } = *rel;
        lines.decimal("rel ", k, out);
        add_relocation_fields(r_offset, r_sym, r_type, lines, out);
        lines.text("\n", out);
    }
}

/// The line of a relocation with an addend.
#[derive(Clone, Copy)]
pub struct RelaLine;

impl Line for RelaLine {
    type Item = Rela;

    ghost line = { λ by. rela_line };

    fn add_line<W: Write>(&self, k: u64, rela: &Rela, lines: &mut LineBuffer, out: &mut W) {
        let Rela {
            r_offset,
            r_sym,
            r_type,
            r_addend,
        } = *rela;
        lines.decimal("rela ", k, out);
        add_relocation_fields(r_offset, r_sym, r_type, lines, out);
        lines.signed(" addend=", r_addend, out);
        lines.text("\n", out);
    }
}

// Adds the fields that both kinds of relocations have.
fn add_relocation_fields<W: Write>(
    r_offset: u64,
    r_sym: u32,
    r_type: u32,
    lines: &mut LineBuffer,
    out: &mut W,
)
    ensures { Adds (W.contents out.old) lines.old (W.contents out.new) lines.new
        (codes " offset=" ⧺ hex r_offset ⧺ codes " sym=" ⧺ decimal r_sym ⧺ codes " type=" ⧺ decimal r_type) }
{
    lines.hex(" offset=", r_offset, out);
    lines.decimal(" sym=", r_sym as u64, out);
    lines.decimal(" type=", r_type as u64, out);
}
