//! The lines of dynamic entries.
ghost use Rattle.elfshow_lines.specs.Dynamic.{dyn_line};

use crate::counted::Line;
use crate::line_buffer::LineBuffer;
use elf_parts::dynamic::Dyn;
use std::io;
use std::io::Write;

/// The line of a dynamic entry.
#[derive(Clone, Copy)]
pub struct DynLine;

impl Line for DynLine {
    type Item = Dyn;

    ghost line = { λ by. dyn_line };

    fn add_line<W: Write>(&self, k: u64, entry: &Dyn, lines: &mut LineBuffer, out: &mut W) {
        lines.decimal("dyn ", k, out);
        lines.signed(" tag=", entry.d_tag, out);
        lines.hex(" value=", entry.d_val(), out);
        lines.text("\n", out);
    }
}
