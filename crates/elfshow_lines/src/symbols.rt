//! The lines of symbols.
ghost use Rattle.elfshow_lines.specs.Symbols.{symbol_fields, symbol_line};
ghost use Rattle.elfshow_lines.specs.Adding.{Adds};

use crate::counted::Line;
use crate::line_buffer::LineBuffer;
use crate::name::add_name_in;
use elf_parts::string_table::TerminatedStrings;
use elf_parts::symbol::Symbol;
use std::io;
use std::io::Write;

/// The line of a symbol, with its name in these strings.
#[derive(Drop)]
pub struct SymbolLine<'a> {
    pub strings: TerminatedStrings<'a>,
}

impl Line for SymbolLine<'_> {
    type Item = Symbol;

    ghost line = { λ by. symbol_line by.strings };

    fn add_line<W: Write>(&self, k: u64, symbol: &Symbol, lines: &mut LineBuffer, out: &mut W) {
        lines.decimal("symbol ", k, out);
        add_name_in(&self.strings, symbol.st_name, lines, out);
        add_symbol_fields(symbol, lines, out);
        lines.text("\n", out);
    }
}

#[tactic(auto, unfolding(crate::specs::Symbols::symbol_fields))]
fn add_symbol_fields<W: Write>(symbol: &Symbol, lines: &mut LineBuffer, out: &mut W)
    ensures { Adds (W.contents out.old) lines.old (W.contents out.new) lines.new
        (symbol_fields symbol.now) }
{
    lines.hex(" value=", symbol.st_value, out);
    lines.decimal(" size=", symbol.st_size, out);
    lines.decimal(" bind=", symbol.st_bind() as u64, out);
    lines.decimal(" type=", symbol.st_symtype() as u64, out);
    lines.decimal(" other=", symbol.st_vis() as u64, out);
    lines.decimal(" shndx=", symbol.st_shndx as u64, out);
}
