//! The lines of section headers.
ghost use Rattle.std.specs.Prelude.{codes, OnOk};
ghost use Rattle.std.specs.Fmt.{decimal};
ghost use Rattle.elfshow_lines.specs.Pieces.{◌⧺◌};
ghost use Rattle.std.specs.Io.KnownBytes.{Appends};
ghost use Rattle.elfshow_lines.specs.Adding.{Adds};
ghost use Rattle.elfshow_lines.specs.Sections.{found_line, place_fields, reading_fields, section_fields, section_line};

use crate::counted::Line;
use crate::line_buffer::LineBuffer;
use crate::name::add_name;
use elf_parts::section::SectionHeader;
use elf_parts::string_table::TerminatedStrings;
use std::io;
use std::io::Write;

/// The line of a section, with its name in these strings, if there are any.
#[derive(Drop)]
pub struct SectionLine<'a> {
    pub names: Option<TerminatedStrings<'a>>,
}

impl Line for SectionLine<'_> {
    type Item = SectionHeader;

    ghost line = { λ by. section_line by.names };

    fn add_line<W: Write>(
        &self,
        k: u64,
        section: &SectionHeader,
        lines: &mut LineBuffer,
        out: &mut W,
    ) {
        lines.decimal("section ", k, out);
        add_name(&self.names, section.sh_name, lines, out);
        lines.text(" ", out);
        add_section_fields(section, lines, out);
        lines.text("\n", out);
    }
}

/// Adds the fields of a section header.
fn add_section_fields<W: Write>(section: &SectionHeader, lines: &mut LineBuffer, out: &mut W)
    ensures { Adds (W.contents out.old) lines.old (W.contents out.new) lines.new
        (section_fields section.now) }
{
    add_place_fields(section, lines, out);
    add_reading_fields(section, lines, out);
}

#[tactic(auto, unfolding(crate::specs::Sections::place_fields))]
fn add_place_fields<W: Write>(section: &SectionHeader, lines: &mut LineBuffer, out: &mut W)
    ensures { Adds (W.contents out.old) lines.old (W.contents out.new) lines.new
        (place_fields section.now) }
{
    let SectionHeader {
        sh_name,
        sh_type,
        sh_flags,
        sh_addr,
        sh_offset,
        sh_size,
        ..
    } = *section;
    lines.decimal("nameoff=", sh_name as u64, out);
    lines.decimal(" type=", sh_type as u64, out);
    lines.hex(" flags=", sh_flags, out);
    lines.hex(" addr=", sh_addr, out);
    add_range(sh_offset, sh_size, lines, out);
}

fn add_range<W: Write>(sh_offset: u64, sh_size: u64, lines: &mut LineBuffer, out: &mut W)
    ensures { Adds (W.contents out.old) lines.old (W.contents out.new) lines.new
        (codes " offset=" ⧺ decimal sh_offset ⧺ codes " size=" ⧺ decimal sh_size) }
{
    lines.decimal(" offset=", sh_offset, out);
    lines.decimal(" size=", sh_size, out);
}

#[tactic(auto, unfolding(crate::specs::Sections::reading_fields))]
fn add_reading_fields<W: Write>(section: &SectionHeader, lines: &mut LineBuffer, out: &mut W)
    ensures { Adds (W.contents out.old) lines.old (W.contents out.new) lines.new
        (reading_fields section.now) }
{
    let SectionHeader {
        sh_link,
        sh_info,
        sh_addralign,
        sh_entsize,
        ..
    } = *section;
    lines.decimal(" link=", sh_link as u64, out);
    lines.decimal(" info=", sh_info as u64, out);
    lines.decimal(" align=", sh_addralign, out);
    lines.decimal(" entsize=", sh_entsize, out);
}

/// Writes the line of a section that was looked up by name.
pub fn write_found<W: Write>(section: &SectionHeader, out: &mut W) -> io::Result<()>
    ensures { OnOk result (Appends (W.contents out.old) (W.contents out.new) (found_line section.now)) }
{
    let mut lines = LineBuffer::empty();
    lines.text("found ", out);
    add_section_fields(section, &mut lines, out);
    lines.text("\n", out);
    lines.end(out)
}
