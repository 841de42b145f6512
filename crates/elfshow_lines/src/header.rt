//! The line of a file header.
ghost use Rattle.std.specs.Prelude.{◌≡◌, codes, OnOk};
ghost use Rattle.std.specs.Fmt.{decimal};
ghost use Rattle.std.specs.Io.KnownBytes.{Appends};
ghost use Rattle.elf_records.specs.Class.{address_bits};
ghost use Rattle.elfshow_lines.specs.Pieces.{◌⧺◌};
ghost use Rattle.elfshow_lines.specs.Adding.{Adds};
ghost use Rattle.elfshow_lines.specs.Header.{file_fields, header_line};
ghost use Rattle.elfshow_lines.specs.Header.{ident_fields, order_name, size_fields};

use crate::line_buffer::LineBuffer;
use elf_parts::endian::EndianParse;
use elf_parts::file::{Class, FileHeader};
use std::io;
use std::io::Write;

/// Writes the line of the file header.
pub fn write_header<E: EndianParse, W: Write>(ehdr: &FileHeader<E>, out: &mut W) -> io::Result<()>
    ensures { OnOk result (Appends (W.contents out.old) (W.contents out.new)
        (header_line (E.little ehdr.now.endianness) ehdr.now)) }
{
    let mut lines = LineBuffer::empty();
    lines.text("header ", out);
    add_ident_fields(ehdr, &mut lines, out);
    add_file_fields(ehdr, &mut lines, out);
    add_size_fields(ehdr, &mut lines, out);
    lines.text("\n", out);
    lines.end(out)
}

#[tactic(auto, unfolding(crate::specs::Header::ident_fields))]
fn add_ident_fields<E: EndianParse, W: Write>(
    ehdr: &FileHeader<E>,
    lines: &mut LineBuffer,
    out: &mut W,
)
    ensures { Adds (W.contents out.old) lines.old (W.contents out.new) lines.new
        (ident_fields (E.little ehdr.now.endianness) ehdr.now) }
{
    let FileHeader {
        class,
        endianness,
        version,
        osabi,
        abiversion,
        ..
    } = *ehdr;
    lines.decimal("class=", class_bits(class) as u64, out);
    lines.text(" order=", out);
    lines.text(order_name(endianness.is_little()), out);
    add_ident_versions(version, osabi, abiversion, lines, out);
}

fn add_ident_versions<W: Write>(
    version: u32,
    osabi: u8,
    abiversion: u8,
    lines: &mut LineBuffer,
    out: &mut W,
)
    ensures { Adds (W.contents out.old) lines.old (W.contents out.new) lines.new
        (codes " version=" ⧺ decimal version ⧺ codes " osabi=" ⧺ decimal osabi
        ⧺ codes " abiversion=" ⧺ decimal abiversion) }
{
    lines.decimal(" version=", version as u64, out);
    lines.decimal(" osabi=", osabi as u64, out);
    lines.decimal(" abiversion=", abiversion as u64, out);
}

fn class_bits(class: Class) -> u8
    ensures { result ≡ address_bits class }
{
    match class {
        Class::ELF32 => 32,
        Class::ELF64 => 64,
    }
}

fn order_name(little: bool) -> &'static str
    ensures { result.now ≡ order_name little }
{
    if little { "little" } else { "big" }
}

#[tactic(auto, unfolding(crate::specs::Header::file_fields))]
fn add_file_fields<E: EndianParse, W: Write>(
    ehdr: &FileHeader<E>,
    lines: &mut LineBuffer,
    out: &mut W,
)
    ensures { Adds (W.contents out.old) lines.old (W.contents out.new) lines.new
        (file_fields ehdr.now) }
{
    let FileHeader {
        e_type,
        e_machine,
        e_entry,
        e_phoff,
        e_shoff,
        e_flags,
        ..
    } = *ehdr;
    lines.decimal(" type=", e_type as u64, out);
    lines.decimal(" machine=", e_machine as u64, out);
    lines.hex(" entry=", e_entry, out);
    add_table_places(e_phoff, e_shoff, lines, out);
    lines.hex(" flags=", e_flags as u64, out);
}

fn add_table_places<W: Write>(e_phoff: u64, e_shoff: u64, lines: &mut LineBuffer, out: &mut W)
    ensures { Adds (W.contents out.old) lines.old (W.contents out.new) lines.new
        (codes " phoff=" ⧺ decimal e_phoff ⧺ codes " shoff=" ⧺ decimal e_shoff) }
{
    lines.decimal(" phoff=", e_phoff, out);
    lines.decimal(" shoff=", e_shoff, out);
}

#[tactic(auto, unfolding(crate::specs::Header::size_fields))]
fn add_size_fields<E: EndianParse, W: Write>(
    ehdr: &FileHeader<E>,
    lines: &mut LineBuffer,
    out: &mut W,
)
    ensures { Adds (W.contents out.old) lines.old (W.contents out.new) lines.new
        (size_fields ehdr.now) }
{
    let FileHeader {
        e_ehsize,
        e_phentsize,
        e_phnum,
        e_shentsize,
        e_shnum,
        e_shstrndx,
        ..
    } = *ehdr;
    lines.decimal(" ehsize=", e_ehsize as u64, out);
    lines.decimal(" phentsize=", e_phentsize as u64, out);
    lines.decimal(" phnum=", e_phnum as u64, out);
    lines.decimal(" shentsize=", e_shentsize as u64, out);
    lines.decimal(" shnum=", e_shnum as u64, out);
    lines.decimal(" shstrndx=", e_shstrndx as u64, out);
}
