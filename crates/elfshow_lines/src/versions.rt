//! The lines of the versions of symbols.
ghost use Rattle.std.specs.Prelude.{OnOk, Ok, Some};
ghost use Rattle.std.specs.Option.{option_map};
ghost use Rattle.std.specs.Io.KnownBytes.{Appends};
ghost use Rattle.elf_parts.specs.gnu_symver.Table.{definition, definition_view, names_left, requirement, versions_view};
ghost use Rattle.elfshow_lines.specs.Versions.{def_field, need_field, needed_texts, text_shown, version_fields};
ghost use Rattle.elfshow_lines.specs.Versions.{version_line, version_name, version_names, versions_listed};
ghost use Rattle.elfshow_lines.specs.Adding.{Adds};

use crate::counted::write_end;
use crate::line_buffer::LineBuffer;
use elf_parts::endian::EndianParse;
use elf_parts::gnu_symver::{
    IndexedVersions, PlacedVersions, SymbolDefinition, SymbolNamesIterator, SymbolRequirement,
    SymbolVersionTable, SymbolVersions,
};
use elf_parts::parse::ParseError;
use std::alloc::Allocator;
use std::io;
use std::io::Write;

// More places than the version indexes of usual libraries need, in some 20 kibibytes.
const PLACES: usize = 256;

/// Where a listing has room to look versions up. The text does not depend on it; what a look-up costs does.
pub trait Room {
    /// Writes the lines of the versions of the first `symbols` symbols, and their number.
    fn write_versions<E: EndianParse, W: Write>(
        &self,
        symbols: usize,
        versions: &SymbolVersionTable<'_, E>,
        out: &mut W,
    ) -> io::Result<()>
        ensures { OnOk result (Appends (W.contents out.old) (W.contents out.new)
            (versions_listed symbols (versions_view versions.now))) };
}

/// Room on the stack alone: places for the version indexes below 256. A version with one of these is looked up without
/// a walk. For any other index each look-up walks, as those of `SymbolVersionTable` do. Allocates no memory.
#[derive(Debug, Drop)]
pub struct StackRoom;

/// Room on the heap: places for all version indexes, so no look-up walks. If an allocation fails, the room is that on
/// the stack.
#[derive(Debug, Drop)]
pub struct HeapRoom<A: Allocator + Copy> {
    pub alloc: A,
}

impl Room for StackRoom {
    // Not inlined, so that only its callers take the stack for the places.
    #[inline(never)]
    fn write_versions<E: EndianParse, W: Write>(
        &self,
        symbols: usize,
        versions: &SymbolVersionTable<'_, E>,
        out: &mut W,
    ) -> io::Result<()> {
        let mut needed = [None; PLACES];
        let mut defined = [None; PLACES];
        let placed = PlacedVersions::new(versions, &mut needed, &mut defined);
        write_lines(symbols, &placed, out)
    }
}

impl<A: Allocator + Copy> Room for HeapRoom<A> {
    fn write_versions<E: EndianParse, W: Write>(
        &self,
        symbols: usize,
        versions: &SymbolVersionTable<'_, E>,
        out: &mut W,
    ) -> io::Result<()> {
        match IndexedVersions::new(self.alloc, versions) {
            Ok(indexed) => write_lines(symbols, &indexed, out),
            Err(_) => StackRoom.write_versions(symbols, versions, out),
        }
    }
}

// Writes the lines of the versions of the first `symbols` symbols, and their number, by any look-up of versions.
fn write_lines<E: EndianParse, V: SymbolVersions<E>, W: Write>(
    symbols: usize,
    versions: &V,
    out: &mut W,
) -> io::Result<()>
    ensures { OnOk result (Appends (W.contents out.old) (W.contents out.new)
        (versions_listed symbols (V.versions versions.now))) }
{
    let mut lines = LineBuffer::empty();
    for symbol in 0..symbols {
        add_version(symbol, versions, &mut lines, out);
        if lines.has_failed() {
            return lines.end(out);
        }
    }
    lines.end(out)?;
    write_end(symbols as u64, out)
}

fn add_version<E: EndianParse, V: SymbolVersions<E>, W: Write>(
    symbol: usize,
    versions: &V,
    lines: &mut LineBuffer,
    out: &mut W,
)
    ensures { Adds (W.contents out.old) lines.old (W.contents out.new) lines.new
        (version_line (V.versions versions.now) symbol) }
{
    lines.decimal("version ", symbol as u64, out);
    lines.text(" ", out);
    add_need(symbol, versions, lines, out);
    lines.text(" ", out);
    add_def(symbol, versions, lines, out);
    lines.text("\n", out);
}

fn add_need<E: EndianParse, V: SymbolVersions<E>, W: Write>(
    symbol: usize,
    versions: &V,
    lines: &mut LineBuffer,
    out: &mut W,
)
    ensures { Adds (W.contents out.old) lines.old (W.contents out.new) lines.new
        (need_field (requirement (V.versions versions.now) symbol)) }
{
    match versions.get_requirement(symbol) {
        Ok(Some(needed)) => add_needed(&needed, lines, out),
        Ok(None) => lines.text("noneed", out),
        Err(_) => lines.text("badneed", out),
    }
}

fn add_needed<W: Write>(needed: &SymbolRequirement<'_>, lines: &mut LineBuffer, out: &mut W)
    ensures { Adds (W.contents out.old) lines.old (W.contents out.new) lines.new
        (needed_texts needed.now.file.now needed.now.name.now needed.now.hash needed.now.flags needed.now.hidden) }
{
    lines.escaped_text("need file=", needed.file.as_bytes(), out);
    lines.escaped_text(" name=", needed.name.as_bytes(), out);
    add_version_fields(needed.hash, needed.flags, needed.hidden, lines, out);
}

fn add_version_fields<W: Write>(
    hash: u32,
    flags: u16,
    hidden: bool,
    lines: &mut LineBuffer,
    out: &mut W,
)
    ensures { Adds (W.contents out.old) lines.old (W.contents out.new) lines.new (version_fields hash flags hidden) }
{
    lines.hex(" hash=", hash as u64, out);
    lines.decimal(" flags=", flags as u64, out);
    lines.text(if hidden { " hidden=1" } else { " hidden=0" }, out);
}

fn add_def<E: EndianParse, V: SymbolVersions<E>, W: Write>(
    symbol: usize,
    versions: &V,
    lines: &mut LineBuffer,
    out: &mut W,
)
    ensures { Adds (W.contents out.old) lines.old (W.contents out.new) lines.new
        (def_field (definition (V.versions versions.now) symbol)) }
{
    match versions.get_definition(symbol) {
        Ok(Some(found)) => add_found_def(found, lines, out),
        Ok(None) => lines.text("nodef", out),
        Err(_) => lines.text("baddef", out),
    }
}

fn add_found_def<E: EndianParse, W: Write>(
    found: SymbolDefinition<'_, E>,
    lines: &mut LineBuffer,
    out: &mut W,
)
    ensures { Adds (W.contents out.old) lines.old (W.contents out.new) lines.new
        (def_field (Ok (Some (definition_view found.entry)))) }
{
    lines.text("def", out);
    add_version_fields(found.hash, found.flags, found.hidden, lines, out);
    add_version_names(found.names, lines, out);
}

fn add_version_names<E: EndianParse, W: Write>(
    names: SymbolNamesIterator<'_, E>,
    lines: &mut LineBuffer,
    out: &mut W,
)
    ensures { Adds (W.contents out.old) lines.old (W.contents out.new) lines.new
        (version_names (names_left names.entry)) }
{
    for name in names {
        add_version_name(name, lines, out);
    }
}

fn add_version_name<W: Write>(name: Result<&str, ParseError>, lines: &mut LineBuffer, out: &mut W)
    ensures { Adds (W.contents out.old) lines.old (W.contents out.new) lines.new
        (version_name (text_shown name.entry)) }
{
    match name {
        Ok(name) => lines.escaped_text(" name=", name.as_bytes(), out),
        Err(_) => lines.text(" badname", out),
    }
}
