//! The lines of notes.
ghost use Rattle.std.specs.Prelude.{OnOk};
ghost use Rattle.std.specs.Io.KnownBytes.{Appends};
ghost use Rattle.elf_parts.specs.Note.{AbiTag, BuildId, Other, note_view, notes_left};
ghost use Rattle.elfshow_lines.specs.Adding.{Adds};
ghost use Rattle.elfshow_lines.specs.Counted.{counted_lines};
ghost use Rattle.elfshow_lines.specs.Notes.{content_line, note_line};

use crate::counted::{Line, write_list};
use crate::line_buffer::LineBuffer;
use elf_parts::endian::EndianParse;
use elf_parts::laws::notes::few_notes_are_left;
use elf_parts::note::{Note, NoteAny, NoteGnuAbiTag, NoteIterator};
use std::io;
use std::io::Write;
use std::marker::PhantomData;

/// The line of a note. Its parts borrow from the data.
#[derive(Clone, Copy)]
struct NoteLine<'a> {
    data: PhantomData<&'a [u8]>,
}

impl<'a> Line for NoteLine<'a> {
    type Item = Note<'a>;

    ghost line = { λ by k note. note_line k (note_view note) };

    fn add_line<W: Write>(&self, _k: u64, note: &Note<'a>, lines: &mut LineBuffer, out: &mut W) {
        match note {
            Note::GnuAbiTag(tag) => add_abi_tag(tag, lines, out),
            Note::GnuBuildId(id) => add_build_id(id.0, lines, out),
            Note::Unknown(note) => add_other(note, lines, out),
        }
    }
}

fn add_abi_tag<W: Write>(tag: &NoteGnuAbiTag, lines: &mut LineBuffer, out: &mut W)
    ensures { Adds (W.contents out.old) lines.old (W.contents out.new) lines.new
        (content_line (AbiTag tag.now)) }
{
    let NoteGnuAbiTag {
        os,
        major,
        minor,
        subminor,
    } = *tag;
    lines.decimal("abitag os=", os as u64, out);
    lines.decimal(" major=", major as u64, out);
    lines.decimal(" minor=", minor as u64, out);
    lines.decimal(" subminor=", subminor as u64, out);
    lines.text("\n", out);
}

fn add_build_id<W: Write>(id: &[u8], lines: &mut LineBuffer, out: &mut W)
    ensures { Adds (W.contents out.old) lines.old (W.contents out.new) lines.new
        (content_line (BuildId id.now)) }
{
    lines.bytes("buildid hex=", id, out);
    lines.text("\n", out);
}

fn add_other<W: Write>(note: &NoteAny<'_>, lines: &mut LineBuffer, out: &mut W)
    ensures { Adds (W.contents out.old) lines.old (W.contents out.new) lines.new
        (content_line (Other note.now.n_type note.now.name.now note.now.desc.now)) }
{
    lines.decimal("note type=", note.n_type, out);
    lines.escaped_text(" name=", note.name, out);
    lines.bytes(" desc=", note.desc, out);
    lines.text("\n", out);
}

/// Writes the lines of notes, and their number.
pub fn write_notes<E: EndianParse, W: Write>(
    notes: NoteIterator<'_, E>,
    out: &mut W,
) -> io::Result<()>
    ensures { OnOk result (Appends (W.contents out.old) (W.contents out.new)
        (counted_lines note_line (notes_left notes.entry))) }
{
    few_notes_are_left(&notes);
    write_list(notes, &NoteLine { data: PhantomData }, out)
}
