//! What is said of notes.
#![tactic(auto, using(nugwier_report::proofs::Saying::saying_both))]

ghost use Rattle.std.specs.Prelude.{◌≡◌, OnOk};
ghost use Rattle.elf_parts.specs.Note.{Other, note_view, notes_left};
ghost use Rattle.nugwier_layouts.specs.Members.{members_said};
ghost use Rattle.nugwier_notes.specs.Notes.{abi_tag_members, abi_tag_said, build_id_members, note_said, notes_said};
ghost use Rattle.nugwier_notes.specs.Notes.{other_members, without_nul};
ghost use Rattle.nugwier_report.specs.Said.{saying};

use crate::descriptors::tell_descriptor;
use crate::properties::NoteFile;
use elf_abi::{abi, to_str};
use elf_names::notes::note_type_name;
use elf_parts::endian::EndianParse;
use elf_parts::laws::notes::few_notes_are_left;
use elf_parts::note::{Note, NoteAny, NoteGnuAbiTag, NoteIterator};
use nugwier_layouts::json::{Member, Value};
use nugwier_layouts::layouts;
use nugwier_report::problem::{Part, Stop, part_member};
use nugwier_report::rows::{Row, tell_items};
use nugwier_report::tell::Tell;
use std::marker::PhantomData;

/// Says the notes of a section or of a segment.
pub fn tell_notes<E: EndianParse, T: Tell>(
    file: NoteFile,
    part: Part,
    notes: NoteIterator<'_, E>,
    tell: &mut T,
) -> Result<(), Stop>
    ensures { OnOk result (tell.new ≡ saying T.one tell.old (notes_said file part (notes_left notes.entry))) }
{
    few_notes_are_left(&notes);
    let row = NoteRow {
        file,
        part,
        data: PhantomData,
    };
    tell_items(notes, &row, tell)
}

// A note of a section or of a segment.
#[derive(Drop)]
struct NoteRow<'data> {
    file: NoteFile,
    part: Part,
    data: PhantomData<&'data [u8]>,
}

impl<'data> Row for NoteRow<'data> {
    type Item = Note<'data>;

    ghost said = { λ row number note. note_said row.file row.part number (note_view note) };

    fn tell<T: Tell>(&self, number: u64, note: &Note<'data>, tell: &mut T) -> Result<(), Stop> {
        let part = self.part;
        match note {
            Note::GnuAbiTag(tag) => tell_abi_tag(part, number, tag, tell),
            Note::GnuBuildId(id) => {
                tell.state(
                    &layouts::BUILD_ID_NOTE,
                    &build_id_members(part, number, id.0),
                )
            }
            Note::Unknown(note) => tell_other(self.file, part, number, note, tell),
        }
    }
}

fn tell_abi_tag<T: Tell>(
    part: Part,
    number: u64,
    tag: &NoteGnuAbiTag,
    tell: &mut T,
) -> Result<(), Stop>
    ensures { OnOk result (tell.new ≡ saying T.one tell.old (abi_tag_said part number tag.now)) }
{
    tell.state(&layouts::ABI_TAG_NOTE, &abi_tag_members(part, number, tag))
}

fn tell_other<T: Tell>(
    file: NoteFile,
    part: Part,
    number: u64,
    note: &NoteAny<'_>,
    tell: &mut T,
) -> Result<(), Stop>
    ensures { OnOk result (tell.new ≡ saying T.one tell.old
        (note_said file part number (Other note.now.n_type note.now.name.now note.now.desc.now))) }
{
    tell.state(&layouts::NOTE, &other_members(part, number, note))?;
    tell_descriptor(file, part, number, note, tell)
}

fn abi_tag_members(part: Part, number: u64, tag: &NoteGnuAbiTag) -> [Member<'static>; 10]
    ensures { members_said result ≡ abi_tag_members part number tag.now }
{
    [
        part_member(part),
        ("index", Value::Number(number)),
        ("n_type", Value::Number(abi::NT_GNU_ABI_TAG)),
        ("n_type_name", Value::Word(Some("NT_GNU_ABI_TAG"))),
        ("name", Value::Word(Some("GNU"))),
        ("os", Value::Number(tag.os as u64)),
        (
            "os_name",
            Value::Word(to_str::note_abi_tag_os_to_str(tag.os)),
        ),
        ("major", Value::Number(tag.major as u64)),
        ("minor", Value::Number(tag.minor as u64)),
        ("subminor", Value::Number(tag.subminor as u64)),
    ]
}

fn build_id_members<'a>(part: Part, number: u64, id: &'a [u8]) -> [Member<'a>; 6]
    ensures { members_said result ≡ build_id_members part number id.now }
{
    [
        part_member(part),
        ("index", Value::Number(number)),
        ("n_type", Value::Number(abi::NT_GNU_BUILD_ID)),
        ("n_type_name", Value::Word(Some("NT_GNU_BUILD_ID"))),
        ("name", Value::Word(Some("GNU"))),
        ("desc", Value::Bytes(id)),
    ]
}

fn other_members<'a>(part: Part, number: u64, note: &NoteAny<'a>) -> [Member<'a>; 6]
    ensures { members_said result ≡ other_members part number note.now.n_type note.now.name.now note.now.desc.now }
{
    let owner = without_nul(note.name);
    [
        part_member(part),
        ("index", Value::Number(number)),
        ("n_type", Value::Number(note.n_type)),
        (
            "n_type_name",
            Value::Word(note_type_name(owner, note.n_type)),
        ),
        ("name", Value::Text(Some(owner))),
        ("desc", Value::Bytes(note.desc)),
    ]
}

// A name ends in a 0 byte, which belongs to its size.
fn without_nul(name: &[u8]) -> &[u8]
    ensures { result.now ≡ without_nul name.now }
{
    match name.strip_suffix(&[0]) {
        Some(rest) => rest,
        None => name,
    }
}
