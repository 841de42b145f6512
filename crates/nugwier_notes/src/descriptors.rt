//! What is said of the descriptors of notes.
#![tactic(auto, using(nugwier_report::proofs::Saying::saying_both))]

ghost use Rattle.std.specs.Prelude.{◌≡◌, OnOk};
ghost use Rattle.std.specs.Option.{option_copied, option_map};
ghost use Rattle.nugwier_notes.specs.Descriptors.{addresses_in, descriptor_said, first_string};
ghost use Rattle.nugwier_notes.specs.Descriptors.{is_probe_note, is_text_note, probe_in, probe_members, probe_said};
ghost use Rattle.nugwier_notes.specs.Descriptors.{text_members, texts_in, texts_view};
ghost use Rattle.nugwier_layouts.specs.Members.{members_said};
ghost use Rattle.nugwier_report.specs.Said.{said_if, saying};

use crate::core_notes::{is_core_note, tell_core_note};
use crate::note_parts::{address_in, address_size, after_string, text_in};
use crate::properties::{NoteFile, is_property_note, tell_properties};
use elf_parts::note::NoteAny;
use elf_parts::string_table::StringTable;
use elf_records::slices::rest_of;
use nugwier_layouts::json::{Member, Value};
use nugwier_layouts::layouts;
use nugwier_report::problem::{Part, Stop, part_member};
use nugwier_report::tell::Tell;

/// Says what the descriptor of a note holds, by the number of the note.
pub(crate) fn tell_descriptor<T: Tell>(
    file: NoteFile,
    part: Part,
    number: u64,
    note: &NoteAny<'_>,
    tell: &mut T,
) -> Result<(), Stop>
    ensures { OnOk result (tell.new ≡ saying T.one tell.old
        (descriptor_said file part number note.now.n_type note.now.name.now note.now.desc.now)) }
{
    if is_property_note(note.n_type, note.name) {
        tell_properties(file, part, number, note.desc, tell)
    } else if is_text_note(note.n_type, note.name) {
        tell.state(&layouts::NOTE_TEXT, &text_members(part, number, note.desc))
    } else if is_probe_note(note.n_type, note.name) {
        tell_probe(part, number, probe_in(file, note.desc), tell)
    } else if is_core_note(note.name) {
        tell_core_note(file, part, number, note.n_type, note.desc, tell)
    } else {
        Ok(())
    }
}

// ---- a text

fn is_text_note(n_type: u64, name: &[u8]) -> bool
    ensures { result ≡ is_text_note n_type name.now }
{
    (n_type == 4 && name == b"GNU\0".as_slice())
        || ((n_type == 0xcafe_1a7e || n_type == 0x407c_0c0a) && name == b"FDO\0".as_slice())
}

fn text_members(part: Part, number: u64, bytes: &[u8]) -> [Member<'_>; 3]
    ensures { members_said result ≡ text_members part number bytes.now }
{
    [
        part_member(part),
        ("note", Value::Number(number)),
        ("text", Value::Text(Some(text_in(bytes)))),
    ]
}

// ---- a probe

fn is_probe_note(n_type: u64, name: &[u8]) -> bool
    ensures { result ≡ is_probe_note n_type name.now }
{
    n_type == 3 && name == b"stapsdt\0".as_slice()
}

/// The addresses of a probe.
#[derive(Clone, Copy)]
pub struct ProbeAddresses {
    /// Its address.
    pub location: u64,
    /// Where the section `.stapsdt.base` was when this was written.
    pub base: u64,
    /// Where the number of its users is.
    pub semaphore: u64,
}

/// The strings of a probe.
#[derive(Clone, Copy)]
pub struct ProbeNames<'a> {
    pub provider: &'a [u8],
    pub name: &'a [u8],
    pub arguments: &'a [u8],
}

fn addresses_in(file: NoteFile, bytes: &[u8]) -> Option<ProbeAddresses>
    ensures { result ≡ addresses_in file bytes.now }
{
    let size = address_size(file.class);
    let location = address_in(file, bytes, 0)?;
    let base = address_in(file, bytes, size)?;
    let semaphore = address_in(file, bytes, 2 * size)?;
    Some(ProbeAddresses {
        location,
        base,
        semaphore,
    })
}

fn first_string(bytes: &[u8]) -> Option<&[u8]>
    ensures { option_copied result ≡ first_string bytes.now }
{
    StringTable::new(bytes).get_raw(0).ok()
}

// The strings of a probe, in a row.
fn texts_in(bytes: &[u8]) -> Option<ProbeNames<'_>>
    ensures { option_map texts_view result ≡ texts_in bytes.now }
{
    let provider = first_string(bytes)?;
    let rest = after_string(provider, bytes);
    let name = first_string(rest)?;
    let arguments = first_string(after_string(name, rest))?;
    Some(ProbeNames {
        provider,
        name,
        arguments,
    })
}

fn probe_in(file: NoteFile, bytes: &[u8]) -> Option<(ProbeAddresses, ProbeNames<'_>)>
    ensures { option_map (λ probe. (probe.0, texts_view probe.1)) result ≡ probe_in file bytes.now }
{
    let addresses = addresses_in(file, bytes)?;
    let names = texts_in(rest_of(3 * address_size(file.class), bytes))?;
    Some((addresses, names))
}

fn tell_probe<T: Tell>(
    part: Part,
    number: u64,
    probe: Option<(ProbeAddresses, ProbeNames<'_>)>,
    tell: &mut T,
) -> Result<(), Stop>
    ensures { OnOk result (tell.new ≡ saying T.one tell.old (said_if (probe_said part number)
        (option_map (λ probe. (probe.0, texts_view probe.1)) probe.entry))) }
{
    match probe {
        Some((addresses, names)) => {
            tell.state(
                &layouts::PROBE,
                &probe_members(part, number, addresses, names),
            )
        }
        None => Ok(()),
    }
}

fn probe_members<'a>(
    part: Part,
    number: u64,
    addresses: ProbeAddresses,
    names: ProbeNames<'a>,
) -> [Member<'a>; 8]
    ensures { members_said result ≡ probe_members part number addresses (texts_view names.entry) }
{
    [
        part_member(part),
        ("note", Value::Number(number)),
        ("provider", Value::Text(Some(names.provider))),
        ("name", Value::Text(Some(names.name))),
        ("arguments", Value::Text(Some(names.arguments))),
        ("location", Value::Number(addresses.location)),
        ("base", Value::Number(addresses.base)),
        ("semaphore", Value::Number(addresses.semaphore)),
    ]
}
