//! Records as objects of JSON, one a line (RFC 8259).
ghost use Rattle.std.specs.Prelude.{◌≡◌, true, Some, OnOk};
ghost use Rattle.std.specs.Io.KnownBytes.{Appends};
ghost use Rattle.std.specs.List.{flat_map};
ghost use Rattle.std.specs.Str.{chars, encode_utf8_all};
ghost use Rattle.elf_names.specs.Flags.{flag_of, flags_of};
ghost use Rattle.elfshow_lines.specs.Adding.{Adds};
ghost use Rattle.nugwier_layouts.specs.Json.{after_key, bytes_value, character_value, escape, flag_name, flag_names};
ghost use Rattle.nugwier_layouts.specs.Json.{flags_value, front, json_string};
ghost use Rattle.nugwier_layouts.specs.Json.{member_text, object, spelled, stands_for_itself, string_value, text_value};
ghost use Rattle.nugwier_layouts.specs.Json.{unit_escape};
ghost use Rattle.nugwier_layouts.specs.JsonReading.{read_string};
ghost use Rattle.nugwier_layouts.specs.Members.{content_of, member_said, members_said, number_content};

use crate::escape::is_shown;
use elf_names::flags::{Flag, Flags, is_set};
use elfshow_lines::line_buffer::LineBuffer;
use std::io;
use std::io::Write;
use std::str::from_utf8;

/// What a member of an object says.
#[derive(Clone, Copy)]
pub enum Value<'a> {
    /// Nothing.
    Null,
    Flag(bool),
    Number(u64),
    Signed(i64),
    /// The name that a standard has for a value, if it has one.
    Word(Option<&'static str>),
    /// A character, if there is one.
    Character(Option<char>),
    /// A text of the file, if it can be read. If it is not UTF-8, the digits of its bytes are written instead, and the
    /// key ends with `_hex`.
    Text(Option<&'a [u8]>),
    /// Bytes, as two digits each. The key has `_hex` at its end.
    Bytes(&'a [u8]),
    /// The names of the flags that are set in a number.
    Flags(Flags, u64),
}

/// A member of an object: its key, which needs no escapes, and what it says.
pub type Member<'a> = (&'static str, Value<'a>);

/// A number, or nothing if it is not known.
pub fn number_value(number: Option<u64>) -> Value<'static>
    ensures { content_of result ≡ number_content number }
{
    match number {
        Some(number) => Value::Number(number),
        None => Value::Null,
    }
}

/// Writes a record of a file as a line: an object of the path of the file, the kind of the record, and these members.
pub fn write_object<W: Write>(
    path: &str,
    kind: &str,
    members: &[Member<'_>],
    out: &mut W,
) -> io::Result<()>
    ensures { OnOk result (Appends (W.contents out.old) (W.contents out.new)
        (object path.now kind.now (members_said members.now))) }
{
    let mut lines = LineBuffer::empty();
    add_front(path, kind, &mut lines, out);
    add_members(members, &mut lines, out);
    lines.text("}\n", out);
    lines.end(out)
}

fn add_front<W: Write>(path: &str, kind: &str, lines: &mut LineBuffer, out: &mut W)
    ensures { Adds (W.contents out.old) lines.old (W.contents out.new) lines.new (front path.now kind.now) }
{
    lines.text("{\"file\":", out);
    add_string(path, lines, out);
    lines.text(",\"record\":", out);
    add_string(kind, lines, out);
}

fn add_members<W: Write>(members: &[Member<'_>], lines: &mut LineBuffer, out: &mut W)
    ensures { Adds (W.contents out.old) lines.old (W.contents out.new) lines.new
        (flat_map member_text (members_said members.now)) }
{
    for member in members {
        add_member(member, lines, out);
    }
}

// Adds a member after others.
fn add_member<W: Write>(member: &Member<'_>, lines: &mut LineBuffer, out: &mut W)
    ensures { Adds (W.contents out.old) lines.old (W.contents out.new) lines.new
        (member_text (member_said member.now)) }
{
    lines.text(",\"", out);
    lines.text(member.0, out);
    add_value(member.1, lines, out);
}

// Adds what follows a key: the end of its string, a colon, and the value.
fn add_value<W: Write>(value: Value<'_>, lines: &mut LineBuffer, out: &mut W)
    ensures { Adds (W.contents out.old) lines.old (W.contents out.new) lines.new
        (after_key (content_of value.entry)) }
{
    match value {
        Value::Flag(true) => lines.text("\":true", out),
        Value::Flag(false) => lines.text("\":false", out),
        Value::Number(number) => lines.decimal("\":", number, out),
        Value::Signed(number) => lines.signed("\":", number, out),
        Value::Word(Some(word)) => add_string_value(word, lines, out),
        Value::Character(Some(character)) => add_character_value(character, lines, out),
        Value::Text(Some(bytes)) => add_text_value(bytes, lines, out),
        Value::Bytes(bytes) => add_bytes_value(bytes, lines, out),
        Value::Flags(flags, number) => add_flags_value(flags, number, lines, out),
        _ => lines.text("\":null", out),
    }
}

fn add_string_value<W: Write>(text: &str, lines: &mut LineBuffer, out: &mut W)
    ensures { Adds (W.contents out.old) lines.old (W.contents out.new) lines.new (string_value text.now) }
{
    lines.text("\":", out);
    add_string(text, lines, out);
}

fn add_character_value<W: Write>(character: char, lines: &mut LineBuffer, out: &mut W)
    ensures { Adds (W.contents out.old) lines.old (W.contents out.new) lines.new (character_value character) }
{
    lines.text("\":\"", out);
    add_character(character, lines, out);
    lines.text("\"", out);
}

fn add_text_value<W: Write>(bytes: &[u8], lines: &mut LineBuffer, out: &mut W)
    ensures { Adds (W.contents out.old) lines.old (W.contents out.new) lines.new (text_value bytes.now) }
{
    match from_utf8(bytes) {
        Ok(text) => add_string_value(text, lines, out),
        Err(_) => add_bytes_value(bytes, lines, out),
    }
}

// The key ends with `_hex`, and the value is the digits of the bytes.
fn add_bytes_value<W: Write>(bytes: &[u8], lines: &mut LineBuffer, out: &mut W)
    ensures { Adds (W.contents out.old) lines.old (W.contents out.new) lines.new (bytes_value bytes.now) }
{
    lines.bytes("_hex\":\"", bytes, out);
    lines.text("\"", out);
}

fn add_flags_value<W: Write>(flags: Flags, number: u64, lines: &mut LineBuffer, out: &mut W)
    ensures { Adds (W.contents out.old) lines.old (W.contents out.new) lines.new
        (flags_value (flags_of flags.now) number) }
{
    lines.text("\":[", out);
    add_flags(flags, number, lines, out);
    lines.text("]", out);
}

fn add_flags<W: Write>(flags: Flags, number: u64, lines: &mut LineBuffer, out: &mut W)
    ensures { Adds (W.contents out.old) lines.old (W.contents out.new) lines.new
        (flag_names true number (flags_of flags.now)) }
{
    let mut is_first = true;
    for flag in flags {
        add_flag(is_first, flag, number, lines, out);
        is_first = is_first && !is_set(flag, number);
    }
}

// Adds the name of a flag, if it is set: the first one, or one after others.
fn add_flag<W: Write>(is_first: bool, flag: &Flag, number: u64, lines: &mut LineBuffer, out: &mut W)
    ensures { Adds (W.contents out.old) lines.old (W.contents out.new) lines.new
        (flag_name is_first number (flag_of flag.now)) }
{
    if is_set(flag, number) {
        lines.text(if is_first { "" } else { "," }, out);
        add_string(flag.2, lines, out);
    } else {
        lines.text("", out);
    }
}

#[tactic(auto, unfolding(crate::specs::Json::json_string))]
fn add_string<W: Write>(text: &str, lines: &mut LineBuffer, out: &mut W)
    ensures { Adds (W.contents out.old) lines.old (W.contents out.new) lines.new (json_string text.now) }
{
    lines.text("\"", out);
    add_characters(text, lines, out);
    lines.text("\"", out);
}

fn add_characters<W: Write>(text: &str, lines: &mut LineBuffer, out: &mut W)
    ensures { Adds (W.contents out.old) lines.old (W.contents out.new) lines.new
        (encode_utf8_all (flat_map spelled (chars text.now))) }
{
    for character in text.chars() {
        add_character(character, lines, out);
    }
}

fn add_character<W: Write>(character: char, lines: &mut LineBuffer, out: &mut W)
    ensures { Adds (W.contents out.old) lines.old (W.contents out.new) lines.new
        (encode_utf8_all (spelled character)) }
{
    if stands_for_itself(character) {
        let mut room = [0; 4];
        lines.text(character.encode_utf8(&mut room), out);
    } else {
        add_escape(character, lines, out);
    }
}

// Whether a character of a string is written as it is.
#[tactic(auto, unfolding(crate::specs::Json::stands_for_itself))]
fn stands_for_itself(character: char) -> bool
    ensures { result ≡ stands_for_itself character }
{
    is_shown(character) && character != '"'
}

#[tactic(auto, using(crate::proofs::JsonStrings::escape_other), unfolding(crate::specs::Json::escape))]
fn add_escape<W: Write>(character: char, lines: &mut LineBuffer, out: &mut W)
    ensures { Adds (W.contents out.old) lines.old (W.contents out.new) lines.new (escape character) }
{
    match character {
        '"' => lines.text("\\\"", out),
        '\\' => lines.text("\\\\", out),
        _ => add_units(character.encode_utf16(&mut [0; 2]), lines, out),
    }
}

fn add_units<W: Write>(units: &[u16], lines: &mut LineBuffer, out: &mut W)
    ensures { Adds (W.contents out.old) lines.old (W.contents out.new) lines.new (flat_map unit_escape units.now) }
{
    for unit in units {
        add_unit(*unit, lines, out);
    }
}

fn add_unit<W: Write>(unit: u16, lines: &mut LineBuffer, out: &mut W)
    ensures { Adds (W.contents out.old) lines.old (W.contents out.new) lines.new (unit_escape unit) }
{
    let bytes = [(unit / 256) as u8, (unit % 256) as u8];
    lines.bytes("\\u", &bytes, out);
}

/// The text that a string was written of is what is read of it.
pub fn a_string_is_read_back(text: &str)
    ensures { read_string (json_string text.now) ≡ Some text.now }
{}
