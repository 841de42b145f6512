//! Names of a file as text for a terminal.
ghost use Rattle.std.specs.Prelude.{◌≡◌, ◌<◌, Some, false};
ghost use Rattle.std.specs.Fmt.{WritesOnOk, digit_glyph};
ghost use Rattle.std.specs.List.{flat_map, list_all};
ghost use Rattle.std.specs.Str.{chars};
ghost use Rattle.elfshow_lines.specs.Adding.{Adds};
ghost use Rattle.nugwier_layouts.specs.Escape.{escaped_byte, is_hidden, is_plain, is_shown, shown_byte, shown_bytes};
ghost use Rattle.nugwier_layouts.specs.Escape.{shown_character};

use elfshow_lines::line_buffer::LineBuffer;
use std::fmt;
use std::io::Write;
use std::str::from_utf8;

/// Bytes that are text for people. UTF-8 text is shown as it is, except for characters that a terminal obeys or does
/// not show, and the backslash. Each byte of these, and each byte that is not ASCII if the bytes are not UTF-8, is
/// shown as `\x` and two digits.
#[derive(Debug, Clone, Copy)]
pub struct Escaped<'a>(pub &'a [u8]);

impl fmt::Display for Escaped<'_> {
    ghost output = { λ escaped. Some (shown_bytes escaped.0.now) };

    fn fmt<W: fmt::Write>(&self, f: &mut fmt::Formatter<W>) -> fmt::Result {
        match from_utf8(self.0) {
            Ok(text) => write_characters(text, f),
            Err(_) => write_bytes(self.0, f),
        }
    }
}

fn write_characters<W: fmt::Write>(text: &str, f: &mut fmt::Formatter<W>) -> fmt::Result
    ensures { WritesOnOk W.write_str_gives f.old result (flat_map shown_character (chars text.now)) f.new }
{
    for character in text.chars() {
        write_character(character, f)?;
    }
    Ok(())
}

fn write_character<W: fmt::Write>(character: char, f: &mut fmt::Formatter<W>) -> fmt::Result
    ensures { WritesOnOk W.write_str_gives f.old result (shown_character character) f.new }
{
    if is_shown(character) {
        return f.write_char(character);
    }
    let mut room = [0; 4];
    write_escapes(character.encode_utf8(&mut room).as_bytes(), f)
}

fn write_escapes<W: fmt::Write>(bytes: &[u8], f: &mut fmt::Formatter<W>) -> fmt::Result
    ensures { WritesOnOk W.write_str_gives f.old result (flat_map escaped_byte bytes.now) f.new }
{
    for byte in bytes {
        write_escape(*byte, f)?;
    }
    Ok(())
}

fn write_bytes<W: fmt::Write>(bytes: &[u8], f: &mut fmt::Formatter<W>) -> fmt::Result
    ensures { WritesOnOk W.write_str_gives f.old result (flat_map shown_byte bytes.now) f.new }
{
    for byte in bytes {
        write_byte(*byte, f)?;
    }
    Ok(())
}

#[tactic(auto, using(std::proofs::lemmas::Str::encode_ascii))]
fn write_byte<W: fmt::Write>(byte: u8, f: &mut fmt::Formatter<W>) -> fmt::Result
    ensures { WritesOnOk W.write_str_gives f.old result (shown_byte byte) f.new }
{
    if is_plain(byte) {
        return f.write_char(byte as char);
    }
    write_escape(byte, f)
}

// `\x` and two digits.
#[tactic(auto, using(crate::proofs::Writing::digit_ascii))]
fn write_escape<W: fmt::Write>(byte: u8, f: &mut fmt::Formatter<W>) -> fmt::Result
    ensures { WritesOnOk W.write_str_gives f.old result (escaped_byte byte) f.new }
{
    f.write_str("\\x")?;
    f.write_char(digit(byte / 16))?;
    f.write_char(digit(byte % 16))
}

fn digit(n: u8) -> char
    requires { n < 16 }
    ensures { result ≡ digit_glyph false n }
{
    (if n < 10 { b'0' + n } else { b'a' + (n - 10) }) as char
}

// The characters of ASCII that are shown, except for the backslash.
fn is_plain(byte: u8) -> bool
    ensures { result ≡ is_plain byte }
{
    (b' '..=b'~').contains(&byte) && byte != b'\\'
}

/// The characters beyond ASCII that are not shown as they are, first and last of each range: those that control a
/// terminal or the format of a text, or end a line (the general categories Cc, Cf, Zl and Zp), and those that
/// are not displayed (Default_Ignorable_Code_Point). These are all of Unicode 18.0.
pub const HIDDEN: &[(char, char)] = &[
    ('\u{80}', '\u{9f}'),
    ('\u{ad}', '\u{ad}'),
    ('\u{34f}', '\u{34f}'),
    ('\u{600}', '\u{605}'),
    ('\u{61c}', '\u{61c}'),
    ('\u{6dd}', '\u{6dd}'),
    ('\u{70f}', '\u{70f}'),
    ('\u{890}', '\u{891}'),
    ('\u{8e2}', '\u{8e2}'),
    ('\u{115f}', '\u{1160}'),
    ('\u{17b4}', '\u{17b5}'),
    ('\u{180b}', '\u{180f}'),
    ('\u{200b}', '\u{200f}'),
    ('\u{2028}', '\u{202e}'),
    ('\u{2060}', '\u{206f}'),
    ('\u{3164}', '\u{3164}'),
    ('\u{fe00}', '\u{fe0f}'),
    ('\u{feff}', '\u{feff}'),
    ('\u{ffa0}', '\u{ffa0}'),
    ('\u{fff0}', '\u{fffb}'),
    ('\u{110bd}', '\u{110bd}'),
    ('\u{110cd}', '\u{110cd}'),
    ('\u{13430}', '\u{1343f}'),
    ('\u{1bca0}', '\u{1bca3}'),
    ('\u{1d173}', '\u{1d17a}'),
    ('\u{e0000}', '\u{e0fff}'),
];

/// Whether a character is shown as it is: none that controls a terminal, or that is invisible or turns the direction of
/// writing, so that a name could look like another one.
pub fn is_shown(character: char) -> bool
    ensures { result ≡ is_shown character }
{
    if character.is_ascii() {
        is_plain(character as u8)
    } else {
        !is_hidden(character)
    }
}

fn is_hidden(character: char) -> bool
    ensures { result ≡ is_hidden character }
{
    HIDDEN
        .iter()
        .any(|range| range.0 <= character && character <= range.1)
}

/// Adds bytes as text for people, in the manner of `Escaped`.
pub fn add_shown<W: Write>(bytes: &[u8], lines: &mut LineBuffer, out: &mut W)
    ensures { Adds (W.contents out.old) lines.old (W.contents out.new) lines.new (shown_bytes bytes.now) }
{
    match from_utf8(bytes) {
        Ok(text) => add_text(text, lines, out),
        Err(_) => add_bytes(bytes, lines, out),
    }
}

// Nearly all names are plain, and are added in one piece.
#[tactic(auto, using(crate::proofs::Plain::plain_text))]
fn add_text<W: Write>(text: &str, lines: &mut LineBuffer, out: &mut W)
    ensures { Adds (W.contents out.old) lines.old (W.contents out.new) lines.new
        (flat_map shown_character (chars text.now)) }
{
    if are_plain(text.as_bytes()) {
        lines.text(text, out);
    } else {
        add_characters(text, lines, out);
    }
}

// Looks at each byte, whatever those before it are, so that the compiler takes many at once.
fn are_plain(bytes: &[u8]) -> bool
    ensures { result ≡ list_all is_plain bytes.now }
{
    let mut are = true;
    for byte in bytes {
        are &= is_plain(*byte);
    }
    are
}

fn add_characters<W: Write>(text: &str, lines: &mut LineBuffer, out: &mut W)
    ensures { Adds (W.contents out.old) lines.old (W.contents out.new) lines.new
        (flat_map shown_character (chars text.now)) }
{
    for character in text.chars() {
        add_character(character, lines, out);
    }
}

fn add_character<W: Write>(character: char, lines: &mut LineBuffer, out: &mut W)
    ensures { Adds (W.contents out.old) lines.old (W.contents out.new) lines.new (shown_character character) }
{
    let mut room = [0; 4];
    let text = character.encode_utf8(&mut room);
    if is_shown(character) {
        lines.text(text, out);
    } else {
        add_escapes(text.as_bytes(), lines, out);
    }
}

fn add_bytes<W: Write>(bytes: &[u8], lines: &mut LineBuffer, out: &mut W)
    ensures { Adds (W.contents out.old) lines.old (W.contents out.new) lines.new (flat_map shown_byte bytes.now) }
{
    for byte in bytes {
        add_byte(*byte, lines, out);
    }
}

#[tactic(auto, using(std::proofs::lemmas::Str::encode_ascii))]
fn add_byte<W: Write>(byte: u8, lines: &mut LineBuffer, out: &mut W)
    ensures { Adds (W.contents out.old) lines.old (W.contents out.new) lines.new (shown_byte byte) }
{
    if is_plain(byte) {
        let mut room = [0; 4];
        lines.text((byte as char).encode_utf8(&mut room), out);
    } else {
        lines.bytes("\\x", &[byte], out);
    }
}

fn add_escapes<W: Write>(bytes: &[u8], lines: &mut LineBuffer, out: &mut W)
    ensures { Adds (W.contents out.old) lines.old (W.contents out.new) lines.new (flat_map escaped_byte bytes.now) }
{
    for byte in bytes {
        add_escape(*byte, lines, out);
    }
}

fn add_escape<W: Write>(byte: u8, lines: &mut LineBuffer, out: &mut W)
    ensures { Adds (W.contents out.old) lines.old (W.contents out.new) lines.new (escaped_byte byte) }
{
    lines.bytes("\\x", &[byte], out);
}
