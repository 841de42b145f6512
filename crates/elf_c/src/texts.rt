//! The texts of errors.
ghost use Rattle.std.specs.Prelude.{◌≡◌, ◌+◌, ◌<◌, ◌≤◌, ◌^◌, ◌∷◌, [], IfSome, IsTrue, drop, length, nat_eq};
ghost use Rattle.std.specs.Fmt.{digit_glyph, digits};
ghost use Rattle.std.specs.Option.{option_copied};
ghost use Rattle.elf_abi.specs.Names.{name_of};
ghost use Rattle.elf_abi.specs.SegmentNames.{p_type_names};
ghost use Rattle.elf_names.specs.Table.{rows_of};
ghost use Rattle.elf_c.specs.Texts.{bytes_text, error_templates, error_text, over, piece, prefixed, template_in};
ghost use Rattle.elf_c.specs.Texts.{text_in, type_name};
ghost use Rattle.elf_c.specs.inner.Writing.{IsWritten, are_short};

use crate::status::NugwierStatus;
use elf_abi::to_str::p_type_to_str;
use elf_names::table::{Names, name_in};

// Text is written straight into the place of the caller, byte by byte, and counted past its end: a buffer would have to
// be moved.

/// The numbers that a text may have: the index of a part, and two more.
#[derive(Clone, Copy)]
pub(crate) struct Numbers {
    pub(crate) index: u64,
    pub(crate) first: u64,
    pub(crate) second: u64,
}

// Writes a byte at an index, if the place has that index.
fn write_byte(place: &mut [u8], index: usize, byte: u8)
    ensures { IsWritten index (byte ∷ []) place.old place.new (index + 1) }
{
    if index < place.len() {
        place[index] = byte;
    }
}

// Writes bytes from an index on, and returns the index after them.
fn write(place: &mut [u8], index: usize, bytes: &[u8]) -> usize
    requires { index + length bytes.now < 2 ^ 64 }
    ensures { IsWritten index bytes.now place.old place.new result }
{
    let mut end = index;
    for byte in bytes {
        write_byte(place, end, *byte);
        end += 1;
    }
    end
}

// The digit of a number below 16, in upper case or in lower case.
fn digit(number: u64, upper: bool) -> u8
    requires { number < 16 }
    ensures { result ≡ digit_glyph upper number }
{
    if number < 10 {
        b'0' + number as u8
    } else if upper {
        b'A' + (number as u8 - 10)
    } else {
        b'a' + (number as u8 - 10)
    }
}

// Writes the digits of a number at the end of `room`, and returns the index of the first one.
fn write_digits(number: u64, base: u64, upper: bool, room: &mut [u8; 64]) -> usize
    requires least { 2 ≤ base }
    requires most { base ≤ 16 }
    ensures within { result ≤ 64 }
    ensures value { drop result room.new ≡ digits base upper number }
{
    let mut start = 64;
    let mut rest = number;
    while start > 0 {
        start -= 1;
        room[start] = digit(rest % base, upper);
        rest /= base;
        if rest == 0 {
            break;
        }
    }
    start
}

// Writes the digits of a number from an index on, and returns the index after them.
fn write_number(place: &mut [u8], index: usize, number: u64, base: u64, upper: bool) -> usize
    requires least { 2 ≤ base }
    requires most { base ≤ 16 }
    requires room { index + 64 < 2 ^ 64 }
    ensures text { IsWritten index (digits base upper number) place.old place.new result }
    ensures most { result ≤ index + 64 }
{
    let mut room = [0; 64];
    let start = write_digits(number, base, upper, &mut room);
    write(place, index, &room[start..])
}

// Writes a number in hexadecimal digits from an index on, and returns the index after them.
fn write_prefixed(place: &mut [u8], index: usize, number: u64) -> usize
    requires { index ≤ 0x10000 }
    ensures text { IsWritten index (prefixed number) place.old place.new result }
    ensures most { result ≤ index + 128 }
{
    let end = write(place, index, b"0x");
    write_number(place, end, number, 16, false)
}

// Writes the four lower bytes of a number from an index on, the lowest first, and returns the index after them.
fn write_bytes(place: &mut [u8], index: usize, number: u64) -> usize
    requires { index ≤ 0x10000 }
    ensures text { IsWritten index (bytes_text number) place.old place.new result }
    ensures most { result ≤ index + 512 }
{
    let mut end = write_number(place, index, number % 0x100, 16, true);
    end = write(place, end, b", ");
    end = write_number(place, end, number / 0x100 % 0x100, 16, true);
    end = write(place, end, b", ");
    end = write_number(place, end, number / 0x1_0000 % 0x100, 16, true);
    end = write(place, end, b", ");
    write_number(place, end, number / 0x100_0000 % 0x100, 16, true)
}

// The name of a type of segments, if it has one.
#[tactic(auto, using(crate::proofs::Templates::unnamed))]
fn type_name(p_type: u64) -> Option<&'static str>
    ensures name { option_copied result ≡ name_of nat_eq p_type_names p_type }
    ensures short { IfSome result (λ name. length name.now ≤ 128) }
{
    if p_type > u32::MAX as u64 {
        return None;
    }
    p_type_to_str(p_type as u32)
}

// Writes the name of a type of segments, or its number if it has none, from an index on, and returns the index after
// it.
fn write_type(place: &mut [u8], index: usize, p_type: u64) -> usize
    requires { index ≤ 0x10000 }
    ensures text { IsWritten index (type_name p_type) place.old place.new result }
    ensures most { result ≤ index + 128 }
{
    match type_name(p_type) {
        Some(name) => write(place, index, name.as_bytes()),
        None => write_prefixed(place, index, p_type),
    }
}

// A sign in a template stands for a number: `#` for the index, `$` and `&` for the two others in decimal digits, `~` and
// `|` for them in hexadecimal digits, `%` and `^` for them in hexadecimal digits in lower case after `0x`, `*` for the
// four bytes of the first one, `@` for the first one as a type of segments.

// Writes what a sign of a template stands for from an index on, and returns the index after it.
fn write_piece(place: &mut [u8], index: usize, numbers: &Numbers, sign: u8) -> usize
    requires { index ≤ 0x10000 }
    ensures text { IsWritten index (piece numbers.now sign) place.old place.new result }
    ensures most { result ≤ index + 512 }
{
    match sign {
        b'#' => write_number(place, index, numbers.index, 10, true),
        b'$' => write_number(place, index, numbers.first, 10, true),
        b'&' => write_number(place, index, numbers.second, 10, true),
        b'~' => write_number(place, index, numbers.first, 16, true),
        b'|' => write_number(place, index, numbers.second, 16, true),
        b'%' => write_prefixed(place, index, numbers.first),
        b'^' => write_prefixed(place, index, numbers.second),
        b'*' => write_bytes(place, index, numbers.first),
        b'@' => write_type(place, index, numbers.first),
        _ => {
            write_byte(place, index, sign);
            index + 1
        }
    }
}

// The template of a kind; a kind that the table does not have has no text.
fn template_in(templates: Names<u32>, kind: u32) -> &'static str
    requires { IsTrue (are_short (rows_of templates.now)) }
    ensures text { result.now ≡ template_in (rows_of templates.now) kind }
    ensures short { length result.now ≤ 128 }
{
    match name_in(templates, kind) {
        Some(text) => text,
        None => "",
    }
}

// Writes the text of a kind: its template, with these numbers for its signs. Returns the length of the text.
pub(crate) fn write_text(
    place: &mut [u8],
    templates: Names<u32>,
    kind: u32,
    numbers: &Numbers,
) -> usize
    requires { IsTrue (are_short (rows_of templates.now)) }
    ensures { IsWritten 0 (text_in (rows_of templates.now) kind numbers.now) place.old place.new result }
{
    let mut end = 0;
    for sign in template_in(templates, kind).as_bytes() {
        end = write_piece(place, end, numbers, *sign);
    }
    end
}

const TEMPLATES: Names<u32> = &[
    (1, "Invalid Magic Bytes: [*]"),
    (2, "Unsupported ELF Class: $"),
    (3, "Unsupported ELF Endianness: $"),
    (4, "Unsupported ELF Version field found: $ expected: &"),
    (5, "Bad offset: 0x~"),
    (
        6,
        "Could not find terminating NUL byte starting at offset: 0x~",
    ),
    (7, "Invalid entsize. Expected: 0x|, Found: 0x~"),
    (8, "Could not interpret section of type $ as type &"),
    (9, "Could not interpret section of type $ as type &"),
    (
        10,
        "Could not interpret section with unexpected alignment of $",
    ),
    (11, "Could not read bytes in range [0x~, 0x|)"),
    (12, "Integer overflow detected"),
    (17, "Out of memory"),
    (18, "Bytes in range [0x~, 0x|) are not loaded"),
    (19, "no entry DT_STRTAB"),
    (20, "no entry DT_STRSZ"),
    (21, "no segment holds the string table at %"),
];

// The templates of the errors by their codes.
#[tactic(auto, unfolding(crate::specs::Texts::error_templates))]
fn templates() -> Names<u32>
    ensures rows { rows_of result.now ≡ error_templates }
    ensures short { IsTrue (are_short (rows_of result.now)) }
{
    TEMPLATES
}

/// Writes the text of the error that a status stands for over the front of `text`, as far as there is room, and returns
/// the length of the whole text. `ReadError` and `NamesError` print the same by `{}`. The status of success has no text; neither have
/// the codes 13 to 16, which no call returns.
#[unsafe(no_mangle)]
pub extern "C" fn nugwier_error_text(status: &NugwierStatus, text: &mut [u8]) -> usize
    ensures length { result ≡ length (error_text status.now) }
    ensures text { text.new ≡ over (error_text status.now) text.old }
{
    let numbers = Numbers {
        index: 0,
        first: status.first,
        second: status.second,
    };
    write_text(text, templates(), status.code, &numbers)
}
