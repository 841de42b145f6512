//! Rows for people: a text for each record, by the columns of its kind.
ghost use Rattle.std.specs.Prelude.{◌≡◌, ◌+◌, ◌-◌, ◌*◌, ◌/◌, ◌<◌, ◌≤◌, ◌&&◌, OnOk, length, replicate};
ghost use Rattle.std.specs.Fmt.{decimal};
ghost use Rattle.std.specs.Io.KnownBytes.{Appends};
ghost use Rattle.std.specs.List.{flat_map};
ghost use Rattle.std.specs.Option.{option_copied};
ghost use Rattle.elf_names.specs.Flags.{flag_of, flags_of};
ghost use Rattle.elfshow_lines.specs.Adding.{Adds};
ghost use Rattle.nugwier_layouts.specs.Members.{content_of, members_said};
ghost use Rattle.nugwier_layouts.specs.Text.{all_digits, ascii, ascii_text, at_signs, bytes_in, cell, content_at, dump};
ghost use Rattle.nugwier_layouts.specs.Text.{dump_address, dump_characters, dump_columns, dump_group, dump_line};
ghost use Rattle.nugwier_layouts.specs.Text.{known_count, look_of, room_of, shown_address, shown_short_address, short_room_of};
ghost use Rattle.nugwier_layouts.specs.Text.{count_left_out, front_of, index_number, left_out};
ghost use Rattle.nugwier_layouts.specs.Text.{left_of, letters_of, nameless_number, nameless_signed, number_in, number_text};
ghost use Rattle.nugwier_layouts.specs.Text.{other_flags};
ghost use Rattle.nugwier_layouts.specs.Text.{row_text, section_letter, segment_flags, segment_letter, shown, shown_addend};
ghost use Rattle.nugwier_layouts.specs.Text.{shown_character, shown_count, shown_decimal, shown_flag, shown_flags, shown_index, shown_name, shown_nameless};
ghost use Rattle.nugwier_layouts.specs.Text.{shown_front, shown_number, shown_order, shown_padded, shown_percent};
ghost use Rattle.nugwier_layouts.specs.Text.{bold_if, colored, column_of, columns_of, framed, is_text, labeled, percent, shown_signed, shown_text, signed_hex, tenths};
ghost use Rattle.nugwier_layouts.specs.Text.{same_text, shown_target, shown_version, text_in, wide};

use crate::escape::add_shown;
use crate::json::{Member, Value};
use elf_abi::abi;
use elf_names::flags::{Flag, Flags, is_set};
use elf_parts::file::Class;
use elf_records::slices::{first_of, rest_of};
use elfshow_lines::line_buffer::LineBuffer;
use std::io;
use std::io::Write;

/// How a member is shown for people. A place is the index of another member of the record. A value of another type is
/// shown as `-`.
#[derive(Clone, Copy)]
pub enum Shown {
    /// A number in decimal, aligned to the right in a column of this width.
    Decimal(usize),
    /// A number in hexadecimal, after `0x`.
    Hexadecimal,
    /// The same without `0x`.
    Digits,
    /// A number as 8 hexadecimal digits, or as 16 if it has more than 32 bits.
    Digits8,
    /// A number as 16 hexadecimal digits; in a file of class `ELF32` as 8, or as 16 if it has more than 32 bits.
    Address,
    /// In place of a value, the 8 spaces by which the column of an address is wider in a file of class `ELF64`.
    Room,
    /// An address in wide rows; in others a number as 8 hexadecimal digits, or as 16 if it has more than 32 bits.
    ShortAddress,
    /// In place of a value, the spaces by which the column of such an address is wider in wide rows.
    ShortRoom,
    /// A number with a sign, in decimal.
    Signed,
    /// The share of a number in the one at this place, in percent. A number above that one has none, nor has any of 0.
    Percent(usize),
    /// How many rows follow a heading: `, 7 in all`. A value of another type is nothing, as the number is not known.
    Count,
    /// The byte order that a number of `EI_DATA` stands for.
    Order,
    /// The flags of a section or of a segment, as letters.
    SectionFlags,
    SegmentFlags,
    /// Two spaces for each level of a depth.
    Depth,
    /// The addend of a relocation, in hexadecimal: with its sign after a symbol, whose number is at this place, and
    /// nothing if it is 0; without a symbol, which has number 0, as it is. A relocation without an addend has nothing
    /// there.
    Addend(usize),
    /// A name without this number of bytes at its start, aligned to the left in a column of this width. A value without
    /// a name is shown as the number at this place: in hexadecimal, in a column as at least 8 digits.
    Name(usize, usize, usize),
    /// The name of a special section number without `SHN_`, or the number at this place, aligned to the right in a
    /// column of this width.
    Index(usize, usize),
    /// A text of the file, escaped, or a mark that it cannot be read.
    Text,
    /// The same, aligned to the left in a column of this width, in which each byte of the file counts as one character.
    Padded(usize),
    /// A version after its symbol: `@NAME`, or `@@NAME` if the flag at this place says that it is the default one. A
    /// symbol without a version has nothing there.
    Version(usize),
    /// The version of a symbol that a reference is bound to, if it is not that of the reference: `: NAME@VERSION`, or
    /// `: NAME@@VERSION`. The places are those of the name, of the version of the reference, and of the flag that says
    /// whether the version is the default one.
    Target(usize, usize, usize),
    /// The names of the flags that are set, each after a space and without this number of bytes at its start.
    Flags(usize),
    /// A character.
    Character,
    /// Bytes, as two digits each.
    Pairs,
    /// The same of the first ones, at most this number, and how many are left out. Wide rows have all.
    Front(usize),
    /// Bytes, 16 in a line: the address of the first, their digits, and the characters of ASCII that they are. The
    /// number at this place is the address of the first byte of all.
    Dump(usize),
}

/// A column: the text before it, the place of the member that it shows, and how.
pub type Column = (&'static str, usize, Shown);

/// How rows are written.
#[derive(Debug, Clone, Copy)]
pub struct Style {
    /// Whether long bytes are shown as a whole, and addresses with all their digits.
    pub is_wide: bool,
    /// Whether headings are bold, and texts of the file in colour.
    pub is_colored: bool,
}

/// What the cells of a row depend on beside the record.
#[derive(Debug, Clone, Copy)]
pub struct Look {
    /// Whether long bytes are shown as a whole, and addresses with all their digits.
    pub is_wide: bool,
    /// Whether texts of the file are in colour.
    pub is_colored: bool,
    /// The class of the file, which gives the digits of its addresses.
    pub class: Class,
}

/// Writes the row of a record of a file of this class: the columns, and the text after them. A heading may be bold.
pub fn write_row<W: Write>(
    style: Style,
    class: Class,
    is_heading: bool,
    columns: &[Column],
    end: &str,
    members: &[Member<'_>],
    out: &mut W,
) -> io::Result<()>
    ensures { OnOk result (Appends (W.contents out.old) (W.contents out.new)
        (bold_if (style.is_colored && is_heading)
        (row_text (look_of style class) (members_said members.now) (columns_of columns.now) end.now))) }
{
    let look = Look {
        is_wide: style.is_wide,
        is_colored: style.is_colored,
        class,
    };
    let mut lines = LineBuffer::empty();
    if style.is_colored && is_heading {
        add_bold(look, columns, end, members, &mut lines, out);
    } else {
        add_row(look, columns, end, members, &mut lines, out);
    }
    lines.end(out)
}

// Adds a row between the escape sequences that begin and end bold text (ECMA-48, SGR).
#[tactic(auto, unfolding(crate::specs::Text::framed))]
fn add_bold<W: Write>(
    look: Look,
    columns: &[Column],
    end: &str,
    members: &[Member<'_>],
    lines: &mut LineBuffer,
    out: &mut W,
)
    ensures { Adds (W.contents out.old) lines.old (W.contents out.new) lines.new
        (framed (row_text look (members_said members.now) (columns_of columns.now) end.now)) }
{
    lines.text("\x1b[1m", out);
    add_row(look, columns, end, members, lines, out);
    lines.text("\x1b[0m", out);
}

fn add_row<W: Write>(
    look: Look,
    columns: &[Column],
    end: &str,
    members: &[Member<'_>],
    lines: &mut LineBuffer,
    out: &mut W,
)
    ensures { Adds (W.contents out.old) lines.old (W.contents out.new) lines.new
        (row_text look (members_said members.now) (columns_of columns.now) end.now) }
{
    for column in columns {
        add_column(look, column, members, lines, out);
    }
    lines.text(end, out);
}

// Adds a column after its text.
fn add_column<W: Write>(
    look: Look,
    column: &Column,
    members: &[Member<'_>],
    lines: &mut LineBuffer,
    out: &mut W,
)
    ensures { Adds (W.contents out.old) lines.old (W.contents out.new) lines.new
        (labeled look (members_said members.now) (column_of column.now)) }
{
    lines.text(column.0, out);
    add_cell(look, column, members, lines, out);
}

fn add_cell<W: Write>(
    look: Look,
    column: &Column,
    members: &[Member<'_>],
    lines: &mut LineBuffer,
    out: &mut W,
)
    ensures { Adds (W.contents out.old) lines.old (W.contents out.new) lines.new
        (cell look (members_said members.now) (column_of column.now)) }
{
    let value = value_at(members, column.1);
    if look.is_colored && is_text(column.2) {
        add_colored(look, column.2, value, members, lines, out);
    } else {
        add_value(look, column.2, value, members, lines, out);
    }
}

// Whether a column shows a text of the file.
fn is_text(form: Shown) -> bool
    ensures { result ≡ is_text form }
{
    match form {
        Shown::Text => true,
        Shown::Padded(_) => true,
        _ => false,
    }
}

// Adds a cell between the escape sequences that begin cyan text and end a colour (ECMA-48, SGR).
#[tactic(auto, unfolding(crate::specs::Text::colored))]
fn add_colored<W: Write>(
    look: Look,
    form: Shown,
    value: Value<'_>,
    members: &[Member<'_>],
    lines: &mut LineBuffer,
    out: &mut W,
)
    ensures { Adds (W.contents out.old) lines.old (W.contents out.new) lines.new
        (colored (shown look form (content_of value.entry) (members_said members.now))) }
{
    lines.text("\x1b[36m", out);
    add_value(look, form, value, members, lines, out);
    lines.text("\x1b[39m", out);
}

// The value of the member at a place.
fn value_at<'a>(members: &[Member<'a>], place: usize) -> Value<'a>
    ensures { content_of result ≡ content_at (members_said members.now) place }
{
    match members.get(place) {
        Some(member) => member.1,
        None => Value::Null,
    }
}

fn add_value<W: Write>(
    look: Look,
    form: Shown,
    value: Value<'_>,
    members: &[Member<'_>],
    lines: &mut LineBuffer,
    out: &mut W,
)
    ensures { Adds (W.contents out.old) lines.old (W.contents out.new) lines.new
        (shown look form (content_of value.entry) (members_said members.now)) }
{
    match form {
        Shown::Address => add_address_value(look.class, value, lines, out),
        Shown::Room => lines.text(room_of(look.class), out),
        Shown::ShortAddress => add_short_address(look, value, lines, out),
        Shown::ShortRoom => lines.text(short_room_of(look), out),
        Shown::Addend(symbol) => add_addend(value, value_at(members, symbol), lines, out),
        Shown::Name(skipped, width, number) => {
            let number = value_at(members, number);
            add_name(skipped, width, value, number, lines, out);
        }
        Shown::Index(width, number) => {
            add_index(width, value, value_at(members, number), lines, out);
        }
        Shown::Text => add_text(value, lines, out),
        Shown::Padded(width) => add_padded(width, value, lines, out),
        Shown::Version(flag) => add_version(value, value_at(members, flag), lines, out),
        Shown::Target(name, own, flag) => {
            let own = value_at(members, own);
            let (name, flag) = (value_at(members, name), value_at(members, flag));
            add_target(value, name, own, flag, lines, out);
        }
        Shown::Flags(count) => add_flag_names(count, value, lines, out),
        Shown::Character => add_character(value, lines, out),
        Shown::Signed => add_signed(value, lines, out),
        Shown::Percent(all) => add_share(value, value_at(members, all), lines, out),
        Shown::Count => add_count(value, lines, out),
        Shown::Pairs => lines.bytes("", bytes_in(value), out),
        Shown::Front(most) => add_front_or_all(look.is_wide, most, bytes_in(value), lines, out),
        Shown::Dump(address) => {
            let address = number_in(value_at(members, address));
            add_dump(address, bytes_in(value), lines, out);
        }
        _ => add_number(form, value, lines, out),
    }
}

fn bytes_in<'a>(value: Value<'a>) -> &'a [u8]
    ensures { result.now ≡ bytes_in (content_of value.entry) }
{
    match value {
        Value::Bytes(bytes) => bytes,
        _ => &[],
    }
}

// The number that a value is, or 0.
fn number_in(value: Value<'_>) -> u64
    ensures { result ≡ number_in (content_of value.entry) }
{
    match value {
        Value::Number(n) => n,
        _ => 0,
    }
}

// ---- addresses

fn add_address_value<W: Write>(class: Class, value: Value<'_>, lines: &mut LineBuffer, out: &mut W)
    ensures { Adds (W.contents out.old) lines.old (W.contents out.new) lines.new
        (shown_address class (content_of value.entry)) }
{
    match (value, class) {
        (Value::Number(n), Class::ELF32) => add_wide(n, lines, out),
        (Value::Number(n), Class::ELF64) => add_all_digits(n, lines, out),
        _ => lines.text("-", out),
    }
}

fn room_of(class: Class) -> &'static str
    ensures { result.now ≡ room_of class }
{
    match class {
        Class::ELF32 => "",
        Class::ELF64 => "        ",
    }
}

// In a row that is not wide without the zeros before it.
fn add_short_address<W: Write>(look: Look, value: Value<'_>, lines: &mut LineBuffer, out: &mut W)
    ensures { Adds (W.contents out.old) lines.old (W.contents out.new) lines.new
        (shown_short_address look (content_of value.entry)) }
{
    if look.is_wide {
        add_address_value(look.class, value, lines, out);
    } else {
        add_number(Shown::Digits8, value, lines, out);
    }
}

fn short_room_of(look: Look) -> &'static str
    ensures { result.now ≡ short_room_of look }
{
    if look.is_wide {
        room_of(look.class)
    } else {
        ""
    }
}

// ---- numbers

fn add_number<W: Write>(form: Shown, value: Value<'_>, lines: &mut LineBuffer, out: &mut W)
    ensures { Adds (W.contents out.old) lines.old (W.contents out.new) lines.new
        (shown_number form (content_of value.entry)) }
{
    match value {
        Value::Number(n) => add_digits(form, n, lines, out),
        _ => lines.text("-", out),
    }
}

fn add_digits<W: Write>(form: Shown, n: u64, lines: &mut LineBuffer, out: &mut W)
    ensures { Adds (W.contents out.old) lines.old (W.contents out.new) lines.new (number_text form n) }
{
    match form {
        Shown::Decimal(width) => add_decimal(width, n, lines, out),
        Shown::Digits => lines.digits(n, out),
        Shown::Digits8 => add_wide(n, lines, out),
        Shown::Order => add_order(n, lines, out),
        Shown::SectionFlags => add_flags(n, lines, out),
        Shown::SegmentFlags => add_segment_flags(n, lines, out),
        Shown::Depth => {
            add_spaces(n as usize, lines, out);
            add_spaces(n as usize, lines, out);
        }
        _ => lines.hex("", n, out),
    }
}

fn add_decimal<W: Write>(width: usize, n: u64, lines: &mut LineBuffer, out: &mut W)
    ensures { Adds (W.contents out.old) lines.old (W.contents out.new) lines.new (shown_decimal width n) }
{
    add_spaces(width.saturating_sub(decimal_length(n)), lines, out);
    lines.decimal("", n, out);
}

// 8 digits, or 16 if the number has more than 32 bits.
fn add_wide<W: Write>(n: u64, lines: &mut LineBuffer, out: &mut W)
    ensures { Adds (W.contents out.old) lines.old (W.contents out.new) lines.new (wide n) }
{
    if n < 0x1_0000_0000 {
        lines.bytes("", &(n as u32).to_be_bytes(), out);
    } else {
        add_all_digits(n, lines, out);
    }
}

fn add_all_digits<W: Write>(n: u64, lines: &mut LineBuffer, out: &mut W)
    ensures { Adds (W.contents out.old) lines.old (W.contents out.new) lines.new (all_digits n) }
{
    lines.bytes("", &n.to_be_bytes(), out);
}

fn add_order<W: Write>(n: u64, lines: &mut LineBuffer, out: &mut W)
    ensures { Adds (W.contents out.old) lines.old (W.contents out.new) lines.new (shown_order n) }
{
    if n == abi::ELFDATA2LSB as u64 {
        lines.text("little endian", out);
    } else {
        lines.text("big endian", out);
    }
}

fn add_addend<W: Write>(addend: Value<'_>, symbol: Value<'_>, lines: &mut LineBuffer, out: &mut W)
    ensures { Adds (W.contents out.old) lines.old (W.contents out.new) lines.new
        (shown_addend (content_of addend.entry) (content_of symbol.entry)) }
{
    match (addend, symbol) {
        (Value::Signed(addend), Value::Number(0)) => add_signed_hex("", addend, lines, out),
        (Value::Signed(0), _) => lines.text("", out),
        (Value::Signed(addend), _) => add_signed_hex("+", addend, lines, out),
        _ => lines.text("", out),
    }
}

fn add_signed<W: Write>(value: Value<'_>, lines: &mut LineBuffer, out: &mut W)
    ensures { Adds (W.contents out.old) lines.old (W.contents out.new) lines.new
        (shown_signed (content_of value.entry)) }
{
    match value {
        Value::Signed(n) => lines.signed("", n, out),
        _ => lines.text("-", out),
    }
}

fn add_share<W: Write>(number: Value<'_>, all: Value<'_>, lines: &mut LineBuffer, out: &mut W)
    ensures { Adds (W.contents out.old) lines.old (W.contents out.new) lines.new
        (shown_percent (content_of number.entry) (content_of all.entry)) }
{
    match (number, all) {
        (Value::Number(n), Value::Number(all)) if 0 < all && n <= all => {
            add_percent(tenths(n, all), lines, out);
        }
        _ => lines.text("     -", out),
    }
}

fn add_count<W: Write>(value: Value<'_>, lines: &mut LineBuffer, out: &mut W)
    ensures { Adds (W.contents out.old) lines.old (W.contents out.new) lines.new
        (shown_count (content_of value.entry)) }
{
    match value {
        Value::Number(n) => add_known_count(n, lines, out),
        _ => lines.text("", out),
    }
}

#[tactic(auto, unfolding(crate::specs::Text::known_count))]
fn add_known_count<W: Write>(n: u64, lines: &mut LineBuffer, out: &mut W)
    ensures { Adds (W.contents out.old) lines.old (W.contents out.new) lines.new (known_count n) }
{
    lines.text(", ", out);
    lines.decimal("", n, out);
    lines.text(" in all", out);
}

// How many tenths of a percent a number is of another one, rounded to the nearest, and to an even one if two are.
fn tenths(n: u64, all: u64) -> u64
    requires some { 0 < all }
    requires part { n ≤ all }
    ensures { result ≡ tenths n all }
{
    let scaled = n as u128 * 1000;
    let whole = (scaled / all as u128) as u64;
    let rest = 2 * (scaled % all as u128);
    if rest < all as u128 {
        whole
    } else if (all as u128) < rest {
        whole + 1
    } else {
        whole + whole % 2
    }
}

#[tactic(auto, unfolding(crate::specs::Text::percent))]
fn add_percent<W: Write>(tenths: u64, lines: &mut LineBuffer, out: &mut W)
    ensures { Adds (W.contents out.old) lines.old (W.contents out.new) lines.new (percent tenths) }
{
    add_decimal(3, tenths / 10, lines, out);
    lines.decimal(".", tenths % 10, out);
    lines.text("%", out);
}

// A number in hexadecimal, with this before it if it is not negative.
fn add_signed_hex<W: Write>(plus: &str, n: i64, lines: &mut LineBuffer, out: &mut W)
    ensures { Adds (W.contents out.old) lines.old (W.contents out.new) lines.new (signed_hex plus.now n) }
{
    let sign = if n < 0 { "-" } else { plus };
    lines.hex(sign, n.unsigned_abs(), out);
}

// ---- names

fn add_name<W: Write>(
    skipped: usize,
    width: usize,
    name: Value<'_>,
    number: Value<'_>,
    lines: &mut LineBuffer,
    out: &mut W,
)
    ensures { Adds (W.contents out.old) lines.old (W.contents out.new) lines.new
        (shown_name skipped width (content_of name.entry) (content_of number.entry)) }
{
    match name {
        Value::Word(Some(name)) => add_left(width, rest_of(skipped, name.as_bytes()), lines, out),
        _ => add_nameless(width, number, lines, out),
    }
}

// A text, and spaces after it.
fn add_left<W: Write>(width: usize, text: &[u8], lines: &mut LineBuffer, out: &mut W)
    ensures { Adds (W.contents out.old) lines.old (W.contents out.new) lines.new (left_of width text.now) }
{
    add_shown(text, lines, out);
    add_spaces(width.saturating_sub(text.len()), lines, out);
}

// The number of a value that has no name.
fn add_nameless<W: Write>(width: usize, number: Value<'_>, lines: &mut LineBuffer, out: &mut W)
    ensures { Adds (W.contents out.old) lines.old (W.contents out.new) lines.new
        (shown_nameless width (content_of number.entry)) }
{
    match number {
        Value::Number(n) => add_nameless_number(width, n, lines, out),
        Value::Signed(n) => add_nameless_signed(width, n, lines, out),
        _ => lines.text("-", out),
    }
}

fn add_nameless_signed<W: Write>(width: usize, n: i64, lines: &mut LineBuffer, out: &mut W)
    ensures { Adds (W.contents out.old) lines.old (W.contents out.new) lines.new (nameless_signed width n) }
{
    if n < 0 {
        lines.signed("", n, out);
    } else {
        add_nameless_number(width, n.unsigned_abs(), lines, out);
    }
}

#[tactic(auto, unfolding(crate::specs::Text::nameless_number))]
fn add_nameless_number<W: Write>(width: usize, n: u64, lines: &mut LineBuffer, out: &mut W)
    ensures { Adds (W.contents out.old) lines.old (W.contents out.new) lines.new (nameless_number width n) }
{
    if width == 0 {
        lines.hex("", n, out);
    } else {
        lines.text("0x", out);
        add_wide(n, lines, out);
        add_spaces(width.saturating_sub(10), lines, out);
    }
}

fn add_flag_names<W: Write>(count: usize, value: Value<'_>, lines: &mut LineBuffer, out: &mut W)
    ensures { Adds (W.contents out.old) lines.old (W.contents out.new) lines.new
        (shown_flags count (content_of value.entry)) }
{
    match value {
        Value::Flags(flags, number) => add_set_flags(count, flags, number, lines, out),
        _ => lines.text("", out),
    }
}

fn add_set_flags<W: Write>(
    count: usize,
    flags: Flags,
    number: u64,
    lines: &mut LineBuffer,
    out: &mut W,
)
    ensures { Adds (W.contents out.old) lines.old (W.contents out.new) lines.new
        (flat_map (shown_flag count number) (flags_of flags.now)) }
{
    for flag in flags {
        add_flag_name(count, flag, number, lines, out);
    }
}

// Adds the name of a flag, if it is set.
fn add_flag_name<W: Write>(
    count: usize,
    flag: &Flag,
    number: u64,
    lines: &mut LineBuffer,
    out: &mut W,
)
    ensures { Adds (W.contents out.old) lines.old (W.contents out.new) lines.new
        (shown_flag count number (flag_of flag.now)) }
{
    if is_set(flag, number) {
        lines.text(" ", out);
        add_shown(rest_of(count, flag.2.as_bytes()), lines, out);
    } else {
        lines.text("", out);
    }
}

fn add_index<W: Write>(
    width: usize,
    name: Value<'_>,
    number: Value<'_>,
    lines: &mut LineBuffer,
    out: &mut W,
)
    ensures { Adds (W.contents out.old) lines.old (W.contents out.new) lines.new
        (shown_index width (content_of name.entry) (content_of number.entry)) }
{
    match name {
        Value::Word(Some(name)) => {
            let name = rest_of(4, name.as_bytes());
            add_spaces(width.saturating_sub(name.len()), lines, out);
            add_shown(name, lines, out);
        }
        _ => add_index_number(width, number_in(number), lines, out),
    }
}

// A number from SHN_LORESERVE on, which is no section, in hexadecimal.
#[tactic(auto, unfolding(crate::specs::Text::index_number))]
fn add_index_number<W: Write>(width: usize, n: u64, lines: &mut LineBuffer, out: &mut W)
    ensures { Adds (W.contents out.old) lines.old (W.contents out.new) lines.new (index_number width n) }
{
    if n < abi::SHN_LORESERVE as u64 {
        add_decimal(width, n, lines, out);
    } else {
        add_spaces(width.saturating_sub(RESERVED_LENGTH), lines, out);
        lines.hex("", n, out);
    }
}

// The length of `0xff00` and its like.
const RESERVED_LENGTH: usize = 6;

// ---- texts of the file

fn add_text<W: Write>(value: Value<'_>, lines: &mut LineBuffer, out: &mut W)
    ensures { Adds (W.contents out.old) lines.old (W.contents out.new) lines.new
        (shown_text (content_of value.entry)) }
{
    match text_in(value) {
        Some(text) => add_shown(text, lines, out),
        None => lines.text("<unreadable>", out),
    }
}

// A text, or the mark, and spaces after it.
fn add_padded<W: Write>(width: usize, value: Value<'_>, lines: &mut LineBuffer, out: &mut W)
    ensures { Adds (W.contents out.old) lines.old (W.contents out.new) lines.new
        (shown_padded width (text_in (content_of value.entry))) }
{
    match text_in(value) {
        Some(text) => add_left(width, text, lines, out),
        None => add_left(width, b"<unreadable>", lines, out),
    }
}

// The text of the file that a value is, if it could be read.
fn text_in<'a>(value: Value<'a>) -> Option<&'a [u8]>
    ensures { option_copied result ≡ text_in (content_of value.entry) }
{
    match value {
        Value::Text(text) => text,
        _ => None,
    }
}

fn add_version<W: Write>(
    name: Value<'_>,
    is_default: Value<'_>,
    lines: &mut LineBuffer,
    out: &mut W,
)
    ensures { Adds (W.contents out.old) lines.old (W.contents out.new) lines.new
        (shown_version (content_of name.entry) (content_of is_default.entry)) }
{
    match name {
        Value::Text(Some(name)) => {
            lines.text(at_signs(is_default), out);
            add_shown(name, lines, out);
        }
        _ => lines.text("", out),
    }
}

// Whether two texts are the same, or there is neither.
fn same_text(text: Option<&[u8]>, other: Option<&[u8]>) -> bool
    ensures { result ≡ same_text (option_copied text.entry) (option_copied other.entry) }
{
    match (text, other) {
        (Some(text), Some(other)) => text == other,
        (None, None) => true,
        _ => false,
    }
}

#[tactic(auto, unfolding(crate::specs::Text::shown_target))]
fn add_target<W: Write>(
    version: Value<'_>,
    name: Value<'_>,
    own: Value<'_>,
    is_default: Value<'_>,
    lines: &mut LineBuffer,
    out: &mut W,
)
    ensures { Adds (W.contents out.old) lines.old (W.contents out.new) lines.new
        (shown_target (content_of version.entry) (content_of name.entry) (content_of own.entry)
        (content_of is_default.entry)) }
{
    if same_text(text_in(version), text_in(own)) {
        lines.text("", out);
    } else {
        lines.text(": ", out);
        add_text(name, lines, out);
        add_version(version, is_default, lines, out);
    }
}

fn at_signs(is_default: Value<'_>) -> &'static str
    ensures { result.now ≡ at_signs (content_of is_default.entry) }
{
    match is_default {
        Value::Flag(true) => "@@",
        _ => "@",
    }
}

fn add_character<W: Write>(value: Value<'_>, lines: &mut LineBuffer, out: &mut W)
    ensures { Adds (W.contents out.old) lines.old (W.contents out.new) lines.new
        (shown_character (content_of value.entry)) }
{
    match value {
        Value::Character(Some(character)) => {
            let mut room = [0; 4];
            lines.text(character.encode_utf8(&mut room), out);
        }
        _ => lines.text("-", out),
    }
}

// ---- bytes

// All bytes in a wide row.
fn add_front_or_all<W: Write>(
    is_wide: bool,
    most: usize,
    bytes: &[u8],
    lines: &mut LineBuffer,
    out: &mut W,
)
    ensures { Adds (W.contents out.old) lines.old (W.contents out.new) lines.new (shown_front is_wide most bytes.now) }
{
    if is_wide {
        lines.bytes("", bytes, out);
    } else {
        add_front(most, bytes, lines, out);
    }
}

// The first bytes, at most this number, and how many are left out.
fn add_front<W: Write>(most: usize, bytes: &[u8], lines: &mut LineBuffer, out: &mut W)
    ensures { Adds (W.contents out.old) lines.old (W.contents out.new) lines.new (front_of most bytes.now) }
{
    lines.bytes("", first_of(most, bytes), out);
    add_left_out(bytes.len().saturating_sub(most), lines, out);
}

fn add_left_out<W: Write>(count: usize, lines: &mut LineBuffer, out: &mut W)
    ensures { Adds (W.contents out.old) lines.old (W.contents out.new) lines.new (left_out count) }
{
    if count == 0 {
        lines.text("", out);
    } else {
        add_count_left_out(count as u64, lines, out);
    }
}

#[tactic(auto, unfolding(crate::specs::Text::count_left_out))]
fn add_count_left_out<W: Write>(count: u64, lines: &mut LineBuffer, out: &mut W)
    ensures { Adds (W.contents out.old) lines.old (W.contents out.new) lines.new (count_left_out count) }
{
    lines.text(" .. ", out);
    lines.decimal("", count, out);
    lines.text(" bytes more", out);
}

// ---- bytes, 16 in a line

// The bytes in a line.
const LINE: usize = 16;

#[tactic(auto, using(crate::proofs::Dump::line_begins, crate::proofs::Dump::no_lines))]
fn add_dump<W: Write>(address: u64, bytes: &[u8], lines: &mut LineBuffer, out: &mut W)
    ensures { Adds (W.contents out.old) lines.old (W.contents out.new) lines.new (dump address bytes.now) }
{
    let count = bytes.len().div_ceil(LINE);
    let mut line = 0;
    while line < count {
        let offset = LINE * line;
        let part = first_of(LINE, rest_of(offset, bytes));
        add_line(address.wrapping_add(offset as u64), part, lines, out);
        line += 1;
    }
}

fn add_line<W: Write>(address: u64, line: &[u8], lines: &mut LineBuffer, out: &mut W)
    ensures { Adds (W.contents out.old) lines.old (W.contents out.new) lines.new (dump_line address line.now) }
{
    add_address(address, lines, out);
    add_columns(line, lines, out);
    add_dump_characters(line, lines, out);
}

#[tactic(auto, unfolding(crate::specs::Text::dump_address))]
fn add_address<W: Write>(address: u64, lines: &mut LineBuffer, out: &mut W)
    ensures { Adds (W.contents out.old) lines.old (W.contents out.new) lines.new (dump_address address) }
{
    lines.text("  ", out);
    add_wide(address, lines, out);
    lines.text("  ", out);
}

#[tactic(auto, unfolding(crate::specs::Text::dump_characters))]
fn add_dump_characters<W: Write>(line: &[u8], lines: &mut LineBuffer, out: &mut W)
    ensures { Adds (W.contents out.old) lines.old (W.contents out.new) lines.new (dump_characters line.now) }
{
    lines.text(" ", out);
    add_ascii_text(line, lines, out);
    lines.text("\n", out);
}

// The digits of the bytes of a line, in four groups.
#[tactic(auto, unfolding(crate::specs::Text::dump_columns))]
fn add_columns<W: Write>(line: &[u8], lines: &mut LineBuffer, out: &mut W)
    ensures { Adds (W.contents out.old) lines.old (W.contents out.new) lines.new (dump_columns line.now) }
{
    add_group(line, lines, out);
    add_group(rest_of(4, line), lines, out);
    add_group(rest_of(8, line), lines, out);
    add_group(rest_of(12, line), lines, out);
}

// The digits of the first four bytes, filled up with spaces, and a space.
fn add_group<W: Write>(bytes: &[u8], lines: &mut LineBuffer, out: &mut W)
    ensures { Adds (W.contents out.old) lines.old (W.contents out.new) lines.new (dump_group bytes.now) }
{
    lines.bytes("", first_of(4, bytes), out);
    add_spaces(2 * 4usize.saturating_sub(bytes.len()), lines, out);
    lines.text(" ", out);
}

fn add_ascii_text<W: Write>(bytes: &[u8], lines: &mut LineBuffer, out: &mut W)
    ensures { Adds (W.contents out.old) lines.old (W.contents out.new) lines.new (ascii_text bytes.now) }
{
    for byte in bytes {
        add_ascii(*byte, lines, out);
    }
}

#[tactic(auto, using(std::proofs::lemmas::Str::encode_ascii))]
fn add_ascii<W: Write>(byte: u8, lines: &mut LineBuffer, out: &mut W)
    ensures { Adds (W.contents out.old) lines.old (W.contents out.new) lines.new (ascii byte) }
{
    if (b' '..=b'~').contains(&byte) {
        let mut room = [0; 4];
        lines.text((byte as char).encode_utf8(&mut room), out);
    } else {
        lines.text(".", out);
    }
}

// ---- flags

/// The letters of the flags of a section, in the order of their bits, as `readelf` has them.
pub static LETTERS: [(u64, char); 14] = [
    (0x1, 'W'),
    (0x2, 'A'),
    (0x4, 'X'),
    (0x10, 'M'),
    (0x20, 'S'),
    (0x40, 'I'),
    (0x80, 'L'),
    (0x100, 'O'),
    (0x200, 'G'),
    (0x400, 'T'),
    (0x800, 'C'),
    (0x20_0000, 'R'),
    (0x1000_0000, 'l'),
    (0x8000_0000, 'E'),
];

/// The flags of a section without a letter.
pub const OTHER_FLAGS: u64 = 0xffff_ffff_6fdf_f008;

fn add_flags<W: Write>(n: u64, lines: &mut LineBuffer, out: &mut W)
    ensures { Adds (W.contents out.old) lines.old (W.contents out.new) lines.new (letters_of n) }
{
    if n == 0 {
        lines.text("-", out);
    } else {
        add_letters(n, &LETTERS, lines, out);
        add_others(n & OTHER_FLAGS, lines, out);
    }
}

fn add_letters<W: Write>(n: u64, letters: &[(u64, char)], lines: &mut LineBuffer, out: &mut W)
    ensures { Adds (W.contents out.old) lines.old (W.contents out.new) lines.new
        (flat_map (section_letter n) letters.now) }
{
    for letter in letters {
        add_letter(n, letter, lines, out);
    }
}

fn add_letter<W: Write>(n: u64, letter: &(u64, char), lines: &mut LineBuffer, out: &mut W)
    ensures { Adds (W.contents out.old) lines.old (W.contents out.new) lines.new (section_letter n letter.now) }
{
    if n & letter.0 == 0 {
        lines.text("", out);
    } else {
        let mut room = [0; 4];
        lines.text(letter.1.encode_utf8(&mut room), out);
    }
}

// The number of the flags that have no letter, if there are any.
fn add_others<W: Write>(n: u64, lines: &mut LineBuffer, out: &mut W)
    ensures { Adds (W.contents out.old) lines.old (W.contents out.new) lines.new (other_flags n) }
{
    if n == 0 {
        lines.text("", out);
    } else {
        lines.hex("+", n, out);
    }
}

fn add_segment_flags<W: Write>(n: u64, lines: &mut LineBuffer, out: &mut W)
    ensures { Adds (W.contents out.old) lines.old (W.contents out.new) lines.new (segment_flags n) }
{
    lines.text(segment_letter(n, 4, "R"), out);
    lines.text(segment_letter(n, 2, "W"), out);
    lines.text(segment_letter(n, 1, "E"), out);
    add_others(n / 8 * 8, lines, out);
}

fn segment_letter(n: u64, mask: u64, letter: &'static str) -> &'static str
    ensures { result.now ≡ segment_letter n mask letter.now }
{
    if n & mask == 0 { "-" } else { letter }
}

// ---- spaces

#[tactic(auto, using(crate::proofs::Spaces::eight_more))]
fn add_spaces<W: Write>(count: usize, lines: &mut LineBuffer, out: &mut W)
    ensures { Adds (W.contents out.old) lines.old (W.contents out.new) lines.new (replicate count 32) }
{
    let mut left = count;
    while left >= 8 {
        lines.text("        ", out);
        left -= 8;
    }
    add_few_spaces(left, lines, out);
}

fn add_few_spaces<W: Write>(count: usize, lines: &mut LineBuffer, out: &mut W)
    ensures { Adds (W.contents out.old) lines.old (W.contents out.new) lines.new (replicate count 32) }
{
    let mut left = count;
    while left > 0 {
        lines.text(" ", out);
        left -= 1;
    }
}

// The number of digits of a number.
fn decimal_length(n: u64) -> usize
    ensures { result ≡ length (decimal n) }
{
    let mut length = 1;
    let mut left = n;
    while left >= 10 {
        left /= 10;
        length += 1;
    }
    length
}
