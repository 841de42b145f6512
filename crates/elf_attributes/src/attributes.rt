//! The parts of a section of build attributes: its format, subsections, each of a vendor, in these the attributes of the
//! file, of sections or of symbols, and single attributes. Each function reads the first of its kind and returns the bytes
//! after it.
ghost use Rattle.std.specs.Prelude.{◌≡◌};
ghost use Rattle.elf_records.specs.Number.{ok_map};
ghost use Rattle.elf_attributes.specs.Attributes.{attribute_view, first_attribute, first_scope, first_subsection, form_of};
ghost use Rattle.elf_attributes.specs.Attributes.{length_at, number_attribute, pair_attribute, part_of, scope_view};
ghost use Rattle.elf_attributes.specs.Attributes.{subsection_view, subsections_of, text_attribute, value_of, vendor_of};
ghost use Rattle.elf_attributes.specs.Leb128.{item_view};

use crate::leb128::{first_number, first_text};
use elf_records::endian::EndianParse;
use std::fmt;

/// Why attributes cannot be read on.
#[derive(Debug, Clone, Copy, PartialEq, Eq, Drop)]
pub enum AttributeError {
    /// The section has another format than `A`: one that begins with this byte, or none.
    Format(Option<u8>),
    /// There are no four bytes for a length.
    NoLength,
    /// A part of this length, which counts its own head, has no room for that, or goes past the end of what it is in.
    Length(u32),
    /// A number has no last byte.
    EndlessNumber,
    /// A number has more than 64 bits.
    LargeNumber,
    /// A text has no 0 byte at its end.
    EndlessText,
}

impl fmt::Display for AttributeError {
    ghost use Rattle.std.specs.Prelude.{Some};
    ghost use Rattle.elf_attributes.specs.Attributes.{error_text};

    ghost output = { λ error. Some (error_text error) };

    fn fmt<W: fmt::Write>(&self, f: &mut fmt::Formatter<W>) -> fmt::Result {
        match *self {
            AttributeError::Format(Some(format)) => {
                write!(f, "build attributes of unknown format 0x{format:x}")
            }
            AttributeError::Format(None) => f.write_str("build attributes without a format"),
            AttributeError::NoLength => f.write_str("no room for a length of build attributes"),
            AttributeError::Length(length) => {
                write!(f, "a length of build attributes, {length}, does not fit")
            }
            AttributeError::EndlessNumber => {
                f.write_str("a number of build attributes does not end")
            }
            AttributeError::LargeNumber => {
                f.write_str("a number of build attributes has more than 64 bits")
            }
            AttributeError::EndlessText => f.write_str("a text of build attributes does not end"),
        }
    }
}

/// Returns the subsections of a section, after its format.
pub fn subsections_of(section: &[u8]) -> Result<&[u8], AttributeError>
    ensures { ok_map (λ rest. rest.now) result ≡ subsections_of section.now }
{
    match section {
        [b'A', subsections @ ..] => Ok(subsections),
        [format, ..] => Err(AttributeError::Format(Some(*format))),
        [] => Err(AttributeError::Format(None)),
    }
}

// ---- lengths

// The length at the start of bytes.
fn length_at<E: EndianParse>(order: E, bytes: &[u8]) -> Result<u32, AttributeError>
    ensures { result ≡ length_at (E.little order) bytes.now }
{
    match order.parse_u32_at(&mut 0, bytes) {
        Ok(length) => Ok(length),
        Err(_) => Err(AttributeError::NoLength),
    }
}

// The content of a part of this length after its head, and the bytes after it.
fn part_of(head: usize, length: u32, bytes: &[u8]) -> Result<(&[u8], &[u8]), AttributeError>
    ensures { ok_map item_view result ≡ part_of head length bytes.now }
{
    let end = length as usize;
    if head <= end && end <= bytes.len() {
        let part = &bytes[..end];
        Ok((&part[head..], &bytes[end..]))
    } else {
        Err(AttributeError::Length(length))
    }
}

// ---- subsections

/// A subsection.
#[derive(Clone, Copy)]
pub struct Subsection<'a> {
    /// The name of its vendor, which says what form it has.
    pub vendor: &'a [u8],
    /// What it has.
    pub content: &'a [u8],
}

/// Returns the first subsection, and the bytes after it.
pub fn first_subsection<E: EndianParse>(
    order: E,
    bytes: &[u8],
) -> Result<(Subsection<'_>, &[u8]), AttributeError>
    ensures { ok_map (λ found. (subsection_view found.0, found.1.now)) result
        ≡ first_subsection (E.little order) bytes.now }
{
    let length = length_at(order, bytes)?;
    let (part, rest) = part_of(4, length, bytes)?;
    let (vendor, content) = first_text(part)?;
    Ok((Subsection { vendor, content }, rest))
}

/// A vendor whose attributes have a known form.
#[derive(Debug, Clone, Copy, PartialEq, Eq)]
pub enum Vendor {
    /// Arm (`aeabi`).
    Arm,
    /// RISC-V (`riscv`).
    Riscv,
    /// GNU (`gnu`).
    Gnu,
}

/// Returns the vendor that has a name.
pub fn vendor_of(name: &[u8]) -> Option<Vendor>
    ensures { result ≡ vendor_of name.now }
{
    if name == b"aeabi".as_slice() {
        Some(Vendor::Arm)
    } else if name == b"riscv".as_slice() {
        Some(Vendor::Riscv)
    } else if name == b"gnu".as_slice() {
        Some(Vendor::Gnu)
    } else {
        None
    }
}

// ---- what attributes are of

/// The attributes of the file, of sections or of symbols.
#[derive(Clone, Copy)]
pub struct Scope<'a> {
    /// What they are of: 1 the file, 2 sections, 3 symbols.
    pub tag: u64,
    /// The attributes; of sections and symbols first the numbers of these, which a number 0 ends.
    pub content: &'a [u8],
}

/// Returns the first attributes that are of one thing, and the bytes after them.
pub fn first_scope<E: EndianParse>(
    order: E,
    bytes: &[u8],
) -> Result<(Scope<'_>, &[u8]), AttributeError>
    ensures { ok_map (λ found. (scope_view found.0, found.1.now)) result
        ≡ first_scope (E.little order) bytes.now }
{
    let (tag, after) = first_number(bytes)?;
    let length = length_at(order, after)?;
    let (content, rest) = part_of(bytes.len() - after.len() + 4, length, bytes)?;
    Ok((Scope { tag, content }, rest))
}

// ---- attributes

/// The form of the value of an attribute.
#[derive(Debug, Clone, Copy, PartialEq, Eq)]
pub enum Form {
    Number,
    Text,
    /// A number, and a text after it.
    Both,
}

/// Returns the form of the value after a tag.
pub fn form_of(vendor: Vendor, tag: u64) -> Form
    ensures { result ≡ form_of vendor tag }
{
    match (vendor, tag) {
        (Vendor::Arm | Vendor::Gnu, 32) => Form::Both,
        (Vendor::Arm, 4 | 5) => Form::Text,
        (Vendor::Arm, 0..=31) => Form::Number,
        _ if tag % 2 == 1 => Form::Text,
        _ => Form::Number,
    }
}

/// An attribute: its tag, and its value.
#[derive(Clone, Copy)]
pub struct Attribute<'a> {
    pub tag: u64,
    pub number: Option<u64>,
    pub text: Option<&'a [u8]>,
}

/// Returns the first attribute, and the bytes after it.
///
/// ```rust
/// // Tag_CPU_arch of Arm is 6, and 10 is version 7.
/// let (attribute, _) = first_attribute(Vendor::Arm, b"\x06\x0a".as_slice())?;
/// println!(rt; "{}: {:?}", attribute.tag, attribute.number)?; // 6: Some(10)
/// ```
pub fn first_attribute(
    vendor: Vendor,
    bytes: &[u8],
) -> Result<(Attribute<'_>, &[u8]), AttributeError>
    ensures { ok_map (λ found. (attribute_view found.0, found.1.now)) result ≡ first_attribute vendor bytes.now }
{
    let (tag, rest) = first_number(bytes)?;
    value_of(tag, form_of(vendor, tag), rest)
}

fn value_of(tag: u64, form: Form, bytes: &[u8]) -> Result<(Attribute<'_>, &[u8]), AttributeError>
    ensures { ok_map (λ found. (attribute_view found.0, found.1.now)) result ≡ value_of tag form bytes.now }
{
    match form {
        Form::Number => number_attribute(tag, bytes),
        Form::Text => text_attribute(tag, None, bytes),
        Form::Both => pair_attribute(tag, bytes),
    }
}

fn number_attribute(tag: u64, bytes: &[u8]) -> Result<(Attribute<'_>, &[u8]), AttributeError>
    ensures { ok_map (λ found. (attribute_view found.0, found.1.now)) result ≡ number_attribute tag bytes.now }
{
    let (number, rest) = first_number(bytes)?;
    let number = Some(number);
    let text = None;
    Ok((Attribute { tag, number, text }, rest))
}

// An attribute with this number, if it has one, and a text.
fn text_attribute(
    tag: u64,
    number: Option<u64>,
    bytes: &[u8],
) -> Result<(Attribute<'_>, &[u8]), AttributeError>
    ensures { ok_map (λ found. (attribute_view found.0, found.1.now)) result ≡ text_attribute tag number bytes.now }
{
    let (text, rest) = first_text(bytes)?;
    let text = Some(text);
    Ok((Attribute { tag, number, text }, rest))
}

fn pair_attribute(tag: u64, bytes: &[u8]) -> Result<(Attribute<'_>, &[u8]), AttributeError>
    ensures { ok_map (λ found. (attribute_view found.0, found.1.now)) result ≡ pair_attribute tag bytes.now }
{
    let (number, rest) = first_number(bytes)?;
    text_attribute(tag, Some(number), rest)
}
