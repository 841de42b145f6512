//! Names by shell patterns (POSIX, "Pattern Matching Notation"; the manual page glob(7)).
ghost use Rattle.std.specs.Prelude.{◌≡◌, ◌==◌, ◌++◌, ◌∷◌, [], ◌<◌, codes, IfOk, OnOk, drop, length, position, slice_get};
ghost use Rattle.std.specs.List.{flat_map, list_any};
ghost use Rattle.elf_libraries.specs.Conf.{is_in};
ghost use Rattle.elf_libraries.specs.Patterns.{after, after_byte, after_run, begins_range, element_view, escaped};
ghost use Rattle.elf_libraries.specs.Patterns.{first_by, first_view, is_by, is_empty, is_in_set, is_match, is_negated};
ghost use Rattle.elf_libraries.specs.Patterns.{is_pattern, is_shown, rests_after, rests_view, set_length, set_or_byte};
ghost use Rattle.elf_libraries.specs.Patterns.{set_start, stands_for, tails};

use elf_records::slices::{first_of, rest_of};
use std::alloc::{AllocError, Global};

// An element of a pattern.
#[derive(Clone, Copy)]
enum Element<'a> {
    // `*`: any bytes, or none.
    Run,
    // `?`: any byte.
    Any,
    // This byte.
    Byte(u8),
    // `[..]` or `[!..]`: a byte that is in a set, or that is not.
    Set { is_negated: bool, set: &'a [u8] },
}

// The first element of a pattern, and the number of bytes that it takes.
#[derive(Clone, Copy)]
struct FirstElement<'a> {
    element: Element<'a>,
    length: usize,
}

impl<'a> FirstElement<'a> {
    fn new(element: Element<'a>, length: usize) -> Self
        ensures element { result.element ≡ element.entry }
        ensures length { result.length ≡ length }
    {
        FirstElement { element, length }
    }
}

fn is_negated(pattern: &[u8]) -> bool
    ensures { result ≡ is_negated pattern.now }
{
    match pattern.get(1) {
        Some(byte) => *byte == b'!' || *byte == b'^',
        None => false,
    }
}

fn place_of_bracket(bytes: &[u8]) -> Option<usize>
    ensures { result ≡ position (λ b. b == 93) bytes.now }
{
    bytes.iter().position(|byte| *byte == b']')
}

// The number of bytes between the brackets.
fn set_length(pattern: &[u8], start: usize) -> Option<usize>
    requires { start ≡ set_start pattern.now }
    ensures { result ≡ set_length pattern.now }
{
    // A bracket directly at the start is a byte of the set.
    match place_of_bracket(rest_of(start + 1, pattern)) {
        Some(place) => Some(place + 1),
        None => None,
    }
}

// What begins with a bracket: a set, or the bracket alone.
fn set_or_byte(pattern: &[u8]) -> FirstElement<'_>
    ensures { first_view result ≡ set_or_byte pattern.now (set_length pattern.now) }
{
    let is_negated = is_negated(pattern);
    let start = if is_negated { 2 } else { 1 };
    let Some(length) = set_length(pattern, start) else {
        return FirstElement::new(Element::Byte(b'['), 1);
    };
    let set = first_of(length, rest_of(start, pattern));
    FirstElement::new(Element::Set { is_negated, set }, start + length + 1)
}

// What begins with a backslash.
fn escaped(pattern: &[u8]) -> FirstElement<'_>
    ensures { first_view result ≡ escaped (slice_get pattern.now 1) }
{
    match pattern.get(1) {
        Some(byte) => FirstElement::new(Element::Byte(*byte), 2),
        None => FirstElement::new(Element::Byte(b'\\'), 1),
    }
}

// The first element of a pattern that begins with this byte.
fn first_by(first: u8, pattern: &[u8]) -> FirstElement<'_>
    ensures { first_view result ≡ first_by first pattern.now }
{
    match first {
        b'*' => FirstElement::new(Element::Run, 1),
        b'?' => FirstElement::new(Element::Any, 1),
        b'[' => set_or_byte(pattern),
        b'\\' => escaped(pattern),
        _ => FirstElement::new(Element::Byte(first), 1),
    }
}

fn begins_range(others: &[u8]) -> bool
    ensures { result ≡ begins_range others.now }
{
    match others {
        [b'-', _, ..] => true,
        _ => false,
    }
}

// Whether the byte is in a set by one of its bytes, after which there are these others.
fn is_by(later: bool, one: u8, others: &[u8], byte: u8) -> bool
    ensures { result ≡ is_by later one others.now byte }
{
    if begins_range(others) {
        return one <= byte && byte <= others[1];
    }
    one == byte && !(later && one == b'-' && !others.is_empty())
}

fn is_in_set(set: &[u8], byte: u8) -> bool
    ensures { result ≡ is_in_set set.now byte }
{
    let mut later = false;
    let mut left = set;
    while let Some((one, others)) = left.split_first() {
        if is_by(later, *one, others, byte) {
            return true;
        }
        later = true;
        left = others;
    }
    false
}

impl Element<'_> {
    fn stands_for(&self, byte: u8) -> bool
        ensures { result ≡ stands_for (element_view self.now) byte }
    {
        match self {
            Element::Run | Element::Any => true,
            Element::Byte(one) => *one == byte,
            Element::Set { is_negated, set } => *is_negated != is_in_set(set, byte),
        }
    }
}

// A rest and all its ends, the longest first.
fn tails<'a>(alloc: Global, rest: &'a [u8]) -> Result<Vec<&'a [u8]>, AllocError>
    ensures { IfOk result (λ all. rests_view all.items ≡ tails rest.now) }
{
    let mut all = Vec::new(alloc);
    let mut left = rest;
    while let Some((_, others)) = left.split_first() {
        all.push(left)?;
        left = others;
    }
    all.push(left)?;
    Ok(all)
}

fn after_run<'a>(alloc: Global, rests: &[&'a [u8]]) -> Result<Vec<&'a [u8]>, AllocError>
    ensures { IfOk result (λ all. rests_view all.items ≡ after_run (rests_view rests.now)) }
{
    match rests {
        [longest, ..] => tails(alloc, longest),
        [] => Ok(Vec::new(alloc)),
    }
}

// Adds what is left of a rest after an element that stands for a byte.
fn add_after<'a>(
    element: &Element<'_>,
    rest: &'a [u8],
    all: &mut Vec<&'a [u8]>,
) -> Result<(), AllocError>
    ensures { OnOk result (rests_view all.new.items
        ≡ rests_view all.old.items ++ after_byte (element_view element.now) rest.now) }
{
    if let Some((first, others)) = rest.split_first() {
        if element.stands_for(*first) {
            all.push(others)?;
        }
    }
    Ok(())
}

fn after_bytes<'a>(
    alloc: Global,
    element: &Element<'_>,
    rests: &[&'a [u8]],
) -> Result<Vec<&'a [u8]>, AllocError>
    ensures { IfOk result (λ all. rests_view all.items
        ≡ flat_map (after_byte (element_view element.now)) (rests_view rests.now)) }
{
    let mut all = Vec::new(alloc);
    for rest in rests {
        add_after(element, rest, &mut all)?;
    }
    Ok(all)
}

// What is left after an element.
fn after<'a>(
    alloc: Global,
    element: &Element<'_>,
    rests: &[&'a [u8]],
) -> Result<Vec<&'a [u8]>, AllocError>
    ensures { IfOk result (λ all. rests_view all.items ≡ after (element_view element.now) (rests_view rests.now)) }
{
    match element {
        Element::Run => after_run(alloc, rests),
        _ => after_bytes(alloc, element, rests),
    }
}

// Goes on with the rests after the first byte of a pattern, if it is none of the `skip` bytes that are left of an
// element. Returns how many of the next bytes are left of one.
fn step<'a>(
    alloc: Global,
    pattern: &[u8],
    skip: usize,
    rests: &mut Vec<&'a [u8]>,
) -> Result<usize, AllocError>
    requires { 0 < length pattern.now }
    ensures { IfOk result (λ left. rests_after skip pattern.now (rests_view rests.old.items)
        ≡ rests_after left (drop 1 pattern.now) (rests_view rests.new.items)) }
{
    if skip > 0 {
        return Ok(skip - 1);
    }
    let first = first_by(pattern[0], pattern);
    *rests = after(alloc, &first.element, rests.as_slice())?;
    Ok(first.length.saturating_sub(1))
}

// What is left of a name after all of a pattern.
fn rests_after<'a>(
    alloc: Global,
    pattern: &[u8],
    name: &'a [u8],
) -> Result<Vec<&'a [u8]>, AllocError>
    ensures { IfOk result (λ rests. rests_view rests.items ≡ rests_after 0 pattern.now (name.now ∷ [])) }
{
    let mut rests = Vec::new(alloc);
    rests.push(name)?;
    let mut skip = 0;
    for place in 0..pattern.len() {
        skip = step(alloc, rest_of(place, pattern), skip, &mut rests)?;
    }
    Ok(rests)
}

fn has_empty(rests: &[&[u8]]) -> bool
    ensures { result ≡ list_any is_empty (rests_view rests.now) }
{
    for rest in rests {
        if rest.is_empty() {
            return true;
        }
    }
    false
}

fn is_shown(pattern: &[u8], name: &[u8]) -> bool
    ensures { result ≡ is_shown pattern.now name.now }
{
    !name.starts_with(b".") || pattern.starts_with(b".")
}

/// Returns whether a pattern matches a name. The time grows with the product of their lengths at most. The only error is
/// a failed allocation.
pub fn is_match(alloc: Global, pattern: &[u8], name: &[u8]) -> Result<bool, AllocError>
    ensures { IfOk result (λ found. found ≡ is_match pattern.now name.now) }
{
    if !is_shown(pattern, name) {
        return Ok(false);
    }
    let rests = rests_after(alloc, pattern, name)?;
    Ok(has_empty(rests.as_slice()))
}

fn is_special(byte: u8) -> bool
    ensures { result ≡ is_in (codes "*?[\\") byte }
{
    byte == b'*' || byte == b'?' || byte == b'[' || byte == b'\\'
}

/// Returns whether the text is a pattern of more than its own bytes.
pub fn is_pattern(name: &[u8]) -> bool
    ensures { result ≡ is_pattern name.now }
{
    for byte in name {
        if is_special(*byte) {
            return true;
        }
    }
    false
}
