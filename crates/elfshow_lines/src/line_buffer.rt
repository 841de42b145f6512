//! The buffer that lines are put together in, and the pieces of a line.
ghost use Rattle.std.specs.Prelude.{◌≡◌, ◌*◌, ◌<◌, ◌≤◌, ℕ, List, [], drop, false, take, OnOk};
ghost use Rattle.std.specs.Prelude.{Option, Some, is_none};
ghost use Rattle.std.specs.List.{flat_map};
ghost use Rattle.std.specs.Fmt.{decimal, digits, digit_glyph, signed_decimal};
ghost use Rattle.std.specs.Io.KnownBytes.{Appends};
ghost use Rattle.elfshow_lines.specs.Pieces.{◌⧺◌, escape, escaped_text, hex, hex_of, hex_pair};
ghost use Rattle.elfshow_lines.specs.Adding.{Adds, waiting_text};

mod pairs;
mod plain;

use crate::line_buffer::pairs::{BLOCK, fill_pairs, pairs_of_block};
use crate::line_buffer::plain::{are_plain, is_plain};
use std::io;
use std::io::Write;
use std::marker::Model;

// The bytes of lines that are put together before they are written.
const ROOM: usize = 1024;

// The number of digits that a number of 64 bits may have in base 2.
const MAX_DIGITS: usize = 64;

/// Lines before they are written. What does not fit any more is written first, to the writer `out` that each method
/// takes. If that fails, nothing more is written, and `end` returns the error: a line has too many pieces to return it
/// from each.
#[derive(Drop)]
pub struct LineBuffer {
    bytes: [u8; ROOM],
    used: usize,
    failure: Option<io::Error>,
}

impl Model for LineBuffer {
    ghost Value = { Option (List ℕ) };

    ghost view = { λ b. waiting_text b.failure (take b.used b.bytes) };

    ghost invariant = { λ b. b.used ≤ 1024 };
}

impl LineBuffer {
    /// A buffer in which nothing waits.
    pub fn empty() -> LineBuffer
        ensures { result ≡ Some [] }
    {
        LineBuffer {
            bytes: [0; ROOM],
            used: 0,
            failure: None,
        }
    }

    /// Whether a write failed, so that `end` returns its error.
    pub fn has_failed(&self) -> bool
        ensures { result ≡ is_none self.now }
    {
        self.failure.is_some()
    }

    /// Writes what waits.
    pub fn end<W: Write>(self, out: &mut W) -> io::Result<()>
        ensures { OnOk result ((text : List ℕ) × (self ≡ Some text)
            × Appends (W.contents out.old) (W.contents out.new) text) }
    {
        match self.failure {
            Some(error) => Err(error),
            None => out.write_all(&self.bytes[..self.used]),
        }
    }

    /// Adds bytes.
    // Inlined, so that the length of a label is a constant when it is copied.
    #[inline(always)]
    fn put<W: Write>(&mut self, text: &[u8], out: &mut W)
        ensures { Adds (W.contents out.old) self.old (W.contents out.new) self.new text.now }
    {
        if text.len() > ROOM - self.used {
            self.put_through(text, out);
            return;
        }
        let end = self.used + text.len();
        self.bytes[self.used..end].copy_from_slice(text);
        self.used = end;
    }

    // Adds bytes that do not fit any more.
    #[inline(never)]
    fn put_through<W: Write>(&mut self, text: &[u8], out: &mut W)
        ensures { Adds (W.contents out.old) self.old (W.contents out.new) self.new text.now }
    {
        if self.failure.is_none() {
            self.failure = write_both(&self.bytes[..self.used], text, out).err();
        }
        self.used = 0;
    }

    /// Adds a text.
    #[inline(always)]
    pub fn text<W: Write>(&mut self, text: &str, out: &mut W)
        ensures { Adds (W.contents out.old) self.old (W.contents out.new) self.new text.now }
    {
        self.put(text.as_bytes(), out);
    }

    /// Adds a label and a number in decimal.
    #[inline(always)]
    pub fn decimal<W: Write>(&mut self, label: &str, n: u64, out: &mut W)
        ensures { Adds (W.contents out.old) self.old (W.contents out.new) self.new
            (label.now ⧺ decimal n) }
    {
        self.put(label.as_bytes(), out);
        self.put_decimal(n, out);
    }

    // Most numbers of a listing have one digit.
    #[tactic(auto, using(crate::proofs::Digits::one_digit))]
    #[inline(always)]
    fn put_decimal<W: Write>(&mut self, n: u64, out: &mut W)
        ensures { Adds (W.contents out.old) self.old (W.contents out.new) self.new (decimal n) }
    {
        if n < 10 {
            self.put(&[digit(n as u8)], out);
            return;
        }
        self.put_decimal_digits(n, out);
    }

    #[inline(never)]
    fn put_decimal_digits<W: Write>(&mut self, n: u64, out: &mut W)
        ensures { Adds (W.contents out.old) self.old (W.contents out.new) self.new (decimal n) }
    {
        let mut room = [0; MAX_DIGITS];
        let start = fill_decimal(n, &mut room);
        self.put(&room[start..], out);
    }

    /// Adds a number in hexadecimal, without `0x`.
    #[inline(never)]
    pub fn digits<W: Write>(&mut self, n: u64, out: &mut W)
        ensures { Adds (W.contents out.old) self.old (W.contents out.new) self.new (digits 16 false n) }
    {
        let mut room = [0; MAX_DIGITS];
        let start = fill_digits(16, n, &mut room);
        self.put(&room[start..], out);
    }

    /// Adds a label and a number with a sign, in decimal.
    #[inline(always)]
    pub fn signed<W: Write>(&mut self, label: &str, n: i64, out: &mut W)
        ensures { Adds (W.contents out.old) self.old (W.contents out.new) self.new
            (label.now ⧺ signed_decimal n) }
    {
        self.put(label.as_bytes(), out);
        self.put_signed(n, out);
    }

    #[inline(never)]
    fn put_signed<W: Write>(&mut self, n: i64, out: &mut W)
        ensures { Adds (W.contents out.old) self.old (W.contents out.new) self.new (signed_decimal n) }
    {
        if n < 0 {
            self.put(b"-", out);
        }
        self.put_decimal(n.unsigned_abs(), out);
    }

    /// Adds a label and a number in hexadecimal, after `0x`.
    #[inline(always)]
    pub fn hex<W: Write>(&mut self, label: &str, n: u64, out: &mut W)
        ensures { Adds (W.contents out.old) self.old (W.contents out.new) self.new (label.now ⧺ hex n) }
    {
        self.put(label.as_bytes(), out);
        self.put(b"0x", out);
        self.digits(n, out);
    }

    /// Adds a label and a text, escaped.
    #[inline(always)]
    pub fn escaped_text<W: Write>(&mut self, label: &str, text: &[u8], out: &mut W)
        ensures { Adds (W.contents out.old) self.old (W.contents out.new) self.new
            (label.now ⧺ escaped_text text.now) }
    {
        self.put(label.as_bytes(), out);
        self.put_text(text, out);
    }

    #[inline(never)]
    fn put_text<W: Write>(&mut self, text: &[u8], out: &mut W)
        ensures { Adds (W.contents out.old) self.old (W.contents out.new) self.new (escaped_text text.now) }
    {
        if are_plain(text) {
            self.put(text, out);
            return;
        }
        self.put_escaped(text, out);
    }

    /// Adds a plain byte as it is, each other byte as `\x` and two digits.
    #[inline(never)]
    fn put_escaped<W: Write>(&mut self, text: &[u8], out: &mut W)
        ensures { Adds (W.contents out.old) self.old (W.contents out.new) self.new (escaped_text text.now) }
    {
        for byte in text {
            if is_plain(*byte) {
                self.put(&[*byte], out);
            } else {
                self.put(&escape(*byte), out);
            }
        }
    }

    /// Adds a label and two digits for each byte, with nothing between them.
    #[inline(always)]
    pub fn bytes<W: Write>(&mut self, label: &str, bytes: &[u8], out: &mut W)
        ensures { Adds (W.contents out.old) self.old (W.contents out.new) self.new
            (label.now ⧺ hex_of bytes.now) }
    {
        self.put(label.as_bytes(), out);
        self.put_pairs(bytes, out);
    }

    // Adds two digits for each byte. The room is checked once for all of them.
    #[inline(never)]
    fn put_pairs<W: Write>(&mut self, bytes: &[u8], out: &mut W)
        ensures { Adds (W.contents out.old) self.old (W.contents out.new) self.new (hex_of bytes.now) }
    {
        if bytes.len() > (ROOM - self.used) / 2 {
            self.put_many_pairs(bytes, out);
            return;
        }
        let end = self.used + 2 * bytes.len();
        fill_pairs(bytes, &mut self.bytes[self.used..end]);
        self.used = end;
    }

    // Adds two digits for each byte, if they do not all fit any more.
    #[inline(never)]
    fn put_many_pairs<W: Write>(&mut self, bytes: &[u8], out: &mut W)
        ensures { Adds (W.contents out.old) self.old (W.contents out.new) self.new (hex_of bytes.now) }
    {
        let (blocks, rest) = bytes.as_chunks();
        self.put_blocks(blocks, out);
        self.put_bytes(rest, out);
    }

    fn put_blocks<W: Write>(&mut self, blocks: &[[u8; BLOCK]], out: &mut W)
        ensures { Adds (W.contents out.old) self.old (W.contents out.new) self.new (flat_map hex_of blocks.now) }
    {
        for block in blocks {
            self.put(&pairs_of_block(block).to_array(), out);
        }
    }

    fn put_bytes<W: Write>(&mut self, bytes: &[u8], out: &mut W)
        ensures { Adds (W.contents out.old) self.old (W.contents out.new) self.new (hex_of bytes.now) }
    {
        for byte in bytes {
            self.put(&hex_digits(*byte), out);
        }
    }
}

fn write_both<W: Write>(first: &[u8], second: &[u8], out: &mut W) -> io::Result<()>
    ensures { OnOk result (Appends (W.contents out.old) (W.contents out.new) (first.now ⧺ second.now)) }
{
    out.write_all(first)?;
    out.write_all(second)
}

/// Fills the end of `room` with the digits of a number, and returns the index of the first one.
// Inlined, so that the base is a constant when numbers are divided by it.
#[tactic(auto, using(crate::proofs::Digits::digits_more, crate::proofs::Digits::digits_end))]
#[inline(always)]
fn fill_digits(base: u64, n: u64, room: &mut [u8; MAX_DIGITS]) -> usize
    requires { (0 < base) × (base ≤ 16) }
    ensures within { result ≤ 64 }
    ensures digits { drop result room.new ≡ digits base false n }
{
    let mut left = n;
    let mut start = MAX_DIGITS;
    while start > 0 {
        start -= 1;
        room[start] = digit((left % base) as u8);
        left /= base;
        if left == 0 {
            return start;
        }
    }
    start
}

/// Fills the end of `room` with the decimal digits of a number, two by two, and returns the index of the first one.
fn fill_decimal(n: u64, room: &mut [u8; MAX_DIGITS]) -> usize
    ensures within { result ≤ 64 }
    ensures digits { drop result room.new ≡ decimal n }
{
    let mut left = n;
    let mut pairs = MAX_DIGITS / 2;
    while pairs > 0 {
        pairs -= 1;
        let pair = left % 100;
        left /= 100;
        room[2 * pairs + 1] = digit((pair % 10) as u8);
        room[2 * pairs] = digit((pair / 10) as u8);
        if left == 0 {
            return if pair < 10 { 2 * pairs + 1 } else { 2 * pairs };
        }
    }
    2 * pairs
}

/// The escape of a byte that is not plain.
fn escape(byte: u8) -> [u8; 4]
    ensures { result ≡ escape byte }
{
    let [high, low] = hex_digits(byte);
    [b'\\', b'x', high, low]
}

fn hex_digits(byte: u8) -> [u8; 2]
    ensures { result ≡ hex_pair byte }
{
    [digit(byte / 16), digit(byte % 16)]
}

fn digit(n: u8) -> u8
    requires { n < 16 }
    ensures { result ≡ digit_glyph false n }
{
    if n < 10 { b'0' + n } else { b'a' + (n - 10) }
}
