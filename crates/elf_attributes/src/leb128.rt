//! Numbers and texts of any length.
ghost use Rattle.std.specs.Prelude.{◌≡◌, nat_lt};
ghost use Rattle.std.specs.List.{position};
ghost use Rattle.elf_records.specs.Number.{ok_map};
ghost use Rattle.elf_attributes.specs.Leb128.{after_list, first_number, first_text, item_view, leb_number, with_group};

use crate::attributes::AttributeError;
use elf_records::string_table::first_nul;

/// Returns the number that begins bytes, in LEB128 without a sign, and the bytes after it.
pub fn first_number(bytes: &[u8]) -> Result<(u64, &[u8]), AttributeError>
    ensures { ok_map (λ found. (found.0, found.1.now)) result ≡ first_number bytes.now }
{
    let Some(last) = last_group(bytes) else {
        return Err(AttributeError::EndlessNumber);
    };
    match leb_number(&bytes[..last + 1]) {
        Some(number) => Ok((number, &bytes[last + 1..])),
        None => Err(AttributeError::LargeNumber),
    }
}

// The place of the first byte whose high bit is not set.
fn last_group(bytes: &[u8]) -> Option<usize>
    ensures { result ≡ position (λ byte. nat_lt byte 128) bytes.now }
{
    bytes.iter().position(|byte| *byte < 128)
}

// The number of these bytes, if it has at most 64 bits.
fn leb_number(bytes: &[u8]) -> Option<u64>
    ensures { result ≡ leb_number bytes.now }
{
    let mut number = Some(0);
    let mut left = bytes.len();
    while left > 0 {
        left -= 1;
        number = with_group(number, bytes[left]);
    }
    number
}

// A number with seven more bits below it.
fn with_group(number: Option<u64>, byte: u8) -> Option<u64>
    ensures { result ≡ with_group number byte }
{
    number?.checked_mul(128)?.checked_add((byte % 128) as u64)
}

/// Returns the bytes before the first 0 byte, and those after it.
pub fn first_text(bytes: &[u8]) -> Result<(&[u8], &[u8]), AttributeError>
    ensures { ok_map item_view result ≡ first_text bytes.now }
{
    match first_nul(bytes) {
        Some(end) => Ok((&bytes[..end], &bytes[end + 1..])),
        None => Err(AttributeError::EndlessText),
    }
}

/// Returns the bytes after the numbers that begin bytes, up to a number 0, which ends them.
pub fn after_list(bytes: &[u8]) -> Result<&[u8], AttributeError>
    ensures { ok_map (λ rest. rest.now) result ≡ after_list bytes.now bytes.now }
{
    let mut rest = bytes;
    let mut left = bytes;
    while let Some((_first, others)) = left.split_first() {
        let (number, after) = first_number(rest)?;
        if number == 0 {
            return Ok(after);
        }
        rest = after;
        left = others;
    }
    Err(AttributeError::EndlessNumber)
}
