//! Files with changed bytes: a small file serves as many damaged ones.
use std::io;
use std::io::ErrorKind;

/// Changes bytes as the parts of a word say: `46=29ff,2=00` writes two bytes from offset 46 on, and one at offset 2.
/// Offsets are decimal, and bytes two hexadecimal digits each. Another word, or a place past the end, is an error.
pub(crate) fn change(data: &mut [u8], changes: &str) -> io::Result<()> {
    for change in changes.split(',') {
        match change.split_once('=') {
            Some((offset, digits)) => write_digits(data, number(offset)?, digits)?,
            None => return Err(wrong("a change without `=`")),
        }
    }
    Ok(())
}

fn wrong(reason: &str) -> io::Error {
    io::Error::new(ErrorKind::InvalidInput, reason)
}

fn number(word: &str) -> io::Result<usize> {
    match word.parse() {
        Ok(number) => Ok(number),
        Err(_) => Err(wrong("an offset that is no number")),
    }
}

// Writes the bytes of digits from an offset on.
fn write_digits(data: &mut [u8], offset: usize, digits: &str) -> io::Result<()> {
    for (place, pair) in digits.as_bytes().chunks(2).enumerate() {
        let byte = byte_of(pair).ok_or(wrong("a byte that is not two digits"))?;
        let place = offset.saturating_add(place);
        *data.get_mut(place).ok_or(wrong("a change past the end"))? = byte;
    }
    Ok(())
}

// The byte of two hexadecimal digits.
fn byte_of(pair: &[u8]) -> Option<u8> {
    match pair {
        [high, low] => Some(digit_value(*high)? << 4 | digit_value(*low)?),
        _ => None,
    }
}

/// The value of a hexadecimal digit.
pub(crate) fn digit_value(digit: u8) -> Option<u8> {
    match digit {
        b'0'..=b'9' => Some(digit - b'0'),
        b'a'..=b'f' => Some(digit - b'a' + 10),
        _ => None,
    }
}
