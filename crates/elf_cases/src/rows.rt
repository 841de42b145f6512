//! Rows of cases as text: their bytes, their numbers, and the small files that they speak of.
use std::alloc::{AllocError, AllocFailed, Global};
use std::str::FromStr;
use std::{fs, io};
use thiserror::Error;

/// Why a row was not run.
#[derive(Debug, Drop, Error)]
pub(crate) enum RowError {
    #[error("{0}")]
    File(#[from] io::Error),
    #[error("out of memory")]
    Memory(#[from] AllocError),
    #[error("a row has {0}")]
    Form(&'static str),
}

impl<T: Drop> From<AllocFailed<T>> for RowError {
    fn from(_error: AllocFailed<T>) -> RowError {
        RowError::Memory(AllocError)
    }
}

/// The bytes that a word of a row gives: two hexadecimal digits each. The word `-` means none,
/// and `@NAME` for those of the small file NAME.
pub(crate) fn bytes_of(rt: &HostRuntime, word: &str) -> Result<Vec<u8>, RowError> {
    if let Some(name) = word.strip_prefix("@") {
        return file_bytes(rt, name);
    }
    let mut bytes = Vec::new(rt.alloc());
    if word != "-" {
        push_bytes(&mut bytes, word)?;
    }
    Ok(bytes)
}

/// The bytes of a small file, which is written as lines of hexadecimal digits.
fn file_bytes(rt: &HostRuntime, name: &str) -> Result<Vec<u8>, RowError> {
    let text = fs::read_to_string(rt, name)?;
    let mut bytes = Vec::new(rt.alloc());
    for line in text.lines() {
        push_bytes(&mut bytes, line)?;
    }
    Ok(bytes)
}

fn push_bytes(bytes: &mut Vec<u8>, digits: &str) -> Result<(), RowError> {
    let mut high = None;
    for digit in digits.bytes() {
        let value = digit_value(digit).ok_or(RowError::Form("a digit that is not hexadecimal"))?;
        match high {
            None => high = Some(value),
            Some(first) => {
                bytes.push(first << 4 | value)?;
                high = None;
            }
        }
    }
    match high {
        None => Ok(()),
        Some(_) => Err(RowError::Form("half a byte")),
    }
}

fn digit_value(digit: u8) -> Option<u8> {
    match digit {
        b'0'..=b'9' => Some(digit - b'0'),
        b'a'..=b'f' => Some(digit - b'a' + 10),
        _ => None,
    }
}

/// The bytes of a small file with changes, as the words `FILE CHANGE..` say.
pub(crate) fn changed_file(rt: &HostRuntime, file: &str) -> Result<Vec<u8>, RowError> {
    let mut words = file.split_whitespace();
    let name = words.next().ok_or(RowError::Form("no file"))?;
    let mut data = file_bytes(rt, name)?;
    for word in words {
        change(&mut data, rt.alloc(), word)?;
    }
    Ok(data)
}

/// Changes the bytes of a file as the words say: `46=29ff` writes bytes from place 46 on, `cut=100` leaves the first
/// 100 bytes alone, `more=00ff` puts bytes after the file, and `pad=100` puts zeros after it until it has 100 bytes.
fn change(data: &mut Vec<u8>, alloc: Global, edit: &str) -> Result<(), RowError> {
    let (place, bytes) = edit
        .split_once('=')
        .ok_or(RowError::Form("a change without `=`"))?;
    match place {
        "cut" => data.truncate(number(bytes)?),
        "more" => push_bytes(data, bytes)?,
        "pad" => data.resize(number::<usize>(bytes)?.max(data.len()), 0)?,
        _ => {
            let mut new = Vec::new(alloc);
            push_bytes(&mut new, bytes)?;
            write_at(data, number(place)?, new.as_slice())?;
        }
    }
    Ok(())
}

fn write_at(data: &mut Vec<u8>, start: usize, new: &[u8]) -> Result<(), RowError> {
    for (k, byte) in new.iter().enumerate() {
        let place = start
            .checked_add(k)
            .ok_or(RowError::Form("a change far away"))?;
        *data
            .get_mut(place)
            .ok_or(RowError::Form("a change past the end of the file"))? = *byte;
    }
    Ok(())
}

/// The number that a word gives, in decimal.
pub(crate) fn number<T: FromStr>(word: &str) -> Result<T, RowError>
where
    T::Err: Drop,
{
    match word.parse() {
        Ok(n) => Ok(n),
        Err(_) => Err(RowError::Form("a number that is none")),
    }
}
