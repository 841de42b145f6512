//! Files beside the program, as sources.
use crate::row_words::Words;
use crate::shown::Shown;
use elf::{FileSource, StreamSource};
use std::fs::File;
use std::{fs, io};

/// The size of the buffer of a read, in bytes: more than the longest file has.
const BUFFER: usize = 1 << 17;

/// `source FILE START`: whether a source over a file beside the program has the length of the file and its bytes from
/// START on, and whether one read can return more than 65,536 bytes of it; or the error of a read.
pub(crate) fn show_source(rt: &HostRuntime, words: &mut Words<'_>) -> Shown {
    let name = words.word();
    let start = words.number();
    let mut source = FileSource::new(File::open(rt, name)?);
    match read_from(rt, &mut source, start) {
        Ok(bytes) => show_compared(rt, name, start, &mut source, bytes.as_slice())?,
        Err(error) => print!(rt; "{error}")?,
    }
    Ok(())
}

/// The bytes of a source from a position on.
fn read_from(rt: &HostRuntime, source: &mut FileSource, start: u64) -> io::Result<Vec<u8>> {
    source.seek_start(start)?;
    let mut buffer = vec![in rt.alloc(); 0; BUFFER]?;
    let mut bytes = Vec::new(rt.alloc());
    for _ in 0..BUFFER {
        let count = source.read(&mut buffer)?;
        if count == 0 {
            break;
        }
        bytes.extend_from_slice(buffer.get(..count).unwrap_or_default())?;
    }
    Ok(bytes)
}

fn show_compared(
    rt: &HostRuntime,
    name: &str,
    start: u64,
    source: &mut FileSource,
    bytes: &[u8],
) -> io::Result<()> {
    let file = fs::read(rt, name)?;
    let is_length = source.seek_end()? == file.len() as u64;
    let is_rest = file.get(start as usize..) == Some(bytes);
    let is_long = file.len() > 65536;
    print!(rt; "length {is_length} bytes {is_rest} long {is_long}")
}
