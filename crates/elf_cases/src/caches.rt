//! The cache of the dynamic linker.
use crate::row_words::Words;
use crate::shown::{Shown, text};
use elf_libraries::cache::{LibraryFlags, LinkerCache};
use std::io;

/// `cache ORDER CLASS MACHINE NAME HWCAPS FILE CHANGE..`: the path that the cache has for the name, with the subfolders
/// for processors `HWCAPS`, commas between them, or `-`.
pub(crate) fn show_cache(rt: &HostRuntime, words: &mut Words<'_>) -> Shown {
    let order = words.order();
    let class = words.class();
    let flags = LibraryFlags::of(words.number(), class);
    let name = words.word();
    let mut hwcaps = Vec::new(rt.alloc());
    push_parts(&mut hwcaps, ',', words.word())?;
    let data = words.file(rt);
    match LinkerCache::new(order, data.as_slice()) {
        Ok(cache) => {
            let found = cache.lookup(&flags, hwcaps.as_slice(), name.as_bytes());
            print!(rt; "{}", found.map_or("none", text))?;
        }
        Err(error) => print!(rt; "{error:?}, {error}")?,
    }
    Ok(())
}

/// Adds the parts of a word, with a separator between them; `-` has none.
pub(crate) fn push_parts<'a>(
    parts: &mut Vec<&'a [u8]>,
    separator: char,
    word: &'a str,
) -> io::Result<()> {
    if word != "-" {
        for part in word.split(separator) {
            parts.push(part.as_bytes())?;
        }
    }
    Ok(())
}
