//! Links to files with debug information.
use crate::row_words::Words;
use crate::shown::{Shown, show, text};
use elf_tools::debug_link::{debug_alt_link, debug_link};

/// `debug_link ORDER BYTES`: the name and the checksum.
pub(crate) fn show_link(rt: &HostRuntime, words: &mut Words<'_>) -> Shown {
    let order = words.order();
    let data = words.bytes(rt);
    let found = debug_link(order, data.as_slice());
    show(rt, found.map(|link| (text(link.name), link.crc)))
}

/// `debug_alt_link BYTES`: the name and the build ID.
pub(crate) fn show_alt_link(rt: &HostRuntime, words: &mut Words<'_>) -> Shown {
    let data = words.bytes(rt);
    let found = debug_alt_link(data.as_slice());
    show(rt, found.map(|link| (text(link.name), link.build_id)))
}
