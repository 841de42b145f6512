//! Tables of strings.
use crate::row_words::Words;
use crate::shown::{Shown, show};
use elf::string_table::StringTable;

/// `string OFFSET BYTES`: the bytes of the string, and its text.
pub(crate) fn show_string(rt: &HostRuntime, words: &mut Words<'_>) -> Shown {
    let offset = words.number();
    let data = words.bytes(rt);
    let strings = StringTable::new(data.as_slice());
    show(rt, strings.get_raw(offset))?;
    print!(rt; "; ")?;
    show(rt, strings.get(offset))
}
