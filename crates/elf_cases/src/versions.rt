//! Records of symbol versions, and the versions of symbols.
use crate::row_words::Words;
use crate::shown::{Shown, show, show_each};
use crate::version_words::VersionBytes;
use elf::endian::AnyEndian;
use elf::gnu_symver::{VerDefIterator, VerNeedIterator};

/// `linked KIND ORDER CLASS COUNT START BYTES`: the linked records, each with its auxiliary ones.
pub(crate) fn show_linked(rt: &HostRuntime, words: &mut Words<'_>) -> Shown {
    let kind = words.word();
    let order = words.order();
    let class = words.class();
    let count = words.number();
    let start = words.number();
    let data = words.bytes(rt);
    let data = data.as_slice();
    if kind == "VerDef" {
        for (record, names) in VerDefIterator::new(order, class, count, start, data) {
            print!(rt; "\n    {record:?}")?;
            show_each(rt, " ", names)?;
        }
    } else {
        for (record, versions) in VerNeedIterator::new(order, class, count, start, data) {
            print!(rt; "\n    {record:?}")?;
            show_each(rt, " ", versions)?;
        }
    }
    Ok(())
}

/// `version ORDER CLASS SYMBOL INDEXES COUNT NEEDS STRINGS COUNT DEFINITIONS STRINGS`: the version that a symbol
/// needs, and the one that it is defined with. The count `-` means no records at all.
pub(crate) fn show_version(rt: &HostRuntime, words: &mut Words<'_>) -> Shown {
    let order = words.order();
    let class = words.class();
    let symbol = words.number();
    let bytes = VersionBytes::read(rt, order, class, words);
    let table = bytes.table();
    show(rt, table.get_requirement(symbol))?;
    print!(rt; "; ")?;
    let Some(definition) = table.get_definition(symbol)? else {
        return Ok(print!(rt; "None")?);
    };
    let (hash, flags, hidden) = (definition.hash, definition.flags, definition.hidden);
    print!(rt; "hash {hash} flags {flags} hidden {hidden}")?;
    for name in definition.names {
        print!(rt; " ")?;
        show(rt, name)?;
    }
    Ok(())
}
