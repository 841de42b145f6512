//! Packed relative relocations.
use crate::row_words::Words;
use crate::shown::Shown;
use elf_dynamic::relr::{RelrIterator, RelrTable};

/// `relr ORDER CLASS BYTES`: the addresses of the relocations.
pub(crate) fn show_relr(rt: &HostRuntime, words: &mut Words<'_>) -> Shown {
    let order = words.order();
    let class = words.class();
    let data = words.bytes(rt);
    let table = RelrTable::new(order, class, data.as_slice());
    for address in RelrIterator::new(&table) {
        print!(rt; "\n    {address:#x}")?;
    }
    Ok(())
}
