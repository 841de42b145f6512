//! How many items iterators yield, and that they stay ended.
ghost use Rattle.std.specs.Iterator.{IsFinite};

use crate::row_words::Words;
use crate::shown::Shown;
use elf::dynamic::Dyn;
use elf::endian::AnyEndian;
use elf::file::Class;
use elf::gnu_symver::{
    SymbolNamesIterator, VerDefAuxIterator, VerDefIterator, VerNeedAuxIterator, VerNeedIterator,
};
use elf::note::NoteIterator;
use elf::parse::{ParseAt, ParsingIterator};
use elf::relocation::Rela;
use elf::section::SectionHeader;
use elf::string_table::StringTable;
use elf::symbol::Symbol;

/// `ends KIND ORDER CLASS COUNT BYTES`: whether the iterator over the bytes starting at each place yields no more items
/// than bytes, and no more linked records than the count, and then `None` three times. For notes the count is the
/// alignment, for records of a table it is ignored. For linked records the greatest offset, which has none, is tried
/// too.
pub(crate) fn show_ends(rt: &HostRuntime, words: &mut Words<'_>) -> Shown {
    let kind = words.word();
    let order = words.order();
    let class = words.class();
    let count = words.number();
    let data = words.bytes(rt);
    let row = Row {
        order,
        class,
        count,
    };
    for place in 0..=data.len() {
        let (_, rest) = data.as_slice().split_at(place);
        if !is_ended(row, kind, rest) {
            return Ok(print!(rt; "goes on from place {place}")?);
        }
    }
    print!(rt; "few items, then None three times")?;
    Ok(())
}

/// The arguments of a row for an iterator.
#[derive(Clone, Copy)]
struct Row {
    order: AnyEndian,
    class: Class,
    count: u64,
}

fn is_ended(row: Row, kind: &str, data: &[u8]) -> bool {
    let Row {
        order,
        class,
        count,
    } = row;
    // How many linked records there may be.
    let most = data.len().min(count as usize);
    let start = usize::MAX;
    match kind {
        "NoteIterator" => is_few(
            NoteIterator::new(order, class, count as usize, data),
            data.len(),
        ),
        "VerDefIterator" => {
            is_few(VerDefIterator::new(order, class, count, 0, data), most)
                && is_few(VerDefIterator::new(order, class, count, start, data), 0)
        }
        "VerNeedIterator" => {
            is_few(VerNeedIterator::new(order, class, count, 0, data), most)
                && is_few(VerNeedIterator::new(order, class, count, start, data), 0)
        }
        "SectionHeader" => is_table_ended::<SectionHeader>(row, data),
        "Symbol" => is_table_ended::<Symbol>(row, data),
        "Rela" => is_table_ended::<Rela>(row, data),
        "Dyn" => is_table_ended::<Dyn>(row, data),
        "u32" => is_table_ended::<u32>(row, data),
        _ => match u16::try_from(count) {
            Ok(count) => is_aux_ended(row, kind, count, data),
            Err(_) => false,
        },
    }
}

fn is_table_ended<P: ParseAt + Drop>(row: Row, data: &[u8]) -> bool {
    is_few(
        ParsingIterator::<'_, AnyEndian, P>::new(row.order, row.class, data),
        data.len(),
    )
}

fn is_aux_ended(row: Row, kind: &str, count: u16, data: &[u8]) -> bool {
    let most = data.len().min(count as usize);
    let names = VerDefAuxIterator::new(row.order, row.class, count, 0, data);
    match kind {
        "VerDefAuxIterator" => is_few(names, most),
        "SymbolNamesIterator" => {
            let strings = StringTable::new(data);
            is_few(SymbolNamesIterator::new(names, &strings), most)
        }
        "VerNeedAuxIterator" => is_few(
            VerNeedAuxIterator::new(row.order, row.class, count, 0, data),
            most,
        ),
        _ => false,
    }
}

fn is_few<I: Iterator + Drop>(items: I, most: usize) -> bool
where
    I::Item: Drop,
    requires can { (items : I) → I.can_next items }
    requires finite { IsFinite (I.remaining items) }
{
    let mut items = items;
    for _ in 0..most {
        if items.next().is_none() {
            break;
        }
    }
    items.next().is_none() && items.next().is_none() && items.next().is_none()
}
