//! Tables of records, and iterators over them.
use crate::user_types::even_byte::EvenByte;
use crate::user_types::loops::{all_items, count_items};
use crate::user_types::order::FileOrder;
use crate::user_types::triple::Triple;
use elf::endian::{AnyEndian, BigEndian, EndianParse, LittleEndian};
use elf::file::Class;
use elf::parse::{ParsingIterator, ParsingTable};
use std::alloc::{AllocError, Global};

/// Two records of three bytes, and two bytes too few for a third.
const EIGHT: [u8; 8] = [0, 1, 2, 3, 4, 5, 6, 7];

const LITTLE_TRIPLES: [Triple; 2] = [
    Triple {
        kind: 0,
        value: 0x0201,
    },
    Triple {
        kind: 3,
        value: 0x0504,
    },
];

const BIG_TRIPLES: [Triple; 2] = [
    Triple {
        kind: 0,
        value: 0x0102,
    },
    Triple {
        kind: 3,
        value: 0x0405,
    },
];

/// Whether the table in an order has these items, read in each way that there is.
fn has_triples<E: EndianParse>(
    alloc: Global,
    order: E,
    want: &[Triple],
) -> Result<bool, AllocError> {
    let table = ParsingTable::<'_, E, Triple>::new(order, Class::ELF64, &EIGHT);
    let mut records = ParsingIterator::<'_, E, Triple>::new(order, Class::ELF64, &EIGHT);
    let items = all_items(alloc, &table)?;
    Ok(
        items.as_slice() == want
            && count_items(&table) == want.len()
            && records.next() == want.first().copied()
            && table.into_iter().eq(want.iter().copied()),
    )
}

#[test]
fn a_table_keeps_its_order(rt: HostRuntime) -> Result<(), AllocError> {
    let alloc = rt.alloc();
    let are_little = has_triples(alloc, LittleEndian, &LITTLE_TRIPLES)?
        && has_triples(alloc, AnyEndian::Little, &LITTLE_TRIPLES)?
        && has_triples(alloc, FileOrder::LowFirst, &LITTLE_TRIPLES)?;
    let are_big = has_triples(alloc, BigEndian, &BIG_TRIPLES)?
        && has_triples(alloc, AnyEndian::Big, &BIG_TRIPLES)?
        && has_triples(alloc, FileOrder::HighFirst, &BIG_TRIPLES)?;
    assert!(rt; are_little && are_big, "{are_little} {are_big}");
    Ok(())
}

#[test]
fn a_refused_record_ends_the_iterator(rt: HostRuntime) {
    let table = ParsingTable::<'_, LittleEndian, EvenByte>::new(LittleEndian, Class::ELF32, &EIGHT);
    let is_counted = table.len() == 8 && count_items(&table) == 1;
    let mut bytes = table.iter();
    let three = [bytes.next(), bytes.next(), bytes.next()];
    let is_ended = three == [Some(EvenByte { value: 0 }), None, None];
    assert!(rt; is_counted && is_ended && table.get(6).ok() == Some(EvenByte { value: 6 }));
}
