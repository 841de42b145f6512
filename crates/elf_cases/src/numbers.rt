//! Numbers, and the orders of their bytes.
use crate::row_words::Words;
use crate::shown::{Shown, show};
use elf::endian::{AnyEndian, BigEndian, EndianParse, LittleEndian};
use std::fmt::Debug;

/// `number KIND ORDER OFFSET BYTES`: the number, and the offset afterwards.
pub(crate) fn show_number(rt: &HostRuntime, words: &mut Words<'_>) -> Shown {
    let kind = words.word();
    let order = words.word();
    let offset = words.number();
    let data = words.bytes(rt);
    let data = data.as_slice();
    match order {
        "LittleEndian" => show_number_by(rt, LittleEndian, kind, offset, data),
        "BigEndian" => show_number_by(rt, BigEndian, kind, offset, data),
        "little" => show_number_by(rt, AnyEndian::Little, kind, offset, data),
        _ => show_number_by(rt, AnyEndian::Big, kind, offset, data),
    }
}

fn show_number_by<E: EndianParse>(
    rt: &HostRuntime,
    order: E,
    kind: &str,
    start: usize,
    data: &[u8],
) -> Shown {
    let mut offset = start;
    match kind {
        "u8" => show(rt, order.parse_u8_at(&mut offset, data)),
        "u16" => show(rt, order.parse_u16_at(&mut offset, data)),
        "u32" => show(rt, order.parse_u32_at(&mut offset, data)),
        "u64" => show(rt, order.parse_u64_at(&mut offset, data)),
        "i32" => show(rt, order.parse_i32_at(&mut offset, data)),
        _ => show(rt, order.parse_i64_at(&mut offset, data)),
    }?;
    print!(rt; " offset {offset}")?;
    Ok(())
}

/// `order TYPE BYTE`: the order that the byte names, and its properties.
pub(crate) fn show_order(rt: &HostRuntime, words: &mut Words<'_>) -> Shown {
    let kind = words.word();
    let data = words.bytes(rt);
    let Some(byte) = data.first().copied() else {
        return Ok(words.refuse("no byte"));
    };
    match kind {
        "LittleEndian" => show_order_by::<LittleEndian>(rt, byte),
        "BigEndian" => show_order_by::<BigEndian>(rt, byte),
        _ => show_order_by::<AnyEndian>(rt, byte),
    }
}

fn show_order_by<E: EndianParse + Debug>(rt: &HostRuntime, byte: u8) -> Shown {
    let order = E::from_ei_data(byte)?;
    let little = order.is_little();
    let big = order.is_big();
    let is_default = order == E::default();
    print!(rt; "{order:?} little {little} big {big} default {is_default}")?;
    Ok(())
}
