//! Build attributes.
use crate::row_words::Words;
use crate::shown::{Shown, show};
use elf_attributes::attributes::{
    Vendor, first_attribute, first_scope, first_subsection, subsections_of,
};
use elf_attributes::leb128::{after_list, first_number, first_text};

/// `attributes KIND ORDER BYTES`: the first `number`, `text`, `list`, `subsection` or `scope` of the bytes, or the first
/// attribute of the vendor `arm`, `riscv` or `gnu`, and the bytes after it; or the `subsections` of a section.
pub(crate) fn show_attributes(rt: &HostRuntime, words: &mut Words<'_>) -> Shown {
    let kind = words.word();
    let order = words.order();
    let data = words.bytes(rt);
    let data = data.as_slice();
    match kind {
        "number" => show(rt, first_number(data)),
        "text" => show(rt, first_text(data)),
        "list" => show(rt, after_list(data)),
        "subsections" => show(rt, subsections_of(data)),
        "subsection" => {
            let found = first_subsection(order, data);
            show(
                rt,
                found.map(|(part, rest)| (part.vendor, part.content, rest)),
            )
        }
        "scope" => {
            let found = first_scope(order, data);
            show(rt, found.map(|(part, rest)| (part.tag, part.content, rest)))
        }
        "arm" => show_attribute(rt, Vendor::Arm, data),
        "riscv" => show_attribute(rt, Vendor::Riscv, data),
        _ => show_attribute(rt, Vendor::Gnu, data),
    }
}

fn show_attribute(rt: &HostRuntime, vendor: Vendor, data: &[u8]) -> Shown {
    let found = first_attribute(vendor, data);
    show(
        rt,
        found.map(|(one, rest)| (one.tag, one.number, one.text, rest)),
    )
}
