//! The names of values.
use crate::row_words::Words;
use crate::shown::Shown;
use elf::to_str;
use std::alloc::{AllocError, Global};

/// `values KIND FROM TO`: each value from FROM to TO that has a name, and the name.
pub(crate) fn show_names(rt: &HostRuntime, words: &mut Words<'_>) -> Shown {
    let kind = words.word();
    let from = words.number();
    let to = words.number();
    for value in from..=to {
        if let Some(name) = name_of(kind, value) {
            print!(rt; "\n  {value} {name}")?;
        }
    }
    Ok(())
}

fn name_of(kind: &str, value: i64) -> Option<&'static str> {
    let byte = u8::try_from(value).ok();
    let half = u16::try_from(value).ok();
    let word = u32::try_from(value).ok();
    match kind {
        "e_osabi" => byte.and_then(to_str::e_osabi_to_str),
        "st_symtype" => byte.and_then(to_str::st_symtype_to_str),
        "st_bind" => byte.and_then(to_str::st_bind_to_str),
        "st_vis" => byte.and_then(to_str::st_vis_to_str),
        "e_type" => half.and_then(to_str::e_type_to_str),
        "e_type_human" => half.and_then(to_str::e_type_to_human_str),
        "e_machine" => half.and_then(to_str::e_machine_to_str),
        "e_machine_human" => half.and_then(to_str::e_machine_to_human_str),
        "d_tag" => to_str::d_tag_to_str(value),
        "sh_type" => word.and_then(to_str::sh_type_to_str),
        "p_type" => word.and_then(to_str::p_type_to_str),
        "ch_type" => word.and_then(to_str::ch_type_to_str),
        "note_abi_tag_os" => word.and_then(to_str::note_abi_tag_os_to_str),
        _ => None,
    }
}

/// `text KIND VALUE`: the value's name, or else its number.
pub(crate) fn show_value(rt: &HostRuntime, words: &mut Words<'_>) -> Shown {
    let text = value_text(rt.alloc(), words)?;
    print!(rt; "{text:?}")?;
    Ok(())
}

fn value_text(alloc: Global, words: &mut Words<'_>) -> Result<String, AllocError> {
    match words.word() {
        "e_osabi" => to_str::e_osabi_to_string(alloc, words.number()),
        "e_type" => to_str::e_type_to_string(alloc, words.number()),
        "e_machine" => to_str::e_machine_to_string(alloc, words.number()),
        "sh_type" => to_str::sh_type_to_string(alloc, words.number()),
        "p_type" => to_str::p_type_to_string(alloc, words.number()),
        "p_flags" => to_str::p_flags_to_string(alloc, words.number()),
        "st_symtype" => to_str::st_symtype_to_string(alloc, words.number()),
        "st_bind" => to_str::st_bind_to_string(alloc, words.number()),
        _ => to_str::st_vis_to_string(alloc, words.number()),
    }
}
