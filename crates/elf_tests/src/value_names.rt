//! Texts of values when allocations fail, and that no value has two names.
use crate::memory::all_memory;
use elf::to_str;
use std::alloc::{AllocError, Global};

#[test]
fn a_value_has_one_name(rt: HostRuntime) {
    to_str::each_value_has_one_name();
    assert!(rt; to_str::d_tag_to_str(i64::MIN).is_none());
}

/// Whether each text of a value is refused.
fn is_refused(alloc: Global, value: u8) -> bool {
    let half = u16::from(value);
    let word = u32::from(value);
    to_str::e_osabi_to_string(alloc, value).is_err()
        && to_str::e_type_to_string(alloc, half).is_err()
        && to_str::e_machine_to_string(alloc, half).is_err()
        && to_str::sh_type_to_string(alloc, word).is_err()
        && to_str::p_flags_to_string(alloc, word).is_err()
        && to_str::p_type_to_string(alloc, word).is_err()
        && to_str::st_symtype_to_string(alloc, value).is_err()
        && to_str::st_bind_to_string(alloc, value).is_err()
        && to_str::st_vis_to_string(alloc, value).is_err()
}

// `rt try --test` has an allocator of its own, which does not run out: there this test fails.
#[test]
fn refused_memory_is_an_error(rt: HostRuntime) -> Result<(), AllocError> {
    let alloc = rt.alloc();
    let blocks = all_memory(alloc)?;
    let is_refused = is_refused(alloc, 1) && is_refused(alloc, 0xfe);
    drop(blocks);
    let text = to_str::st_vis_to_string(alloc, 1)?;
    assert!(rt; is_refused && text.as_str() == "STV_INTERNAL");
    Ok(())
}
