//! The types of segments (gABI, chapter "Program Header").
ghost use Rattle.std.specs.Prelude.{◌≡◌};
ghost use Rattle.std.specs.Option.{option_copied};
ghost use Rattle.elf_names.specs.Segments.{segment_types, segment_type_name};
ghost use Rattle.elf_names.specs.Table.{rows_of};

use crate::table::{Names, name_in};
use elf_abi::{abi, to_str};

/// Returns the name of a type (`p_type`): that of the machine (`e_machine`), as `PT_ARM_EXIDX`, or that of any machine, as
/// `PT_GNU_SFRAME`; of a type that neither list has, that of `elf_abi::to_str`.
#[tactic(auto, unfolding(crate::specs::Segments::any_segment_types))]
pub fn segment_type_name(e_machine: u16, p_type: u32) -> Option<&'static str>
    ensures { option_copied result ≡ segment_type_name e_machine p_type }
{
    name_in(segment_types(e_machine), p_type)
        .or(name_in(ANY, p_type))
        .or(to_str::p_type_to_str(p_type))
}

/// Types of any machine that `elf_abi::to_str` does not have: of GNU, OpenBSD and Sun.
pub static ANY: Names<u32> = &[
    (0x6474e554, "PT_GNU_SFRAME"),
    (0x65a3dbe5, "PT_OPENBSD_MUTABLE"),
    (0x65a3dbe6, "PT_OPENBSD_RANDOMIZE"),
    (0x65a3dbe7, "PT_OPENBSD_WXNEEDED"),
    (0x65a3dbe8, "PT_OPENBSD_NOBTCFI"),
    (0x65a41be6, "PT_OPENBSD_BOOTDATA"),
    (0x6ffffffa, "PT_SUNWBSS"),
    (0x6ffffffb, "PT_SUNWSTACK"),
];

/// The names of types of segments that this machine (`e_machine`) gives.
#[tactic(auto, unfolding(crate::specs::Segments::segment_types))]
pub fn segment_types(e_machine: u16) -> Names<u32>
    ensures { rows_of result.now ≡ segment_types e_machine }
{
    match e_machine {
        abi::EM_ARM => ARM,
        abi::EM_AARCH64 => AARCH64,
        abi::EM_RISCV => RISCV,
        abi::EM_MIPS => MIPS,
        abi::EM_S390 => S390,
        abi::EM_PARISC => PARISC,
        abi::EM_IA_64 => IA_64,
        _ => &[],
    }
}

/// Of ARM.
pub static ARM: Names<u32> = &[(0x70000000, "PT_ARM_ARCHEXT"), (0x70000001, "PT_ARM_EXIDX")];

/// Of AArch64.
pub static AARCH64: Names<u32> = &[
    (0x70000000, "PT_AARCH64_ARCHEXT"),
    (0x70000001, "PT_AARCH64_UNWIND"),
    (0x70000002, "PT_AARCH64_MEMTAG_MTE"),
];

/// Of RISC-V.
pub static RISCV: Names<u32> = &[(0x70000003, "PT_RISCV_ATTRIBUTES")];

/// Of MIPS.
pub static MIPS: Names<u32> = &[
    (0x70000000, "PT_MIPS_REGINFO"),
    (0x70000001, "PT_MIPS_RTPROC"),
    (0x70000002, "PT_MIPS_OPTIONS"),
    (0x70000003, "PT_MIPS_ABIFLAGS"),
];

/// Of s390 and s390x.
pub static S390: Names<u32> = &[(0x70000000, "PT_S390_PGSTE")];

/// Of PA-RISC.
pub static PARISC: Names<u32> = &[
    (0x70000000, "PT_PARISC_ARCHEXT"),
    (0x70000001, "PT_PARISC_UNWIND"),
];

/// Of IA-64.
pub static IA_64: Names<u32> = &[
    (0x70000000, "PT_IA_64_ARCHEXT"),
    (0x70000001, "PT_IA_64_UNWIND"),
];
