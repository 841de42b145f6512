//! The types of sections (gABI, chapter "Sections").
ghost use Rattle.std.specs.Prelude.{◌≡◌};
ghost use Rattle.std.specs.Option.{option_copied};
ghost use Rattle.elf_names.specs.Sections.{any_section_types, section_types, section_type_name};
ghost use Rattle.elf_names.specs.Table.{rows_of};

use crate::machines::GNU_ALPHA;
use crate::table::{Names, name_in};
use elf_abi::{abi, to_str};

/// Returns the name of a type (`sh_type`): that of the machine (`e_machine`), as `SHT_ARM_EXIDX`, or that of any machine,
/// as `SHT_RELR`; of a type that neither list has, that of `elf_abi::to_str`.
pub fn section_type_name(e_machine: u16, sh_type: u32) -> Option<&'static str>
    ensures { option_copied result ≡ section_type_name e_machine sh_type }
{
    name_in(section_types(e_machine), sh_type)
        .or(name_in(any(), sh_type))
        .or(to_str::sh_type_to_str(sh_type))
}

/// Types of any machine that `elf_abi::to_str` does not have: of gABI, GNU, LLVM and Android.
pub static ANY: Names<u32> = &[
    (19, "SHT_RELR"),
    (0x60000001, "SHT_ANDROID_REL"),
    (0x60000002, "SHT_ANDROID_RELA"),
    (0x6fff4700, "SHT_GNU_INCREMENTAL_INPUTS"),
    (0x6fff4c00, "SHT_LLVM_ODRTAB"),
    (0x6fff4c01, "SHT_LLVM_LINKER_OPTIONS"),
    (0x6fff4c03, "SHT_LLVM_ADDRSIG"),
    (0x6fff4c04, "SHT_LLVM_DEPENDENT_LIBRARIES"),
    (0x6fff4c05, "SHT_LLVM_SYMPART"),
    (0x6fff4c06, "SHT_LLVM_PART_EHDR"),
    (0x6fff4c07, "SHT_LLVM_PART_PHDR"),
    (0x6fff4c09, "SHT_LLVM_CALL_GRAPH_PROFILE"),
    (0x6fff4c0a, "SHT_LLVM_BB_ADDR_MAP"),
    (0x6fffff00, "SHT_ANDROID_RELR"),
];

#[tactic(auto, unfolding(crate::specs::Sections::any_section_types))]
fn any() -> Names<u32>
    ensures { rows_of result.now ≡ any_section_types }
{
    ANY
}

/// The names of types of sections that this machine (`e_machine`) gives.
#[tactic(auto, unfolding(crate::specs::Sections::section_types))]
pub fn section_types(e_machine: u16) -> Names<u32>
    ensures { rows_of result.now ≡ section_types e_machine }
{
    match e_machine {
        abi::EM_X86_64 => X86_64,
        abi::EM_ARM => ARM,
        abi::EM_AARCH64 => AARCH64,
        abi::EM_RISCV => RISCV,
        abi::EM_MIPS => MIPS,
        abi::EM_IA_64 => IA_64,
        abi::EM_PARISC => PARISC,
        abi::EM_ARC_COMPACT => ARC,
        abi::EM_ARC_COMPACT2 => ARC,
        abi::EM_CSKY => CSKY,
        abi::EM_ALPHA => ALPHA,
        GNU_ALPHA => ALPHA,
        _ => &[],
    }
}

/// Of x86-64.
pub static X86_64: Names<u32> = &[(0x70000001, "SHT_X86_64_UNWIND")];

/// Of ARM.
pub static ARM: Names<u32> = &[
    (0x70000001, "SHT_ARM_EXIDX"),
    (0x70000002, "SHT_ARM_PREEMPTMAP"),
    (0x70000003, "SHT_ARM_ATTRIBUTES"),
    (0x70000004, "SHT_ARM_DEBUGOVERLAY"),
    (0x70000005, "SHT_ARM_OVERLAYSECTION"),
];

/// Of AArch64.
pub static AARCH64: Names<u32> = &[(0x70000003, "SHT_AARCH64_ATTRIBUTES")];

/// Of RISC-V.
pub static RISCV: Names<u32> = &[(0x70000003, "SHT_RISCV_ATTRIBUTES")];

/// Of MIPS.
pub static MIPS: Names<u32> = &[
    (0x70000000, "SHT_MIPS_LIBLIST"),
    (0x70000001, "SHT_MIPS_MSYM"),
    (0x70000002, "SHT_MIPS_CONFLICT"),
    (0x70000003, "SHT_MIPS_GPTAB"),
    (0x70000004, "SHT_MIPS_UCODE"),
    (0x70000005, "SHT_MIPS_DEBUG"),
    (0x70000006, "SHT_MIPS_REGINFO"),
    (0x70000007, "SHT_MIPS_PACKAGE"),
    (0x70000008, "SHT_MIPS_PACKSYM"),
    (0x70000009, "SHT_MIPS_RELD"),
    (0x7000000b, "SHT_MIPS_IFACE"),
    (0x7000000c, "SHT_MIPS_CONTENT"),
    (0x7000000d, "SHT_MIPS_OPTIONS"),
    (0x7000001b, "SHT_MIPS_DELTASYM"),
    (0x7000001c, "SHT_MIPS_DELTAINST"),
    (0x7000001d, "SHT_MIPS_DELTACLASS"),
    (0x7000001e, "SHT_MIPS_DWARF"),
    (0x7000001f, "SHT_MIPS_DELTADECL"),
    (0x70000020, "SHT_MIPS_SYMBOL_LIB"),
    (0x70000021, "SHT_MIPS_EVENTS"),
    (0x70000022, "SHT_MIPS_TRANSLATE"),
    (0x70000023, "SHT_MIPS_PIXIE"),
    (0x70000024, "SHT_MIPS_XLATE"),
    (0x70000025, "SHT_MIPS_XLATE_DEBUG"),
    (0x70000026, "SHT_MIPS_WHIRL"),
    (0x70000027, "SHT_MIPS_EH_REGION"),
    (0x70000028, "SHT_MIPS_XLATE_OLD"),
    (0x70000029, "SHT_MIPS_PDR_EXCEPTION"),
    (0x7000002a, "SHT_MIPS_ABIFLAGS"),
    (0x7000002b, "SHT_MIPS_XHASH"),
];

/// Of IA-64.
pub static IA_64: Names<u32> = &[
    (0x70000000, "SHT_IA_64_EXT"),
    (0x70000001, "SHT_IA_64_UNWIND"),
];

/// Of PA-RISC.
pub static PARISC: Names<u32> = &[
    (0x70000000, "SHT_PARISC_EXT"),
    (0x70000001, "SHT_PARISC_UNWIND"),
    (0x70000002, "SHT_PARISC_DOC"),
];

/// Of Alpha.
pub static ALPHA: Names<u32> = &[
    (0x70000001, "SHT_ALPHA_DEBUG"),
    (0x70000002, "SHT_ALPHA_REGINFO"),
];

/// Of ARCompact and ARC HS.
pub static ARC: Names<u32> = &[(0x70000001, "SHT_ARC_ATTRIBUTES")];

/// Of C-SKY.
pub static CSKY: Names<u32> = &[(0x70000001, "SHT_CSKY_ATTRIBUTES")];
