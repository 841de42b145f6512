//! The tags of dynamic entries (gABI, chapter "Dynamic Section").
ghost use Rattle.std.specs.Prelude.{◌≡◌};
ghost use Rattle.std.specs.Option.{option_copied};
ghost use Rattle.elf_names.specs.Tags.{any_tags, tags, tag_name};
ghost use Rattle.elf_names.specs.Table.{rows_of};

use crate::machines::GNU_ALPHA;
use crate::table::{Names, name_in};
use elf_abi::{abi, to_str};

/// Returns the name of a tag (`d_tag`): that of the machine (`e_machine`), as `DT_MIPS_GOTSYM`, or that of any machine, as
/// `DT_RELR`; of a tag that neither list has, that of `elf_abi::to_str`.
pub fn tag_name(e_machine: u16, d_tag: i64) -> Option<&'static str>
    ensures { option_copied result ≡ tag_name e_machine d_tag }
{
    name_in(tags(e_machine), d_tag)
        .or(name_in(any(), d_tag))
        .or(to_str::d_tag_to_str(d_tag))
}

/// Tags of any machine that `elf_abi::to_str` does not have, or has as an end of a range of tags: those of packed relative
/// relocations (gABI), of filters (Sun), of Android and of GNU.
pub static ANY: Names<i64> = &[
    (35, "DT_RELRSZ"),
    (36, "DT_RELR"),
    (37, "DT_RELRENT"),
    (0x6000000f, "DT_ANDROID_REL"),
    (0x60000010, "DT_ANDROID_RELSZ"),
    (0x60000011, "DT_ANDROID_RELA"),
    (0x60000012, "DT_ANDROID_RELASZ"),
    (0x6fffe000, "DT_ANDROID_RELR"),
    (0x6fffe001, "DT_ANDROID_RELRSZ"),
    (0x6fffe003, "DT_ANDROID_RELRENT"),
    (0x6ffffdf4, "DT_GNU_FLAGS_1"),
    (0x7ffffffd, "DT_AUXILIARY"),
    (0x7ffffffe, "DT_USED"),
    (0x7fffffff, "DT_FILTER"),
];

#[tactic(auto, unfolding(crate::specs::Tags::any_tags))]
fn any() -> Names<i64>
    ensures { rows_of result.now ≡ any_tags }
{
    ANY
}

/// The names of tags that this machine (`e_machine`) gives.
#[tactic(auto, unfolding(crate::specs::Tags::tags))]
pub fn tags(e_machine: u16) -> Names<i64>
    ensures { rows_of result.now ≡ tags e_machine }
{
    match e_machine {
        abi::EM_X86_64 => X86_64,
        abi::EM_AARCH64 => AARCH64,
        abi::EM_ARM => ARM,
        abi::EM_MIPS => MIPS,
        abi::EM_PPC => PPC,
        abi::EM_PPC64 => PPC64,
        abi::EM_RISCV => RISCV,
        abi::EM_SPARC => SPARC,
        abi::EM_SPARC32PLUS => SPARC,
        abi::EM_SPARCV9 => SPARC,
        abi::EM_ALPHA => ALPHA,
        GNU_ALPHA => ALPHA,
        abi::EM_IA_64 => IA_64,
        abi::EM_ALTERA_NIOS2 => NIOS2,
        _ => &[],
    }
}

/// Of x86-64.
pub static X86_64: Names<i64> = &[
    (0x70000000, "DT_X86_64_PLT"),
    (0x70000001, "DT_X86_64_PLTSZ"),
    (0x70000003, "DT_X86_64_PLTENT"),
];

/// Of AArch64.
pub static AARCH64: Names<i64> = &[
    (0x70000001, "DT_AARCH64_BTI_PLT"),
    (0x70000003, "DT_AARCH64_PAC_PLT"),
    (0x70000005, "DT_AARCH64_VARIANT_PCS"),
    (0x70000009, "DT_AARCH64_MEMTAG_MODE"),
];

/// Of ARM.
pub static ARM: Names<i64> = &[
    (0x70000001, "DT_ARM_SYMTABSZ"),
    (0x70000002, "DT_ARM_PREEMPTMAP"),
];

/// Of MIPS.
pub static MIPS: Names<i64> = &[
    (0x70000001, "DT_MIPS_RLD_VERSION"),
    (0x70000002, "DT_MIPS_TIME_STAMP"),
    (0x70000003, "DT_MIPS_ICHECKSUM"),
    (0x70000004, "DT_MIPS_IVERSION"),
    (0x70000005, "DT_MIPS_FLAGS"),
    (0x70000006, "DT_MIPS_BASE_ADDRESS"),
    (0x70000007, "DT_MIPS_MSYM"),
    (0x70000008, "DT_MIPS_CONFLICT"),
    (0x70000009, "DT_MIPS_LIBLIST"),
    (0x7000000a, "DT_MIPS_LOCAL_GOTNO"),
    (0x7000000b, "DT_MIPS_CONFLICTNO"),
    (0x70000010, "DT_MIPS_LIBLISTNO"),
    (0x70000011, "DT_MIPS_SYMTABNO"),
    (0x70000012, "DT_MIPS_UNREFEXTNO"),
    (0x70000013, "DT_MIPS_GOTSYM"),
    (0x70000014, "DT_MIPS_HIPAGENO"),
    (0x70000016, "DT_MIPS_RLD_MAP"),
    (0x70000017, "DT_MIPS_DELTA_CLASS"),
    (0x70000018, "DT_MIPS_DELTA_CLASS_NO"),
    (0x70000019, "DT_MIPS_DELTA_INSTANCE"),
    (0x7000001a, "DT_MIPS_DELTA_INSTANCE_NO"),
    (0x7000001b, "DT_MIPS_DELTA_RELOC"),
    (0x7000001c, "DT_MIPS_DELTA_RELOC_NO"),
    (0x7000001d, "DT_MIPS_DELTA_SYM"),
    (0x7000001e, "DT_MIPS_DELTA_SYM_NO"),
    (0x70000020, "DT_MIPS_DELTA_CLASSSYM"),
    (0x70000021, "DT_MIPS_DELTA_CLASSSYM_NO"),
    (0x70000022, "DT_MIPS_CXX_FLAGS"),
    (0x70000023, "DT_MIPS_PIXIE_INIT"),
    (0x70000024, "DT_MIPS_SYMBOL_LIB"),
    (0x70000025, "DT_MIPS_LOCALPAGE_GOTIDX"),
    (0x70000026, "DT_MIPS_LOCAL_GOTIDX"),
    (0x70000027, "DT_MIPS_HIDDEN_GOTIDX"),
    (0x70000028, "DT_MIPS_PROTECTED_GOTIDX"),
    (0x70000029, "DT_MIPS_OPTIONS"),
    (0x7000002a, "DT_MIPS_INTERFACE"),
    (0x7000002b, "DT_MIPS_DYNSTR_ALIGN"),
    (0x7000002c, "DT_MIPS_INTERFACE_SIZE"),
    (0x7000002d, "DT_MIPS_RLD_TEXT_RESOLVE_ADDR"),
    (0x7000002e, "DT_MIPS_PERF_SUFFIX"),
    (0x7000002f, "DT_MIPS_COMPACT_SIZE"),
    (0x70000030, "DT_MIPS_GP_VALUE"),
    (0x70000031, "DT_MIPS_AUX_DYNAMIC"),
    (0x70000032, "DT_MIPS_PLTGOT"),
    (0x70000033, "DT_MIPS_RLD_OBJ_UPDATE"),
    (0x70000034, "DT_MIPS_RWPLT"),
    (0x70000035, "DT_MIPS_RLD_MAP_REL"),
    (0x70000036, "DT_MIPS_XHASH"),
];

/// Of 32-bit PowerPC.
pub static PPC: Names<i64> = &[(0x70000000, "DT_PPC_GOT"), (0x70000001, "DT_PPC_OPT")];

/// Of 64-bit PowerPC.
pub static PPC64: Names<i64> = &[
    (0x70000000, "DT_PPC64_GLINK"),
    (0x70000001, "DT_PPC64_OPD"),
    (0x70000002, "DT_PPC64_OPDSZ"),
    (0x70000003, "DT_PPC64_OPT"),
];

/// Of RISC-V.
pub static RISCV: Names<i64> = &[(0x70000001, "DT_RISCV_VARIANT_CC")];

/// Of SPARC.
pub static SPARC: Names<i64> = &[(0x70000001, "DT_SPARC_REGISTER")];

/// Of Alpha.
pub static ALPHA: Names<i64> = &[(0x70000000, "DT_ALPHA_PLTRO")];

/// Of IA-64.
pub static IA_64: Names<i64> = &[(0x70000000, "DT_IA_64_PLT_RESERVE")];

/// Of Nios II.
pub static NIOS2: Names<i64> = &[(0x70000002, "DT_NIOS2_GP")];
