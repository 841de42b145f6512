//! The names of flags: single bits, and fields of some bits.
ghost use Rattle.std.specs.Prelude.{◌≡◌};
ghost use Rattle.elf_names.specs.Flags.{dynamic_flags, dynamic_flags_1, file_flags, flag_of, flags_of, is_set};
ghost use Rattle.elf_names.specs.Flags.{section_flags, segment_flags, version_flags};

use crate::machines::GNU_ALPHA;
use elf_abi::abi;

/// A flag of a number: the bits that it has to do with, their value if it is set, and its name.
pub type Flag = (u64, u64, &'static str);

/// The flags of a number.
pub type Flags = &'static [Flag];

/// Returns whether a flag is set in a number.
pub fn is_set(flag: &Flag, number: u64) -> bool
    ensures { result ≡ is_set number (flag_of flag.now) }
{
    number & flag.0 == flag.1
}

/// Returns the flags of `DT_FLAGS` (gABI, chapter "Dynamic Section").
#[tactic(auto, unfolding(crate::specs::Flags::dynamic_flags))]
pub fn dynamic_flags() -> Flags
    ensures { flags_of result.now ≡ dynamic_flags }
{
    DYNAMIC
}

/// Returns the flags of `DT_FLAGS_1` (Sun and GNU).
#[tactic(auto, unfolding(crate::specs::Flags::dynamic_flags_1))]
pub fn dynamic_flags_1() -> Flags
    ensures { flags_of result.now ≡ dynamic_flags_1 }
{
    DYNAMIC_1
}

/// Returns the flags of `sh_flags` (gABI, chapter "Sections", and GNU extensions).
#[tactic(auto, unfolding(crate::specs::Flags::section_flags))]
pub fn section_flags() -> Flags
    ensures { flags_of result.now ≡ section_flags }
{
    SECTION
}

/// Returns the flags of `p_flags` (gABI, chapter "Program Header").
#[tactic(auto, unfolding(crate::specs::Flags::segment_flags))]
pub fn segment_flags() -> Flags
    ensures { flags_of result.now ≡ segment_flags }
{
    SEGMENT
}

/// Returns the flags of `vd_flags` and `vna_flags` (GNU symbol versioning).
#[tactic(auto, unfolding(crate::specs::Flags::version_flags))]
pub fn version_flags() -> Flags
    ensures { flags_of result.now ≡ version_flags }
{
    VERSION
}

/// `DT_FLAGS` (gABI, chapter "Dynamic Section").
pub static DYNAMIC: Flags = &[
    (0x1, 0x1, "DF_ORIGIN"),
    (0x2, 0x2, "DF_SYMBOLIC"),
    (0x4, 0x4, "DF_TEXTREL"),
    (0x8, 0x8, "DF_BIND_NOW"),
    (0x10, 0x10, "DF_STATIC_TLS"),
];

/// `DT_FLAGS_1` (Sun and GNU).
pub static DYNAMIC_1: Flags = &[
    (0x1, 0x1, "DF_1_NOW"),
    (0x2, 0x2, "DF_1_GLOBAL"),
    (0x4, 0x4, "DF_1_GROUP"),
    (0x8, 0x8, "DF_1_NODELETE"),
    (0x10, 0x10, "DF_1_LOADFLTR"),
    (0x20, 0x20, "DF_1_INITFIRST"),
    (0x40, 0x40, "DF_1_NOOPEN"),
    (0x80, 0x80, "DF_1_ORIGIN"),
    (0x100, 0x100, "DF_1_DIRECT"),
    (0x200, 0x200, "DF_1_TRANS"),
    (0x400, 0x400, "DF_1_INTERPOSE"),
    (0x800, 0x800, "DF_1_NODEFLIB"),
    (0x1000, 0x1000, "DF_1_NODUMP"),
    (0x2000, 0x2000, "DF_1_CONFALT"),
    (0x4000, 0x4000, "DF_1_ENDFILTEE"),
    (0x8000, 0x8000, "DF_1_DISPRELDNE"),
    (0x10000, 0x10000, "DF_1_DISPRELPND"),
    (0x20000, 0x20000, "DF_1_NODIRECT"),
    (0x40000, 0x40000, "DF_1_IGNMULDEF"),
    (0x80000, 0x80000, "DF_1_NOKSYMS"),
    (0x100000, 0x100000, "DF_1_NOHDR"),
    (0x200000, 0x200000, "DF_1_EDITED"),
    (0x400000, 0x400000, "DF_1_NORELOC"),
    (0x800000, 0x800000, "DF_1_SYMINTPOSE"),
    (0x1000000, 0x1000000, "DF_1_GLOBAUDIT"),
    (0x2000000, 0x2000000, "DF_1_SINGLETON"),
    (0x4000000, 0x4000000, "DF_1_STUB"),
    (0x8000000, 0x8000000, "DF_1_PIE"),
    (0x10000000, 0x10000000, "DF_1_KMOD"),
    (0x20000000, 0x20000000, "DF_1_WEAKFILTER"),
    (0x40000000, 0x40000000, "DF_1_NOCOMMON"),
];

/// `sh_flags` (gABI, chapter "Sections", and GNU extensions).
pub static SECTION: Flags = &[
    (0x1, 0x1, "SHF_WRITE"),
    (0x2, 0x2, "SHF_ALLOC"),
    (0x4, 0x4, "SHF_EXECINSTR"),
    (0x10, 0x10, "SHF_MERGE"),
    (0x20, 0x20, "SHF_STRINGS"),
    (0x40, 0x40, "SHF_INFO_LINK"),
    (0x80, 0x80, "SHF_LINK_ORDER"),
    (0x100, 0x100, "SHF_OS_NONCONFORMING"),
    (0x200, 0x200, "SHF_GROUP"),
    (0x400, 0x400, "SHF_TLS"),
    (0x800, 0x800, "SHF_COMPRESSED"),
    (0x200000, 0x200000, "SHF_GNU_RETAIN"),
    (0x80000000, 0x80000000, "SHF_EXCLUDE"),
];

/// `p_flags` (gABI, chapter "Program Header").
pub static SEGMENT: Flags = &[(0x1, 0x1, "PF_X"), (0x2, 0x2, "PF_W"), (0x4, 0x4, "PF_R")];

/// `vd_flags` and `vna_flags` (GNU symbol versioning).
pub static VERSION: Flags = &[
    (0x1, 0x1, "VER_FLG_BASE"),
    (0x2, 0x2, "VER_FLG_WEAK"),
    (0x4, 0x4, "VER_FLG_INFO"),
];

/// Returns the flags of `e_flags` that this machine (`e_machine`) gives.
#[tactic(auto, unfolding(crate::specs::Flags::file_flags))]
pub fn file_flags(e_machine: u16) -> Flags
    ensures { flags_of result.now ≡ file_flags e_machine }
{
    match e_machine {
        abi::EM_ARM => ARM,
        abi::EM_MIPS => MIPS,
        abi::EM_PPC => PPC,
        abi::EM_PPC64 => PPC64,
        abi::EM_RISCV => RISCV,
        abi::EM_S390 => S390,
        abi::EM_LOONGARCH => LOONGARCH,
        abi::EM_PARISC => PARISC,
        abi::EM_SH => SH,
        abi::EM_SPARC => SPARC,
        abi::EM_SPARC32PLUS => SPARC,
        abi::EM_SPARCV9 => SPARCV9,
        abi::EM_ALPHA => ALPHA,
        GNU_ALPHA => ALPHA,
        abi::EM_IA_64 => IA_64,
        abi::EM_CSKY => CSKY,
        abi::EM_OPENRISC => OPENRISC,
        _ => &[],
    }
}

/// Of ARM: ELF for the Arm Architecture, section "ELF Header".
pub static ARM: Flags = &[
    (0xff000000, 0x1000000, "EF_ARM_EABI_VER1"),
    (0xff000000, 0x2000000, "EF_ARM_EABI_VER2"),
    (0xff000000, 0x3000000, "EF_ARM_EABI_VER3"),
    (0xff000000, 0x4000000, "EF_ARM_EABI_VER4"),
    (0xff000000, 0x5000000, "EF_ARM_EABI_VER5"),
    (0x800000, 0x800000, "EF_ARM_BE8"),
    (0x200, 0x200, "EF_ARM_ABI_FLOAT_SOFT"),
    (0x400, 0x400, "EF_ARM_ABI_FLOAT_HARD"),
];

/// Of MIPS: the processor, what it can do, and the ABI.
pub static MIPS: Flags = &[
    (0x1, 0x1, "EF_MIPS_NOREORDER"),
    (0x2, 0x2, "EF_MIPS_PIC"),
    (0x4, 0x4, "EF_MIPS_CPIC"),
    (0x8, 0x8, "EF_MIPS_XGOT"),
    (0x10, 0x10, "EF_MIPS_64BIT_WHIRL"),
    (0x20, 0x20, "EF_MIPS_ABI2"),
    (0x40, 0x40, "EF_MIPS_ABI_ON32"),
    (0x100, 0x100, "EF_MIPS_32BITMODE"),
    (0x200, 0x200, "EF_MIPS_FP64"),
    (0x400, 0x400, "EF_MIPS_NAN2008"),
    (0xf000, 0x1000, "EF_MIPS_ABI_O32"),
    (0xf000, 0x2000, "EF_MIPS_ABI_O64"),
    (0xf000, 0x3000, "EF_MIPS_ABI_EABI32"),
    (0xf000, 0x4000, "EF_MIPS_ABI_EABI64"),
    (0xf000000, 0x2000000, "EF_MIPS_ARCH_ASE_MICROMIPS"),
    (0xf000000, 0x4000000, "EF_MIPS_ARCH_ASE_M16"),
    (0xf000000, 0x8000000, "EF_MIPS_ARCH_ASE_MDMX"),
    (0xf0000000, 0x0, "EF_MIPS_ARCH_1"),
    (0xf0000000, 0x10000000, "EF_MIPS_ARCH_2"),
    (0xf0000000, 0x20000000, "EF_MIPS_ARCH_3"),
    (0xf0000000, 0x30000000, "EF_MIPS_ARCH_4"),
    (0xf0000000, 0x40000000, "EF_MIPS_ARCH_5"),
    (0xf0000000, 0x50000000, "EF_MIPS_ARCH_32"),
    (0xf0000000, 0x60000000, "EF_MIPS_ARCH_64"),
    (0xf0000000, 0x70000000, "EF_MIPS_ARCH_32R2"),
    (0xf0000000, 0x80000000, "EF_MIPS_ARCH_64R2"),
    (0xf0000000, 0x90000000, "EF_MIPS_ARCH_32R6"),
    (0xf0000000, 0xa0000000, "EF_MIPS_ARCH_64R6"),
];

/// Of 32-bit PowerPC.
pub static PPC: Flags = &[
    (0x80000000, 0x80000000, "EF_PPC_EMB"),
    (0x10000, 0x10000, "EF_PPC_RELOCATABLE"),
    (0x8000, 0x8000, "EF_PPC_RELOCATABLE_LIB"),
];

/// Of RISC-V: RISC-V ELF psABI, section "File Header".
pub static RISCV: Flags = &[
    (0x1, 0x1, "EF_RISCV_RVC"),
    (0x6, 0x0, "EF_RISCV_FLOAT_ABI_SOFT"),
    (0x6, 0x2, "EF_RISCV_FLOAT_ABI_SINGLE"),
    (0x6, 0x4, "EF_RISCV_FLOAT_ABI_DOUBLE"),
    (0x6, 0x6, "EF_RISCV_FLOAT_ABI_QUAD"),
    (0x8, 0x8, "EF_RISCV_RVE"),
    (0x10, 0x10, "EF_RISCV_TSO"),
];

/// Of LoongArch: ELF for the LoongArch Architecture, section "e_flags".
pub static LOONGARCH: Flags = &[
    (0x7, 0x1, "EF_LOONGARCH_ABI_SOFT_FLOAT"),
    (0x7, 0x2, "EF_LOONGARCH_ABI_SINGLE_FLOAT"),
    (0x7, 0x3, "EF_LOONGARCH_ABI_DOUBLE_FLOAT"),
    (0xc0, 0x40, "EF_LOONGARCH_OBJABI_V1"),
];

/// Of 64-bit PowerPC: the version of the ABI, in the bits of EF_PPC64_ABI.
pub static PPC64: Flags = &[(0x3, 0x1, "EF_PPC64_ABI_V1"), (0x3, 0x2, "EF_PPC64_ABI_V2")];

/// Of s390 and s390x.
pub static S390: Flags = &[(0x1, 0x1, "EF_S390_HIGH_GPRS")];

/// Of PA-RISC: what a program expects, and the version of the architecture.
pub static PARISC: Flags = &[
    (0x10000, 0x10000, "EF_PARISC_TRAPNIL"),
    (0x20000, 0x20000, "EF_PARISC_EXT"),
    (0x40000, 0x40000, "EF_PARISC_LSB"),
    (0x80000, 0x80000, "EF_PARISC_WIDE"),
    (0x100000, 0x100000, "EF_PARISC_NO_KABP"),
    (0x400000, 0x400000, "EF_PARISC_LAZYSWAP"),
    (0xffff, 0x20b, "EFA_PARISC_1_0"),
    (0xffff, 0x210, "EFA_PARISC_1_1"),
    (0xffff, 0x214, "EFA_PARISC_2_0"),
];

/// Of SuperH: the processor, in the bits of EF_SH_MACH_MASK, and the kind of code.
pub static SH: Flags = &[
    (0x1f, 0x1, "EF_SH1"),
    (0x1f, 0x2, "EF_SH2"),
    (0x1f, 0x3, "EF_SH3"),
    (0x1f, 0x4, "EF_SH_DSP"),
    (0x1f, 0x5, "EF_SH3_DSP"),
    (0x1f, 0x6, "EF_SH4AL_DSP"),
    (0x1f, 0x8, "EF_SH3E"),
    (0x1f, 0x9, "EF_SH4"),
    (0x1f, 0xb, "EF_SH2E"),
    (0x1f, 0xc, "EF_SH4A"),
    (0x1f, 0xd, "EF_SH2A"),
    (0x1f, 0x10, "EF_SH4_NOFPU"),
    (0x1f, 0x11, "EF_SH4A_NOFPU"),
    (0x1f, 0x12, "EF_SH4_NOMMU_NOFPU"),
    (0x1f, 0x13, "EF_SH2A_NOFPU"),
    (0x1f, 0x14, "EF_SH3_NOMMU"),
    (0x1f, 0x15, "EF_SH2A_SH4_NOFPU"),
    (0x1f, 0x16, "EF_SH2A_SH3_NOFPU"),
    (0x1f, 0x17, "EF_SH2A_SH4"),
    (0x1f, 0x18, "EF_SH2A_SH3E"),
    (0x100, 0x100, "EF_SH_PIC"),
    (0x8000, 0x8000, "EF_SH_FDPIC"),
];

/// Of 32-bit SPARC.
pub static SPARC: Flags = &[
    (0x100, 0x100, "EF_SPARC_32PLUS"),
    (0x200, 0x200, "EF_SPARC_SUN_US1"),
    (0x400, 0x400, "EF_SPARC_HAL_R1"),
    (0x800, 0x800, "EF_SPARC_SUN_US3"),
    (0x800000, 0x800000, "EF_SPARC_LEDATA"),
];

/// Of 64-bit SPARC: the order of memory too, in the bits of EF_SPARCV9_MM.
pub static SPARCV9: Flags = &[
    (0x100, 0x100, "EF_SPARC_32PLUS"),
    (0x200, 0x200, "EF_SPARC_SUN_US1"),
    (0x400, 0x400, "EF_SPARC_HAL_R1"),
    (0x800, 0x800, "EF_SPARC_SUN_US3"),
    (0x800000, 0x800000, "EF_SPARC_LEDATA"),
    (0x3, 0x0, "EF_SPARCV9_TSO"),
    (0x3, 0x1, "EF_SPARCV9_PSO"),
    (0x3, 0x2, "EF_SPARCV9_RMO"),
];

/// Of Alpha.
pub static ALPHA: Flags = &[
    (0x1, 0x1, "EF_ALPHA_32BIT"),
    (0x2, 0x2, "EF_ALPHA_CANRELAX"),
];

/// Of IA-64.
pub static IA_64: Flags = &[
    (0x10, 0x10, "EF_IA_64_ABI64"),
    (0x20, 0x20, "EF_IA_64_REDUCEDFP"),
    (0x40, 0x40, "EF_IA_64_CONS_GP"),
    (0x80, 0x80, "EF_IA_64_NOFUNCDESC_CONS_GP"),
    (0x100, 0x100, "EF_IA_64_ABSOLUTE"),
];

/// Of C-SKY: the version of the ABI.
pub static CSKY: Flags = &[
    (0xf0000000, 0x10000000, "EF_CSKY_ABIV1"),
    (0xf0000000, 0x20000000, "EF_CSKY_ABIV2"),
];

/// Of OpenRISC.
pub static OPENRISC: Flags = &[(0x1, 0x1, "EF_OR1K_NODELAY")];
