//! The types of notes, by the name of their owner.
ghost use Rattle.std.specs.Prelude.{◌≡◌};
ghost use Rattle.std.specs.Option.{option_copied};
ghost use Rattle.elf_names.specs.Notes.{note_type_name, note_types};
ghost use Rattle.elf_names.specs.Table.{rows_of};

use crate::table::{Names, name_in};

/// Returns the name of a type of notes (`n_type`) of this owner, whose name is without the 0 byte at its end.
pub fn note_type_name(owner: &[u8], n_type: u64) -> Option<&'static str>
    ensures { option_copied result ≡ note_type_name owner.now n_type }
{
    name_in(note_types(owner), n_type)
}

/// The names of the types of notes of this owner. There are none for an owner that is not known here.
#[tactic(auto, unfolding(crate::specs::Notes::note_types))]
pub fn note_types(owner: &[u8]) -> Names<u64>
    ensures { rows_of result.now ≡ note_types owner.now }
{
    if owner == b"GNU".as_slice() {
        GNU
    } else if owner == b"CORE".as_slice() || owner == b"LINUX".as_slice() {
        CORE
    } else if owner == b"FDO".as_slice() {
        FDO
    } else if owner == b"Go".as_slice() {
        GO
    } else if owner == b"stapsdt".as_slice() {
        STAPSDT
    } else if owner == b"GDB".as_slice() {
        GDB
    } else {
        &[]
    }
}

/// Of GNU (Linux Standard Base and the GNU linkers).
pub static GNU: Names<u64> = &[
    (1, "NT_GNU_ABI_TAG"),
    (2, "NT_GNU_HWCAP"),
    (3, "NT_GNU_BUILD_ID"),
    (4, "NT_GNU_GOLD_VERSION"),
    (5, "NT_GNU_PROPERTY_TYPE_0"),
];

/// Of core files of Linux.
pub static CORE: Names<u64> = &[
    (1, "NT_PRSTATUS"),
    (2, "NT_FPREGSET"),
    (3, "NT_PRPSINFO"),
    (4, "NT_TASKSTRUCT"),
    (5, "NT_PLATFORM"),
    (6, "NT_AUXV"),
    (7, "NT_GWINDOWS"),
    (8, "NT_ASRS"),
    (10, "NT_PSTATUS"),
    (13, "NT_PSINFO"),
    (14, "NT_PRCRED"),
    (15, "NT_UTSNAME"),
    (16, "NT_LWPSTATUS"),
    (17, "NT_LWPSINFO"),
    (20, "NT_PRFPXREG"),
    (0x100, "NT_PPC_VMX"),
    (0x101, "NT_PPC_SPE"),
    (0x102, "NT_PPC_VSX"),
    (0x103, "NT_PPC_TAR"),
    (0x104, "NT_PPC_PPR"),
    (0x105, "NT_PPC_DSCR"),
    (0x106, "NT_PPC_EBB"),
    (0x107, "NT_PPC_PMU"),
    (0x108, "NT_PPC_TM_CGPR"),
    (0x109, "NT_PPC_TM_CFPR"),
    (0x10a, "NT_PPC_TM_CVMX"),
    (0x10b, "NT_PPC_TM_CVSX"),
    (0x10c, "NT_PPC_TM_SPR"),
    (0x10d, "NT_PPC_TM_CTAR"),
    (0x10e, "NT_PPC_TM_CPPR"),
    (0x10f, "NT_PPC_TM_CDSCR"),
    (0x110, "NT_PPC_PKEY"),
    (0x200, "NT_386_TLS"),
    (0x201, "NT_386_IOPERM"),
    (0x202, "NT_X86_XSTATE"),
    (0x203, "NT_X86_CET"),
    (0x204, "NT_X86_SHSTK"),
    (0x300, "NT_S390_HIGH_GPRS"),
    (0x301, "NT_S390_TIMER"),
    (0x302, "NT_S390_TODCMP"),
    (0x303, "NT_S390_TODPREG"),
    (0x304, "NT_S390_CTRS"),
    (0x305, "NT_S390_PREFIX"),
    (0x306, "NT_S390_LAST_BREAK"),
    (0x307, "NT_S390_SYSTEM_CALL"),
    (0x308, "NT_S390_TDB"),
    (0x309, "NT_S390_VXRS_LOW"),
    (0x30a, "NT_S390_VXRS_HIGH"),
    (0x30b, "NT_S390_GS_CB"),
    (0x30c, "NT_S390_GS_BC"),
    (0x30d, "NT_S390_RI_CB"),
    (0x400, "NT_ARM_VFP"),
    (0x401, "NT_ARM_TLS"),
    (0x402, "NT_ARM_HW_BREAK"),
    (0x403, "NT_ARM_HW_WATCH"),
    (0x404, "NT_ARM_SYSTEM_CALL"),
    (0x405, "NT_ARM_SVE"),
    (0x406, "NT_ARM_PAC_MASK"),
    (0x407, "NT_ARM_PACA_KEYS"),
    (0x408, "NT_ARM_PACG_KEYS"),
    (0x409, "NT_ARM_TAGGED_ADDR_CTRL"),
    (0x40a, "NT_ARM_PAC_ENABLED_KEYS"),
    (0x700, "NT_VMCOREDD"),
    (0x800, "NT_MIPS_DSP"),
    (0x801, "NT_MIPS_FP_MODE"),
    (0x802, "NT_MIPS_MSA"),
    (0x900, "NT_RISCV_CSR"),
    (0x46494c45, "NT_FILE"),
    (0x46e62b7f, "NT_PRXFPREG"),
    (0x53494749, "NT_SIGINFO"),
];

/// Of packages and their libraries (systemd).
pub static FDO: Names<u64> = &[
    (0xcafe1a7e, "NT_FDO_PACKAGING_METADATA"),
    (0x407c0c0a, "NT_FDO_DLOPEN_METADATA"),
];

/// Of the linker of Go.
pub static GO: Names<u64> = &[
    (1, "ELF_NOTE_GOPKGLIST_TAG"),
    (2, "ELF_NOTE_GOABIHASH_TAG"),
    (3, "ELF_NOTE_GODEPS_TAG"),
    (4, "ELF_NOTE_GOBUILDID_TAG"),
];

/// Of probes of SystemTap.
pub static STAPSDT: Names<u64> = &[(3, "NT_STAPSDT")];

/// Of core files that GDB writes.
pub static GDB: Names<u64> = &[(0xff000000, "NT_GDB_TDESC")];
