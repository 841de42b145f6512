//! The tags of build attributes and their values, by the name of the vendor. The names of values are the words of GNU
//! readelf.
ghost use Rattle.std.specs.Prelude.{◌≡◌};
ghost use Rattle.std.specs.Option.{option_copied};
ghost use Rattle.elf_names.specs.Attributes.{arm_values, attribute_tag_name, attribute_tags, attribute_value_name};
ghost use Rattle.elf_names.specs.Attributes.{attribute_values, gnu_tags, scope_name};
ghost use Rattle.elf_names.specs.Table.{rows_of};

use crate::table::{Names, name_in};
use elf_abi::abi;

/// Returns the name of a tag that says what attributes are of.
#[tactic(auto, unfolding(crate::specs::Attributes::scopes))]
pub fn scope_name(tag: u64) -> Option<&'static str>
    ensures { option_copied result ≡ scope_name tag }
{
    name_in(SCOPES, tag)
}

/// Returns the name of a tag of this vendor. Tags of GNU have names by the machine (`e_machine`).
pub fn attribute_tag_name(vendor: &[u8], e_machine: u16, tag: u64) -> Option<&'static str>
    ensures { option_copied result ≡ attribute_tag_name vendor.now e_machine tag }
{
    name_in(attribute_tags(vendor, e_machine), tag)
}

/// Returns the name of a value of a tag of this vendor.
pub fn attribute_value_name(vendor: &[u8], tag: u64, value: u64) -> Option<&'static str>
    ensures { option_copied result ≡ attribute_value_name vendor.now tag value }
{
    name_in(attribute_values(vendor, tag), value)
}

/// The tags of a vendor.
#[tactic(auto, unfolding(crate::specs::Attributes::attribute_tags))]
pub fn attribute_tags(vendor: &[u8], e_machine: u16) -> Names<u64>
    ensures { rows_of result.now ≡ attribute_tags vendor.now e_machine }
{
    if vendor == b"aeabi".as_slice() {
        ARM_TAGS
    } else if vendor == b"riscv".as_slice() {
        RISCV_TAGS
    } else if vendor == b"gnu".as_slice() {
        gnu_tags(e_machine)
    } else {
        &[]
    }
}

#[tactic(auto, unfolding(crate::specs::Attributes::gnu_tags))]
fn gnu_tags(e_machine: u16) -> Names<u64>
    ensures { rows_of result.now ≡ gnu_tags e_machine }
{
    match e_machine {
        abi::EM_68K => M68K_TAGS,
        abi::EM_MIPS => MIPS_TAGS,
        abi::EM_PPC | abi::EM_PPC64 => POWER_TAGS,
        abi::EM_S390 => S390_TAGS,
        abi::EM_SPARC | abi::EM_SPARC32PLUS | abi::EM_SPARCV9 => SPARC_TAGS,
        _ => GNU_TAGS,
    }
}

/// The values of a tag.
#[tactic(auto, unfolding(crate::specs::Attributes::attribute_values))]
pub fn attribute_values(vendor: &[u8], tag: u64) -> Names<u64>
    ensures { rows_of result.now ≡ attribute_values vendor.now tag }
{
    if vendor == b"aeabi".as_slice() {
        arm_values(tag)
    } else if vendor == b"riscv".as_slice() && tag == 6 {
        RISCV_ACCESS
    } else {
        &[]
    }
}

#[tactic(auto, unfolding(crate::specs::Attributes::arm_values))]
fn arm_values(tag: u64) -> Names<u64>
    ensures { rows_of result.now ≡ arm_values tag }
{
    match tag {
        6 => ARM_ARCHITECTURES,
        7 => ARM_PROFILES,
        8 => ARM_ISA,
        9 => ARM_THUMB,
        10 => ARM_FP,
        11 => ARM_WMMX,
        12 => ARM_SIMD,
        13 => ARM_CONFIGURATIONS,
        14 => ARM_R9,
        15 => ARM_RW_DATA,
        16 => ARM_RO_DATA,
        17 => ARM_GOT,
        18 => ARM_WCHAR,
        19 | 21 | 22 => ARM_NEEDED,
        20 => ARM_DENORMAL,
        23 => ARM_NUMBER_MODEL,
        24 => ARM_ALIGN_NEEDED,
        25 => ARM_ALIGN_PRESERVED,
        26 => ARM_ENUM_SIZE,
        27 => ARM_HARD_FP,
        28 => ARM_VFP_ARGUMENTS,
        29 => ARM_WMMX_ARGUMENTS,
        30 => ARM_GOALS,
        31 => ARM_FP_GOALS,
        34 => ARM_UNALIGNED,
        36 | 42 | 66 | 70 => ARM_ALLOWED,
        38 => ARM_HALF,
        44 => ARM_DIVISION,
        46 => ARM_DSP,
        48 => ARM_MVE,
        50 => ARM_PAC,
        52 => ARM_BTI,
        64 => ARM_TRUE,
        68 => ARM_VIRTUALIZATION,
        74 => ARM_BTI_USE,
        76 => ARM_PACRET_USE,
        _ => &[],
    }
}

/// What attributes are of.
pub static SCOPES: Names<u64> = &[(1, "Tag_File"), (2, "Tag_Section"), (3, "Tag_Symbol")];

/// Tags of Arm (Addenda to, and Errata in, the ABI for the Arm Architecture, chapter "Build Attributes").
pub static ARM_TAGS: Names<u64> = &[
    (4, "Tag_CPU_raw_name"),
    (5, "Tag_CPU_name"),
    (6, "Tag_CPU_arch"),
    (7, "Tag_CPU_arch_profile"),
    (8, "Tag_ARM_ISA_use"),
    (9, "Tag_THUMB_ISA_use"),
    (10, "Tag_FP_arch"),
    (11, "Tag_WMMX_arch"),
    (12, "Tag_Advanced_SIMD_arch"),
    (13, "Tag_PCS_config"),
    (14, "Tag_ABI_PCS_R9_use"),
    (15, "Tag_ABI_PCS_RW_data"),
    (16, "Tag_ABI_PCS_RO_data"),
    (17, "Tag_ABI_PCS_GOT_use"),
    (18, "Tag_ABI_PCS_wchar_t"),
    (19, "Tag_ABI_FP_rounding"),
    (20, "Tag_ABI_FP_denormal"),
    (21, "Tag_ABI_FP_exceptions"),
    (22, "Tag_ABI_FP_user_exceptions"),
    (23, "Tag_ABI_FP_number_model"),
    (24, "Tag_ABI_align_needed"),
    (25, "Tag_ABI_align_preserved"),
    (26, "Tag_ABI_enum_size"),
    (27, "Tag_ABI_HardFP_use"),
    (28, "Tag_ABI_VFP_args"),
    (29, "Tag_ABI_WMMX_args"),
    (30, "Tag_ABI_optimization_goals"),
    (31, "Tag_ABI_FP_optimization_goals"),
    (32, "Tag_compatibility"),
    (34, "Tag_CPU_unaligned_access"),
    (36, "Tag_FP_HP_extension"),
    (38, "Tag_ABI_FP_16bit_format"),
    (42, "Tag_MPextension_use"),
    (44, "Tag_DIV_use"),
    (46, "Tag_DSP_extension"),
    (48, "Tag_MVE_arch"),
    (50, "Tag_PAC_extension"),
    (52, "Tag_BTI_extension"),
    (64, "Tag_nodefaults"),
    (65, "Tag_also_compatible_with"),
    (66, "Tag_T2EE_use"),
    (67, "Tag_conformance"),
    (68, "Tag_Virtualization_use"),
    (70, "Tag_MPextension_use_legacy"),
    (74, "Tag_BTI_use"),
    (76, "Tag_PACRET_use"),
];

/// Tags of RISC-V (RISC-V ELF psABI, section "Attributes").
pub static RISCV_TAGS: Names<u64> = &[
    (4, "Tag_RISCV_stack_align"),
    (5, "Tag_RISCV_arch"),
    (6, "Tag_RISCV_unaligned_access"),
    (8, "Tag_RISCV_priv_spec"),
    (10, "Tag_RISCV_priv_spec_minor"),
    (12, "Tag_RISCV_priv_spec_revision"),
    (14, "Tag_RISCV_atomic_abi"),
    (16, "Tag_RISCV_x3_reg_usage"),
];

/// Tags of GNU (GNU as, section "Object Attributes").
pub static GNU_TAGS: Names<u64> = &[(32, "Tag_compatibility")];

/// Those of M68K.
pub static M68K_TAGS: Names<u64> = &[(4, "Tag_GNU_M68K_ABI_FP"), (32, "Tag_compatibility")];

/// Those of MIPS.
pub static MIPS_TAGS: Names<u64> = &[
    (4, "Tag_GNU_MIPS_ABI_FP"),
    (8, "Tag_GNU_MIPS_ABI_MSA"),
    (32, "Tag_compatibility"),
];

/// Those of PowerPC.
pub static POWER_TAGS: Names<u64> = &[
    (4, "Tag_GNU_Power_ABI_FP"),
    (8, "Tag_GNU_Power_ABI_Vector"),
    (12, "Tag_GNU_Power_ABI_Struct_Return"),
    (32, "Tag_compatibility"),
];

/// Those of S/390.
pub static S390_TAGS: Names<u64> = &[(8, "Tag_GNU_S390_ABI_Vector"), (32, "Tag_compatibility")];

/// Those of SPARC.
pub static SPARC_TAGS: Names<u64> = &[
    (4, "Tag_GNU_Sparc_HWCAPS"),
    (8, "Tag_GNU_Sparc_HWCAPS2"),
    (32, "Tag_compatibility"),
];

/// `Tag_CPU_arch` of Arm.
pub static ARM_ARCHITECTURES: Names<u64> = &[
    (0, "Pre-v4"),
    (1, "v4"),
    (2, "v4T"),
    (3, "v5T"),
    (4, "v5TE"),
    (5, "v5TEJ"),
    (6, "v6"),
    (7, "v6KZ"),
    (8, "v6T2"),
    (9, "v6K"),
    (10, "v7"),
    (11, "v6-M"),
    (12, "v6S-M"),
    (13, "v7E-M"),
    (14, "v8"),
    (15, "v8-R"),
    (16, "v8-M.baseline"),
    (17, "v8-M.mainline"),
    (18, "v8.1-A"),
    (19, "v8.2-A"),
    (20, "v8.3-A"),
    (21, "v8.1-M.mainline"),
    (22, "v9"),
];

/// `Tag_CPU_arch_profile`: letters of ASCII.
pub static ARM_PROFILES: Names<u64> = &[
    (0, "None"),
    (0x41, "Application"),
    (0x4d, "Microcontroller"),
    (0x52, "Realtime"),
    (0x53, "Application or Realtime"),
];

/// `Tag_ARM_ISA_use`.
pub static ARM_ISA: Names<u64> = &[(0, "No"), (1, "Yes")];

/// `Tag_THUMB_ISA_use`.
pub static ARM_THUMB: Names<u64> = &[(0, "No"), (1, "Thumb-1"), (2, "Thumb-2"), (3, "Yes")];

/// `Tag_FP_arch`.
pub static ARM_FP: Names<u64> = &[
    (0, "No"),
    (1, "VFPv1"),
    (2, "VFPv2"),
    (3, "VFPv3"),
    (4, "VFPv3-D16"),
    (5, "VFPv4"),
    (6, "VFPv4-D16"),
    (7, "FP for ARMv8"),
    (8, "FPv5/FP-D16 for ARMv8"),
];

/// `Tag_WMMX_arch`.
pub static ARM_WMMX: Names<u64> = &[(0, "No"), (1, "WMMXv1"), (2, "WMMXv2")];

/// `Tag_Advanced_SIMD_arch`.
pub static ARM_SIMD: Names<u64> = &[
    (0, "No"),
    (1, "NEONv1"),
    (2, "NEONv1 with Fused-MAC"),
    (3, "NEON for ARMv8"),
    (4, "NEON for ARMv8.1"),
];

/// `Tag_PCS_config`.
pub static ARM_CONFIGURATIONS: Names<u64> = &[
    (0, "None"),
    (1, "Bare platform"),
    (2, "Linux application"),
    (3, "Linux DSO"),
    (4, "PalmOS 2004"),
    (5, "PalmOS (reserved)"),
    (6, "SymbianOS 2004"),
    (7, "SymbianOS (reserved)"),
];

/// `Tag_ABI_PCS_R9_use`.
pub static ARM_R9: Names<u64> = &[(0, "V6"), (1, "SB"), (2, "TLS"), (3, "Unused")];

/// `Tag_ABI_PCS_RW_data`.
pub static ARM_RW_DATA: Names<u64> = &[
    (0, "Absolute"),
    (1, "PC-relative"),
    (2, "SB-relative"),
    (3, "None"),
];

/// `Tag_ABI_PCS_RO_data`.
pub static ARM_RO_DATA: Names<u64> = &[(0, "Absolute"), (1, "PC-relative"), (2, "None")];

/// `Tag_ABI_PCS_GOT_use`.
pub static ARM_GOT: Names<u64> = &[(0, "None"), (1, "direct"), (2, "GOT-indirect")];

/// `Tag_ABI_PCS_wchar_t`: a number of bytes.
pub static ARM_WCHAR: Names<u64> = &[(0, "None")];

/// `Tag_ABI_FP_rounding`, `Tag_ABI_FP_exceptions` and `Tag_ABI_FP_user_exceptions`.
pub static ARM_NEEDED: Names<u64> = &[(0, "Unused"), (1, "Needed")];

/// `Tag_ABI_FP_denormal`.
pub static ARM_DENORMAL: Names<u64> = &[(0, "Unused"), (1, "Needed"), (2, "Sign only")];

/// `Tag_ABI_FP_number_model`.
pub static ARM_NUMBER_MODEL: Names<u64> = &[
    (0, "Unused"),
    (1, "Finite"),
    (2, "RTABI"),
    (3, "IEEE 754"),
];

/// `Tag_ABI_align_needed`.
pub static ARM_ALIGN_NEEDED: Names<u64> = &[(0, "None"), (1, "8-byte"), (2, "4-byte")];

/// `Tag_ABI_align_preserved`.
pub static ARM_ALIGN_PRESERVED: Names<u64> = &[
    (0, "None"),
    (1, "8-byte, except leaf SP"),
    (2, "8-byte"),
];

/// `Tag_ABI_enum_size`.
pub static ARM_ENUM_SIZE: Names<u64> = &[
    (0, "Unused"),
    (1, "small"),
    (2, "int"),
    (3, "forced to int"),
];

/// `Tag_ABI_HardFP_use`.
pub static ARM_HARD_FP: Names<u64> = &[
    (0, "As Tag_FP_arch"),
    (1, "SP only"),
    (2, "Reserved"),
    (3, "Deprecated"),
];

/// `Tag_ABI_VFP_args`.
pub static ARM_VFP_ARGUMENTS: Names<u64> = &[
    (0, "AAPCS"),
    (1, "VFP registers"),
    (2, "custom"),
    (3, "compatible"),
];

/// `Tag_ABI_WMMX_args`.
pub static ARM_WMMX_ARGUMENTS: Names<u64> = &[(0, "AAPCS"), (1, "WMMX registers"), (2, "custom")];

/// `Tag_ABI_optimization_goals`.
pub static ARM_GOALS: Names<u64> = &[
    (0, "None"),
    (1, "Prefer Speed"),
    (2, "Aggressive Speed"),
    (3, "Prefer Size"),
    (4, "Aggressive Size"),
    (5, "Prefer Debug"),
    (6, "Aggressive Debug"),
];

/// `Tag_ABI_FP_optimization_goals`.
pub static ARM_FP_GOALS: Names<u64> = &[
    (0, "None"),
    (1, "Prefer Speed"),
    (2, "Aggressive Speed"),
    (3, "Prefer Size"),
    (4, "Aggressive Size"),
    (5, "Prefer Accuracy"),
    (6, "Aggressive Accuracy"),
];

/// `Tag_CPU_unaligned_access`.
pub static ARM_UNALIGNED: Names<u64> = &[(0, "None"), (1, "v6")];

/// `Tag_FP_HP_extension`, `Tag_MPextension_use`, its older number, and `Tag_T2EE_use`.
pub static ARM_ALLOWED: Names<u64> = &[(0, "Not Allowed"), (1, "Allowed")];

/// `Tag_ABI_FP_16bit_format`.
pub static ARM_HALF: Names<u64> = &[(0, "None"), (1, "IEEE 754"), (2, "Alternative Format")];

/// `Tag_DIV_use`.
pub static ARM_DIVISION: Names<u64> = &[
    (0, "Allowed in Thumb-ISA, v7-R or v7-M"),
    (1, "Not allowed"),
    (2, "Allowed in v7-A with integer division extension"),
];

/// `Tag_DSP_extension`.
pub static ARM_DSP: Names<u64> = &[(0, "Follow architecture"), (1, "Allowed")];

/// `Tag_MVE_arch`.
pub static ARM_MVE: Names<u64> = &[
    (0, "No MVE"),
    (1, "MVE Integer only"),
    (2, "MVE Integer and FP"),
];

/// `Tag_PAC_extension`.
pub static ARM_PAC: Names<u64> = &[
    (0, "No PAC/AUT instructions"),
    (1, "PAC/AUT instructions permitted in the NOP space"),
    (
        2,
        "PAC/AUT instructions permitted in the NOP and in the non-NOP space",
    ),
];

/// `Tag_BTI_extension`.
pub static ARM_BTI: Names<u64> = &[
    (0, "BTI instructions not permitted"),
    (1, "BTI instructions permitted in the NOP space"),
    (
        2,
        "BTI instructions permitted in the NOP and in the non-NOP space",
    ),
];

/// `Tag_BTI_use`.
pub static ARM_BTI_USE: Names<u64> = &[
    (0, "Compiled without branch target enforcement"),
    (1, "Compiled with branch target enforcement"),
];

/// `Tag_PACRET_use`.
pub static ARM_PACRET_USE: Names<u64> = &[
    (
        0,
        "Compiled without return address signing and authentication",
    ),
    (1, "Compiled with return address signing and authentication"),
];

/// `Tag_nodefaults`.
pub static ARM_TRUE: Names<u64> = &[(0, "True")];

/// `Tag_Virtualization_use`.
pub static ARM_VIRTUALIZATION: Names<u64> = &[
    (0, "Not Allowed"),
    (1, "TrustZone"),
    (2, "Virtualization Extensions"),
    (3, "TrustZone and Virtualization Extensions"),
];

/// `Tag_RISCV_unaligned_access`.
pub static RISCV_ACCESS: Names<u64> = &[(0, "No unaligned access"), (1, "Unaligned access")];
