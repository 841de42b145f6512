//! Features that all code of a file has, by the machine.
ghost use Rattle.std.specs.Prelude.{◌≡◌};
ghost use Rattle.elf_names.specs.Flags.{flags_of};
ghost use Rattle.nugwier_notes.specs.Features.{feature_flags, is_aarch64, is_x86};

use elf_abi::abi;
use elf_names::flags::Flags;

/// Whether a machine is x86, of 32 or 64 bits.
pub fn is_x86(machine: u16) -> bool
    ensures { result ≡ is_x86 machine }
{
    machine == abi::EM_386 || machine == abi::EM_X86_64
}

/// Whether a machine is AArch64.
pub fn is_aarch64(machine: u16) -> bool
    ensures { result ≡ is_aarch64 machine }
{
    machine == abi::EM_AARCH64
}

/// Features of code (x86-64 psABI, section "Program Property": `GNU_PROPERTY_X86_FEATURE_1_AND`).
pub const X86_FEATURES: Flags = &[
    (0x1, 0x1, "IBT"),
    (0x2, 0x2, "SHSTK"),
    (0x4, 0x4, "LAM_U48"),
    (0x8, 0x8, "LAM_U57"),
];

/// Features of code (ELF for the Arm 64-bit Architecture, section "Program Property":
/// `GNU_PROPERTY_AARCH64_FEATURE_1_AND`).
pub const AARCH64_FEATURES: Flags = &[(0x1, 0x1, "BTI"), (0x2, 0x2, "PAC"), (0x4, 0x4, "GCS")];

/// Returns the names of the features.
#[tactic(auto, unfolding(crate::specs::Features::feature_flags))]
pub fn feature_flags(machine: u16) -> Flags
    ensures { flags_of result.now ≡ feature_flags machine }
{
    match machine {
        abi::EM_386 | abi::EM_X86_64 => X86_FEATURES,
        abi::EM_AARCH64 => AARCH64_FEATURES,
        _ => &[],
    }
}
