//! How relocations refer to symbols, by their types.
ghost use Rattle.std.specs.Prelude.{◌≡◌};
ghost use Rattle.elf_linking.specs.ReferenceKinds.{kind_by, linkage_types, reference_kind};

use crate::ReferenceKind;
use elf_abi::abi;

// The types of the relocations of a machine by which procedures are linked.
#[derive(Clone, Copy)]
pub(crate) struct LinkageTypes {
    jump_slot: u32,
    copied: u32,
}

// Those of machines for which `abi` has no constants.
const INTEL_386: LinkageTypes = LinkageTypes {
    jump_slot: 7,
    copied: 5,
};

const S390: LinkageTypes = LinkageTypes {
    jump_slot: 11,
    copied: 9,
};

const LOONGARCH: LinkageTypes = LinkageTypes {
    jump_slot: 5,
    copied: 4,
};

const X86_64: LinkageTypes = LinkageTypes {
    jump_slot: abi::R_X86_64_JUMP_SLOT,
    copied: abi::R_X86_64_COPY,
};

const ARM: LinkageTypes = LinkageTypes {
    jump_slot: abi::R_ARM_JUMP_SLOT,
    copied: abi::R_ARM_COPY,
};

const AARCH64: LinkageTypes = LinkageTypes {
    jump_slot: abi::R_AARCH64_JUMP_SLOT,
    copied: abi::R_AARCH64_COPY,
};

const PPC: LinkageTypes = LinkageTypes {
    jump_slot: abi::R_PPC_JMP_SLOT,
    copied: abi::R_PPC_COPY,
};

const PPC64: LinkageTypes = LinkageTypes {
    jump_slot: abi::R_PPC64_JMP_SLOT,
    copied: abi::R_PPC64_COPY,
};

const RISCV: LinkageTypes = LinkageTypes {
    jump_slot: abi::R_RISCV_JUMP_SLOT,
    copied: abi::R_RISCV_COPY,
};

// The types of a machine, if they are known here.
fn linkage_types(machine: u16) -> Option<LinkageTypes>
    ensures { result ≡ linkage_types machine }
{
    if machine == abi::EM_X86_64 {
        Some(X86_64)
    } else if machine == abi::EM_AARCH64 {
        Some(AARCH64)
    } else if machine == abi::EM_386 {
        Some(INTEL_386)
    } else if machine == abi::EM_ARM {
        Some(ARM)
    } else if machine == abi::EM_RISCV {
        Some(RISCV)
    } else if machine == abi::EM_PPC64 {
        Some(PPC64)
    } else if machine == abi::EM_PPC {
        Some(PPC)
    } else if machine == abi::EM_S390 {
        Some(S390)
    } else if machine == abi::EM_LOONGARCH {
        Some(LOONGARCH)
    } else {
        None
    }
}

// The kind of a relocation of a type, by the types of its machine.
fn kind_by(types: LinkageTypes, r_type: u32) -> ReferenceKind
    ensures { result ≡ kind_by types r_type }
{
    if r_type == types.jump_slot {
        ReferenceKind::JumpSlot
    } else if r_type == types.copied {
        ReferenceKind::Copied
    } else {
        ReferenceKind::Address
    }
}

/// Returns how a relocation refers to its symbol, by the machine of its file (`e_machine`) and its own type. The types
/// are known for the x86-64 and 386, for ARM, AArch64, RISC-V, PowerPC, S390 and LoongArch. On another machine each
/// relocation counts as a jump slot, which only definitions serve; so it does on MIPS, where an undefined symbol may
/// have the value of a stub that stands for nothing.
pub fn reference_kind(machine: u16, r_type: u32) -> ReferenceKind
    ensures { result ≡ reference_kind machine r_type }
{
    match linkage_types(machine) {
        Some(types) => kind_by(types, r_type),
        None => ReferenceKind::JumpSlot,
    }
}
