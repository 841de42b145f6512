//! The types of relocations, by machine. Each machine has a module for its table.
ghost use Rattle.std.specs.Prelude.{◌≡◌};
ghost use Rattle.std.specs.Option.{option_copied};
ghost use Rattle.elf_names.specs.Relocations.{relocation_type_name, relocation_types, types_of_others};
ghost use Rattle.elf_names.specs.Table.{rows_of};

pub mod aarch64;
pub mod alpha;
pub mod amdgpu;
pub mod arc;
pub mod arm;
pub mod bpf;
pub mod csky;
pub mod i386;
pub mod ia_64;
pub mod loongarch;
pub mod m68k;
pub mod microblaze;
pub mod mips;
pub mod nios2;
pub mod openrisc;
pub mod parisc;
pub mod ppc;
pub mod ppc64;
pub mod riscv;
pub mod s390;
pub mod sh;
pub mod sparc;
pub mod x86_64;

use crate::machines::GNU_ALPHA;
use crate::table::{Names, name_in};
use elf_abi::abi;

/// Returns the name of a type of relocations (`R_X86_64_JUMP_SLOT` of `r_type` 7) in files of this `e_machine`.
///
/// ```rust
/// let name = relocation_type_name(EM_X86_64, 7).unwrap_or("not known");
/// println!(rt; "{name}")?; // R_X86_64_JUMP_SLOT
/// ```
pub fn relocation_type_name(e_machine: u16, r_type: u32) -> Option<&'static str>
    ensures { option_copied result ≡ relocation_type_name e_machine r_type }
{
    name_in(relocation_types(e_machine), r_type)
}

/// The names of the types of relocations in files of this `e_machine`. There are none for a machine whose types are not
/// known here.
#[tactic(auto, unfolding(crate::specs::Relocations::relocation_types))]
pub fn relocation_types(e_machine: u16) -> Names<u32>
    ensures { rows_of result.now ≡ relocation_types e_machine }
{
    match e_machine {
        abi::EM_X86_64 => x86_64::TYPES,
        abi::EM_386 => i386::TYPES,
        abi::EM_AARCH64 => aarch64::TYPES,
        abi::EM_ARM => arm::TYPES,
        abi::EM_MIPS => mips::TYPES,
        abi::EM_PPC => ppc::TYPES,
        abi::EM_PPC64 => ppc64::TYPES,
        abi::EM_RISCV => riscv::TYPES,
        abi::EM_S390 => s390::TYPES,
        abi::EM_LOONGARCH => loongarch::TYPES,
        _ => types_of_others(e_machine),
    }
}

// The same of machines for which fewer systems are made.
#[tactic(auto, unfolding(crate::specs::Relocations::types_of_others))]
fn types_of_others(e_machine: u16) -> Names<u32>
    ensures { rows_of result.now ≡ types_of_others e_machine }
{
    match e_machine {
        abi::EM_68K => m68k::TYPES,
        abi::EM_PARISC => parisc::TYPES,
        abi::EM_SH => sh::TYPES,
        abi::EM_SPARC | abi::EM_SPARC32PLUS | abi::EM_SPARCV9 => sparc::TYPES,
        abi::EM_ALPHA | GNU_ALPHA => alpha::TYPES,
        abi::EM_IA_64 => ia_64::TYPES,
        abi::EM_CSKY => csky::TYPES,
        abi::EM_ARC_COMPACT | abi::EM_ARC_COMPACT2 => arc::TYPES,
        abi::EM_OPENRISC => openrisc::TYPES,
        abi::EM_MICROBLAZE => microblaze::TYPES,
        abi::EM_ALTERA_NIOS2 => nios2::TYPES,
        abi::EM_BPF => bpf::TYPES,
        abi::EM_AMDGPU => amdgpu::TYPES,
        _ => &[],
    }
}
