//! The numbers of machines (`e_machine`).
ghost use Rattle.std.specs.Prelude.{◌≡◌};
ghost use Rattle.std.specs.Option.{option_copied};
ghost use Rattle.elf_names.specs.Machines.{in_use, machine_name};
ghost use Rattle.elf_names.specs.Table.{rows_of};

use crate::table::{Names, name_in};
use elf_abi::{abi, to_str};

/// The number of Alpha in files of Linux and BSD, which do not use that of `elf_abi::abi::EM_ALPHA`.
pub const GNU_ALPHA: u16 = 0x9026;

/// Returns the name of a machine (`e_machine`): that of `elf_abi::to_str`, else that of a newer machine or of a number that
/// is in use without being assigned.
pub fn machine_name(e_machine: u16) -> Option<&'static str>
    ensures { option_copied result ≡ machine_name e_machine }
{
    to_str::e_machine_to_str(e_machine).or(name_in(in_use(), e_machine))
}

/// The names of numbers that `elf_abi::to_str` does not name: machines that are newer than its list, and numbers that are
/// in use without being assigned.
pub static IN_USE: Names<u16> = &[
    (abi::EM_LANAI, "EM_LANAI"),
    (245, "EM_CEVA"),
    (246, "EM_CEVA_X2"),
    (248, "EM_GRAPHCORE_IPU"),
    (249, "EM_IMG1"),
    (250, "EM_NFP"),
    (abi::EM_CSKY, "EM_CSKY"),
    (253, "EM_ARC_COMPACT3_64"),
    (254, "EM_MCS6502"),
    (255, "EM_ARC_COMPACT3"),
    (256, "EM_KVX"),
    (257, "EM_65816"),
    (abi::EM_LOONGARCH, "EM_LOONGARCH"),
    (259, "EM_KF32"),
    (260, "EM_U16_U8CORE"),
    (261, "EM_TACHYUM"),
    (262, "EM_56800EF"),
    (GNU_ALPHA, "EM_ALPHA"),
];

#[tactic(auto, unfolding(crate::specs::Machines::in_use))]
fn in_use() -> Names<u16>
    ensures { rows_of result.now ≡ in_use }
{
    IN_USE
}
