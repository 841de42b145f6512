//! Laws of the results: theorems for the proofs of callers. Each is the contract of a function that computes nothing; a
//! caller uses the law by calling it.
ghost use Rattle.std.specs.Prelude.{◌≡◌, ℕ, Bool};
ghost use Rattle.elf.specs.ObjectFile.{ObjectFile, err_map};
ghost use Rattle.elf.specs.Parts.{ArePartOf, Follows, Ranges, all_ranges, loaded};
ghost use Rattle.elf.specs.declared.read_error.ReadError.TheVariants.{Parse};
ghost use Rattle.elf_records.specs.Clones.{ClonesExactly};
ghost use Rattle.elf_tools.specs.BuildId.{build_id};

use crate::functions::FunctionVersion;
use crate::load_plan::Mapping;

/// The clone of a result is the same value, and cloning it cannot fail.
pub fn clones()
    ensures mapping { ClonesExactly ⟦<Mapping as Clone>⟧.is_clone ⟦<Mapping as Clone>⟧.is_infallible }
    ensures version { ClonesExactly
        ⟦<FunctionVersion<'static> as Clone>⟧.is_clone ⟦<FunctionVersion<'static> as Clone>⟧.is_infallible }
{}

/// States that the build id of a partly loaded file is that of the whole file, or that a range is
/// missing; and that if all ranges are loaded it is that of the file, with the same error.
pub fn part_build_id_as_whole()
    ensures part { (whole : ObjectFile) (range : Ranges) (is_missing : ℕ × ℕ → Bool) → ArePartOf whole is_missing range
        → Follows is_missing (build_id whole) (build_id (loaded whole range)) }
    ensures id { (whole : ObjectFile) → build_id (loaded whole (all_ranges whole)) ≡ err_map Parse (build_id whole) }
{}
