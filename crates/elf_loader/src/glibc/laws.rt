//! Laws of the answers: theorems for the proofs of callers. Each is the contract of a function that computes nothing; a
//! caller uses the law by calling it.
ghost use Rattle.std.specs.Prelude.{ℕ, IsOk, List};
ghost use Rattle.elf.specs.declared.loaded_ranges.LoadedParts.{LoadedParts};
ghost use Rattle.elf_loader.specs.Glibc.{verdict};
ghost use Rattle.elf_loader.specs.GlibcLaws.{IsPartOf, VerdictFollows, whole_file};
ghost use Rattle.elf_loader.specs.declared.glibc.Kind.{Kind};

/// States that what is answered of a file that is loaded in part is what is answered of the whole file, or that a range
/// is missing. Such a range lies in the file, has bytes, and lies within none of the loaded ones. Of a whole file no
/// range is missing.
pub fn part_is_answered_as_whole()
    ensures part { (kind : Kind) (bytes : List ℕ) (file : LoadedParts) → IsPartOf bytes file
        → VerdictFollows kind bytes file }
    ensures whole { (kind : Kind) (bytes : List ℕ) → IsOk (verdict kind (whole_file bytes)) }
{}
