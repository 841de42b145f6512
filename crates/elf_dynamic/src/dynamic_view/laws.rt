//! Laws of what the dynamic linker sees: theorems for the proofs of callers. Each is the contract of a function that
//! computes nothing; a caller uses the law by calling it.
ghost use Rattle.std.specs.Prelude.{◌≡◌, ℕ, Bool, List, Some};
ghost use Rattle.elf.specs.Answers.{dynamic_symbol_table};
ghost use Rattle.elf.specs.ObjectFile.{Extent, FileOf, ObjectFile, err_map};
ghost use Rattle.elf.specs.Parts.{ArePartOf, Ranges, loaded};
ghost use Rattle.elf_dynamic.specs.dynamic_view.Entries.{read_error};
ghost use Rattle.elf_dynamic.specs.dynamic_view.Laws.{FollowsWhole, SectionsAgree};
ghost use Rattle.elf_dynamic.specs.dynamic_view.Symbols.{symbols_with_strings};
ghost use Rattle.elf_records.specs.Number.{ok_map};
ghost use Rattle.elf_records.specs.declared.dynamic.Dyn.{Dyn};
ghost use Rattle.elf_records.specs.declared.section.SectionHeader.{SectionHeader};

/// States that each result over a partly loaded file is that of the whole file, or names a range that is missing.
pub fn part_view_as_whole()
    ensures { (whole : ObjectFile) (range : Ranges) (is_missing : ℕ × ℕ → Bool) → ArePartOf whole is_missing range
        → FollowsWhole is_missing whole (loaded whole range) }
{}

/// States that the symbols and their strings are those of `dynamic_symbol_table`, if the file has sections of both at
/// the offsets that its segments give.
pub fn symbols_as_by_sections()
    ensures { (x : Extent) (file : FileOf x) (entries : List Dyn) (s linked : SectionHeader)
        → SectionsAgree file entries s linked
        → ok_map Some (symbols_with_strings file entries) ≡ err_map (read_error x) (dynamic_symbol_table file) }
{}
