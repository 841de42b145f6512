//! Whole files: what is written is opened.
ghost use Rattle.std.specs.Prelude.{◌≡◌, [], ◌∷◌, ℕ, Bool, List, None, Ok, Option, Some};
ghost use Rattle.elf_records.specs.Endian.{any_is_little, any_of_byte};
ghost use Rattle.elf_records.specs.declared.file.FileHeader.{FileHeader};
ghost use Rattle.elf_records.specs.declared.section.SectionHeader.{SectionHeader};
ghost use Rattle.elf_records.specs.declared.segment.ProgramHeader.{ProgramHeader};
ghost use Rattle.elf.specs.Names.{name_table};
ghost use Rattle.elf.specs.ObjectFile.{object_file};
ghost use Rattle.elf_reading.specs.Opening.{opened_file};
ghost use Rattle.elf_reading.specs.Opening.{section_list, segment_list};
ghost use Rattle.elf_laws.specs.Files.{two_names, two_sections};
ghost use Rattle.elf_laws.specs.Known.{extended_file, extended_header, extended_section, extended_segment};
ghost use Rattle.elf_laws.specs.Known.{names_header, null_header, two_header_with};
ghost use Rattle.elf_laws.specs.WrittenFiles.{IsWritten, NamesLie, segments_of};
ghost use Rattle.elf_laws.specs.WrittenFiles.{written_sections, written_segments, written_view};

/// A file that holds a header at its front, and the tables that the header declares if it says that they lie, is
/// opened with this header and these tables. Either number of headers may be in the first section header.
pub fn written_files_are_opened<E>()
    ensures view { (little : E → Bool) (of_byte : ℕ → Option E) (h : FileHeader E) (sections : List SectionHeader)
        (segments : Option (List ProgramHeader)) (bytes : List ℕ) → IsWritten little h of_byte sections segments bytes →
        opened_file little of_byte bytes ≡ Ok (written_view little h sections segments bytes) }
    ensures sections { (little : E → Bool) (of_byte : ℕ → Option E) (h : FileHeader E) (sections : List SectionHeader)
        (segments : Option (List ProgramHeader)) (bytes : List ℕ) → IsWritten little h of_byte sections segments bytes →
        section_list (written_sections little h sections) ≡ sections }
    ensures segments { (little : E → Bool) (of_byte : ℕ → Option E) (h : FileHeader E) (sections : List SectionHeader)
        (segments : Option (List ProgramHeader)) (bytes : List ℕ) → IsWritten little h of_byte sections segments bytes →
        segment_list (written_segments little h segments) ≡ segments_of segments }
    ensures names { (little : E → Bool) (of_byte : ℕ → Option E) (h : FileHeader E) (sections : List SectionHeader)
        (segments : Option (List ProgramHeader)) (names bytes : List ℕ) →
        IsWritten little h of_byte sections segments bytes → NamesLie little h sections names bytes →
        name_table (object_file little (written_view little h sections segments bytes)) ≡ Ok (Some names) }
{}

/// The file with two sections is written so; and so is a file with one section and one segment, both of whose numbers
/// are in its first section header.
pub fn files_that_are_written()
    ensures two { IsWritten any_is_little (two_header_with 1) any_of_byte (null_header ∷ names_header ∷ []) None
        two_sections }
    ensures names { NamesLie any_is_little (two_header_with 1) (null_header ∷ names_header ∷ []) two_names
        two_sections }
    ensures extended { IsWritten any_is_little extended_header any_of_byte (extended_section ∷ [])
        (Some (extended_segment ∷ [])) extended_file }
{}
