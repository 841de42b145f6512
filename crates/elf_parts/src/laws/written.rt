//! Laws of what is written: reading it gives it back.
ghost use Rattle.std.specs.Prelude.{◌≡◌, ◌+◌, ◌<◌, ◌^◌, ◌∷◌, ◌++◌, [], ℕ, ℤ, Bool, List, Ok, length};
ghost use Rattle.elf_records.specs.Number.{number, signed_number};
ghost use Rattle.elf_records.specs.Compression.{compression_header_layout};
ghost use Rattle.elf_records.specs.Dynamic.{dyn_layout};
ghost use Rattle.elf_records.specs.File.{header_with_tail, tail_fields};
ghost use Rattle.elf_parts.specs.Hash.{gnu_header_layout, sysv_header_layout};
ghost use Rattle.elf_parts.specs.Note.{NoteContent, abi_tag_layout, note_header_layout, notes_in};
ghost use Rattle.elf_records.specs.Record.{size_of};
ghost use Rattle.elf_records.specs.Relocation.{rel_layout, rela_layout};
ghost use Rattle.elf_records.specs.Section.{section_header_layout};
ghost use Rattle.elf_records.specs.Segment.{program_header_layout};
ghost use Rattle.elf_records.specs.StringTable.{string_at};
ghost use Rattle.elf_parts.specs.Structs.{DefinitionsAreChained, NeedsAreChained, NotesFit, abi_tag_struct};
ghost use Rattle.elf_parts.specs.Structs.{compression_header_struct, dyn_struct, gnu_header_struct, note_header_struct};
ghost use Rattle.elf_parts.specs.Structs.{notes_bytes, program_header_struct, rel_struct, rela_struct};
ghost use Rattle.elf_parts.specs.Structs.{section_header_struct, symbol_struct, sysv_header_struct, tail_struct};
ghost use Rattle.elf_parts.specs.Structs.{ver_def_aux_struct, ver_def_struct, ver_need_aux_struct, ver_need_struct};
ghost use Rattle.elf_parts.specs.Structs.{version_index_struct};
ghost use Rattle.elf_records.specs.Symbol.{symbol_layout};
ghost use Rattle.elf_parts.specs.gnu_symver.Lists.{ver_defs, ver_needs};
ghost use Rattle.elf_parts.specs.gnu_symver.Records.{ver_def_aux_layout, ver_def_layout, ver_need_aux_layout};
ghost use Rattle.elf_parts.specs.gnu_symver.Records.{ver_need_layout, version_index_layout};
ghost use Rattle.elf_records.specs.Table.{table_in};
ghost use Rattle.elf_records.specs.Word.{u32_layout, u64_layout};
ghost use Rattle.elf_parts.specs.Written.{Fits, FitsSigned, HasNoNul, IsStruct, PlacesAreSums, bytes_of, complement};
ghost use Rattle.elf_parts.specs.Written.{strings_of, struct_bytes, word, xword};
ghost use Rattle.elf_records.specs.declared.file.Class.{Class};
ghost use Rattle.elf_records.specs.declared.file.FileHeader.{FileHeader as IsFileHeader};
ghost use Rattle.elf_parts.specs.declared.gnu_symver.records.VerDef.{VerDef as IsVerDef};
ghost use Rattle.elf_parts.specs.declared.gnu_symver.records.VerDefAux.{VerDefAux as IsVerDefAux};
ghost use Rattle.elf_parts.specs.declared.gnu_symver.records.VerNeed.{VerNeed as IsVerNeed};
ghost use Rattle.elf_parts.specs.declared.gnu_symver.records.VerNeedAux.{VerNeedAux as IsVerNeedAux};

/// A number that fits the width is read from its bytes in either order, and these bytes are as many as the width. A
/// signed number that fits the width is read from its two's complement, which fits the width too.
#[tactic(auto, using(crate::proofs::ReadBack::number_bytes_of, crate::proofs::ReadBack::length_bytes_of, crate::proofs::ReadBack::signed_number_complement, crate::proofs::ReadBack::complement_lt))]
pub fn numbers_are_read_back()
    ensures value { (little : Bool) (width n : ℕ) → n < 256 ^ width → number little (bytes_of little width n) ≡ n }
    ensures width { (little : Bool) (width n : ℕ) → length (bytes_of little width n) ≡ width }
    ensures signed { (width : ℕ) (z : ℤ) → 0 < width → FitsSigned width z →
        signed_number width (complement width z) ≡ z }
    ensures complement { (width : ℕ) (z : ℤ) → 0 < width → FitsSigned width z → complement width z < 256 ^ width }
{}

/// A record whose fields fit is read from the bytes of its C structure, in both classes and byte orders, wherever they
/// lie below 2^64. The structure has the size of the record; a table of structures is read as exactly these records;
/// equal bytes are of equal records; and each place in the field table is the sum of the widths before it. A
/// compression header is so whatever its reserved word is. Words are those of four and of eight bytes that hash
/// sections have.
pub fn records_are_read_back()
    ensures section_header { IsStruct section_header_layout section_header_struct }
    ensures program_header { IsStruct program_header_layout program_header_struct }
    ensures symbol { IsStruct symbol_layout symbol_struct }
    ensures rel { IsStruct rel_layout rel_struct }
    ensures rela { IsStruct rela_layout rela_struct }
    ensures dynamic { IsStruct dyn_layout dyn_struct }
    ensures note_header { IsStruct note_header_layout (λ _. note_header_struct) }
    ensures abi_tag { IsStruct abi_tag_layout (λ _. abi_tag_struct) }
    ensures ver_need { IsStruct ver_need_layout (λ _. ver_need_struct) }
    ensures ver_need_aux { IsStruct ver_need_aux_layout (λ _. ver_need_aux_struct) }
    ensures ver_def { IsStruct ver_def_layout (λ _. ver_def_struct) }
    ensures ver_def_aux { IsStruct ver_def_aux_layout (λ _. ver_def_aux_struct) }
    ensures version_index { IsStruct version_index_layout (λ _. version_index_struct) }
    ensures sysv_header { IsStruct sysv_header_layout (λ _. sysv_header_struct) }
    ensures gnu_header { IsStruct gnu_header_layout (λ _. gnu_header_struct) }
    ensures compression_header { (reserved : ℕ) →
        IsStruct compression_header_layout (compression_header_struct reserved) }
    ensures u32 { IsStruct u32_layout (λ _ n. word n ∷ []) }
    ensures u64 { IsStruct u64_layout (λ _ n. xword n ∷ []) }
{}

/// The tail of a file header whose fields fit, at the front of the bytes, is read as that header. It has the size
/// of its fields, and each place in the field table is the sum of the widths before it.
#[tactic(auto, using(crate::proofs::ReadStructs::tail_read_back, crate::proofs::ReadStructs::tail_long))]
pub fn tails_are_read_back<E>()
    ensures value { (little : E → Bool) (x : IsFileHeader E) (after : List ℕ) → Fits (tail_struct x.class x) →
        header_with_tail little (x.endianness, x.class, x.osabi, x.abiversion)
        (struct_bytes (little x.endianness) (tail_struct x.class x) ++ after) ≡ Ok x }
    ensures size { (little : E → Bool) (x : IsFileHeader E) →
        length (struct_bytes (little x.endianness) (tail_struct x.class x)) ≡ size_of (tail_fields x.class) }
    ensures places { (class : Class) → PlacesAreSums (tail_fields class) }
{}

/// Lists of names, of notes, of needs and of definitions are read back.
///
/// In a string table of names, each followed by a 0 byte, the offset of a name reads as the name, and an offset
/// within it as the rest of it. Only what is read must have no 0 byte: a string ends at its first. Notes whose numbers
/// fit, laid out by the gABI's rule (header, name, padding, descriptor, padding), are read as exactly these notes, for
/// every alignment but 0. Needs and definitions that are linked by their distances, wherever they lie in the bytes, are
/// read as these, each with its versions or its names. The bytes of all but names are fewer than 2^64.
#[tactic(auto, using(crate::proofs::ReadStrings::name_read_back, crate::proofs::ReadNotes::notes_read_back, crate::proofs::ReadChains::needs_read_back, crate::proofs::ReadChains::definitions_read_back))]
pub fn lists_are_read_back()
    ensures names { (before after : List (List ℕ)) (head text rest : List ℕ) → HasNoNul text →
        string_at (strings_of (before ++ (head ++ text) ∷ after) ++ rest) (length (strings_of before) + length head)
        ≡ Ok text }
    ensures notes { (little : Bool) (align : ℕ) (notes : List NoteContent) → 0 < align → NotesFit notes →
        length (notes_bytes little align 0 notes) < 2 ^ 64 →
        notes_in little align (notes_bytes little align 0 notes) ≡ notes }
    ensures needs { (little : Bool) (class : Class) (bytes : List ℕ) → length bytes < 2 ^ 64 →
        (needs : List (IsVerNeed × List IsVerNeedAux)) (start : ℕ) → NeedsAreChained little bytes start needs →
        ver_needs (table_in little class bytes) (length needs) start ≡ needs }
    ensures definitions { (little : Bool) (class : Class) (bytes : List ℕ) → length bytes < 2 ^ 64 →
        (definitions : List (IsVerDef × List IsVerDefAux)) (start : ℕ) →
        DefinitionsAreChained little bytes start definitions →
        ver_defs (table_in little class bytes) (length definitions) start ≡ definitions }
{}
