//! Relocations, without and with an addend, and iterators over them (gABI, chapter "Relocation").
ghost use Rattle.std.specs.Prelude.{◌≡◌, [], ◌∷◌, ℕ, refl, true};
ghost use Rattle.elf_records.specs.Relocation.{rel, rela, sym_of_info, type_of_info};

use crate::endian::EndianParse;
use crate::file::Class;
use crate::laws::tables::PlainRecord;
use crate::parse::{ParseAt, ParseError, ParsingIterator};

/// An iterator over relocations without addends.
pub type RelIterator<'data, E> = ParsingIterator<'data, E, Rel>;

/// An iterator over relocations with addends.
pub type RelaIterator<'data, E> = ParsingIterator<'data, E, Rela>;

/// The C structure of a relocation without an addend in a 32-bit file.
#[derive(Debug, Drop)]
#[repr(C)]
pub struct Elf32_Rel {
    pub r_offset: u32,
    pub r_info: u32,
}

/// The C structure of a relocation without an addend in a 64-bit file.
#[derive(Debug, Drop)]
#[repr(C)]
pub struct Elf64_Rel {
    pub r_offset: u64,
    pub r_info: u64,
}

/// The C structure of a relocation with an addend in a 32-bit file.
#[derive(Debug, Drop)]
#[repr(C)]
pub struct Elf32_Rela {
    pub r_offset: u32,
    pub r_info: u32,
    pub r_addend: i32,
}

/// The C structure of a relocation with an addend in a 64-bit file.
#[derive(Debug, Drop)]
#[repr(C)]
pub struct Elf64_Rela {
    pub r_offset: u64,
    pub r_info: u64,
    pub r_addend: i64,
}

/// A relocation without an addend, of either class. `r_offset` is the place to change, `r_sym` the index of the
/// symbol and `r_type` the kind of relocation; these two are the parts of `r_info`.
#[derive(Clone, Debug, Drop, PartialEq, Eq)]
pub struct Rel {
    pub r_offset: u64,
    pub r_sym: u32,
    pub r_type: u32,
}

/// A relocation with an addend, of either class: as `Rel`, and `r_addend` is added.
#[derive(Clone, Debug, Drop, PartialEq, Eq)]
pub struct Rela {
    pub r_offset: u64,
    pub r_sym: u32,
    pub r_type: u32,
    pub r_addend: i64,
}

/// The fields of a relocation. Without `r_addend` the addend stands in the place to change.
#[derive(Clone, Copy, Debug, PartialEq, Eq)]
pub struct RelocationFields {
    pub r_offset: u64,
    pub r_sym: u32,
    pub r_type: u32,
    pub r_addend: Option<i64>,
}

/// A relocation, without or with an addend.
pub trait Relocation: PlainRecord + Drop {
    ghost use Rattle.elf_records.specs.declared.relocation.RelocationFields.{RelocationFields};

    ghost symbol_of: { Self → ℕ };

    ghost fields: { Self → RelocationFields };

    /// Returns its fields.
    fn fields(&self) -> RelocationFields
        ensures { result ≡ fields self.now };

    /// Returns the index of its symbol.
    final fn symbol(&self) -> u32
        ensures { result ≡ symbol_of self.now }
    {
        self.fields().r_sym
    }

    ghost symbol_law: { (r : Self) → (fields r).r_sym ≡ symbol_of r };
}

impl Relocation for Rel {
    ghost use Rattle.elf_records.specs.Relocation.{fields_of_rel};

    ghost symbol_of = { λ r. r.r_sym };

    ghost fields = { fields_of_rel };

    ghost symbol_law = { λ _. refl };

    fn fields(&self) -> RelocationFields {
        RelocationFields {
            r_offset: self.r_offset,
            r_sym: self.r_sym,
            r_type: self.r_type,
            r_addend: None,
        }
    }
}

impl Relocation for Rela {
    ghost use Rattle.elf_records.specs.Relocation.{fields_of_rela};

    ghost symbol_of = { λ r. r.r_sym };

    ghost fields = { fields_of_rela };

    ghost symbol_law = { λ _. refl };

    fn fields(&self) -> RelocationFields {
        RelocationFields {
            r_offset: self.r_offset,
            r_sym: self.r_sym,
            r_type: self.r_type,
            r_addend: Some(self.r_addend),
        }
    }
}

// The index of the symbol and the type, which share one number of an ELF32 record.
fn split_32(r_info: u32) -> (u32, u32)
    ensures { result ≡ (sym_of_info Class.ELF32 r_info, type_of_info Class.ELF32 r_info) }
{
    (r_info >> 8, r_info & 0xff)
}

// The same in an ELF64 record.
fn split_64(r_info: u64) -> (u32, u32)
    ensures { result ≡ (sym_of_info Class.ELF64 r_info, type_of_info Class.ELF64 r_info) }
{
    ((r_info >> 32) as u32, (r_info & 0xffff_ffff) as u32)
}

// The relocation that the numbers of an ELF32 record make.
fn rel_32(r_offset: u32, r_info: u32) -> Rel
    ensures { result ≡ rel Class.ELF32 (r_offset ∷ r_info ∷ []) }
{
    let (r_sym, r_type) = split_32(r_info);
    Rel {
        r_offset: r_offset as u64,
        r_sym,
        r_type,
    }
}

// The relocation that the numbers of an ELF64 record make.
fn rel_64(r_offset: u64, r_info: u64) -> Rel
    ensures { result ≡ rel Class.ELF64 (r_offset ∷ r_info ∷ []) }
{
    let (r_sym, r_type) = split_64(r_info);
    Rel {
        r_offset,
        r_sym,
        r_type,
    }
}

// The same with an addend.
fn rela_32(r_offset: u32, r_info: u32, r_addend: u32) -> Rela
    ensures { result ≡ rela Class.ELF32 (r_offset ∷ r_info ∷ r_addend ∷ []) }
{
    let (r_sym, r_type) = split_32(r_info);
    Rela {
        r_offset: r_offset as u64,
        r_sym,
        r_type,
        r_addend: r_addend.cast_signed() as i64,
    }
}

fn rela_64(r_offset: u64, r_info: u64, r_addend: u64) -> Rela
    ensures { result ≡ rela Class.ELF64 (r_offset ∷ r_info ∷ r_addend ∷ []) }
{
    let (r_sym, r_type) = split_64(r_info);
    Rela {
        r_offset,
        r_sym,
        r_type,
        r_addend: r_addend.cast_signed(),
    }
}

impl ParseAt for Rel {
    ghost use Rattle.elf_records.specs.Relocation.{rel_reads};

    const SHAPE: (usize, usize, bool) = (8, 16, true);

    ghost SHAPE = { (8, 16, true) };

    ghost reads = { rel_reads };

    ghost shape_law = { refl };

    #[tactic(auto, unfolding(crate::specs::Record::numbers_at, crate::specs::Record::numbers_end))]
    #[inline(always)]
    fn parse_at<E: EndianParse>(
        endian: E,
        class: Class,
        offset: &mut usize,
        data: &[u8],
    ) -> Result<Self, ParseError> {
        match class {
            Class::ELF32 => {
                let r_offset = endian.parse_u32_at(offset, data)?;
                let r_info = endian.parse_u32_at(offset, data)?;
                Ok(rel_32(r_offset, r_info))
            }
            Class::ELF64 => {
                let r_offset = endian.parse_u64_at(offset, data)?;
                let r_info = endian.parse_u64_at(offset, data)?;
                Ok(rel_64(r_offset, r_info))
            }
        }
    }
}

impl ParseAt for Rela {
    ghost use Rattle.elf_records.specs.Relocation.{rela_reads};

    const SHAPE: (usize, usize, bool) = (12, 24, true);

    ghost SHAPE = { (12, 24, true) };

    ghost reads = { rela_reads };

    ghost shape_law = { refl };

    #[tactic(auto, unfolding(crate::specs::Record::numbers_at, crate::specs::Record::numbers_end))]
    #[inline(always)]
    fn parse_at<E: EndianParse>(
        endian: E,
        class: Class,
        offset: &mut usize,
        data: &[u8],
    ) -> Result<Self, ParseError> {
        match class {
            Class::ELF32 => {
                let r_offset = endian.parse_u32_at(offset, data)?;
                let r_info = endian.parse_u32_at(offset, data)?;
                let r_addend = endian.parse_u32_at(offset, data)?;
                Ok(rela_32(r_offset, r_info, r_addend))
            }
            Class::ELF64 => {
                let r_offset = endian.parse_u64_at(offset, data)?;
                let r_info = endian.parse_u64_at(offset, data)?;
                let r_addend = endian.parse_u64_at(offset, data)?;
                Ok(rela_64(r_offset, r_info, r_addend))
            }
        }
    }
}
