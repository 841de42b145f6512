//! Dynamic entries, by which a file tells the dynamic linker what it needs, and tables of them (gABI, chapter "Dynamic
//! Section").
ghost use Rattle.std.specs.Prelude.{◌≡◌, [], ◌∷◌, refl, true};
ghost use Rattle.elf_records.specs.Dynamic.{d_un_view, dyn_entry};

use crate::endian::EndianParse;
use crate::file::Class;
use crate::parse::{ParseAt, ParseError, ParsingTable};

/// A table of dynamic entries.
pub type DynamicTable<'data, E> = ParsingTable<'data, E, Dyn>;

/// The C structure of a dynamic entry in a 32-bit file.
#[derive(Debug, Drop)]
#[repr(C)]
pub struct Elf32_Dyn {
    pub d_tag: i32,
    pub d_un: u32,
}

/// The C structure of a dynamic entry in a 64-bit file.
#[derive(Debug, Drop)]
#[repr(C)]
pub struct Elf64_Dyn {
    pub d_tag: i64,
    pub d_un: u64,
}

/// A dynamic entry of either class. Its tag (`DT_*`, a signed number) says whether its other number is a value or
/// an address.
#[derive(Clone, Debug, Drop, PartialEq, Eq)]
pub struct Dyn {
    pub d_tag: i64,
    d_un: u64,
}

impl Dyn {
    /// Returns the number of the entry, if its tag says that it is a value.
    pub fn d_val(&self) -> u64
        ensures { result ≡ d_un_view self.now }
    {
        self.d_un
    }

    /// Returns the number of the entry, if its tag says that it is an address. It is the same number as `d_val`.
    pub fn d_ptr(&self) -> u64
        ensures { result ≡ d_un_view self.now }
    {
        self.d_val()
    }
}

// The entry that the numbers of an ELF32 record make.
fn dyn_32(d_tag: u32, d_un: u32) -> Dyn
    ensures { result ≡ dyn_entry Class.ELF32 (d_tag ∷ d_un ∷ []) }
{
    Dyn {
        d_tag: d_tag.cast_signed() as i64,
        d_un: d_un as u64,
    }
}

// The entry that the numbers of an ELF64 record make.
fn dyn_64(d_tag: u64, d_un: u64) -> Dyn
    ensures { result ≡ dyn_entry Class.ELF64 (d_tag ∷ d_un ∷ []) }
{
    Dyn {
        d_tag: d_tag.cast_signed(),
        d_un,
    }
}

impl ParseAt for Dyn {
    ghost use Rattle.elf_records.specs.Dynamic.{dyn_reads};

    const SHAPE: (usize, usize, bool) = (8, 16, true);

    ghost SHAPE = { (8, 16, true) };

    ghost reads = { dyn_reads };

    ghost shape_law = { refl };

    #[tactic(auto, unfolding(crate::specs::Record::numbers_at, crate::specs::Record::numbers_end))]
    #[inline(always)]
    fn parse_at<E: EndianParse>(
        endian: E,
        class: Class,
        offset: &mut usize,
        data: &[u8],
    ) -> Result<Self, ParseError> {
        match class {
            Class::ELF32 => {
                let d_tag = endian.parse_u32_at(offset, data)?;
                let d_un = endian.parse_u32_at(offset, data)?;
                Ok(dyn_32(d_tag, d_un))
            }
            Class::ELF64 => {
                let d_tag = endian.parse_u64_at(offset, data)?;
                let d_un = endian.parse_u64_at(offset, data)?;
                Ok(dyn_64(d_tag, d_un))
            }
        }
    }
}
