//! The two tables of headers, as the file header declares them.
ghost use Rattle.std.specs.Prelude.{◌≡◌};
ghost use Rattle.elf_records.specs.Clones.{ClonesExactly};
ghost use Rattle.elf_reading.specs.Tables.{count_word, declared_sections, declared_segments};

use elf_abi::abi::PN_XNUM;
use elf_records::endian::EndianParse;
use elf_records::file::FileHeader;
use elf_records::section::SectionHeader;

/// The field of the first section header that holds the number of a table's records if it does not fit the file header.
#[derive(Copy, Clone)]
pub enum CountWord {
    /// `sh_size`, which holds the number of section headers.
    ShSize,
    /// `sh_info`, which holds the number of program headers.
    ShInfo,
}

impl CountWord {
    /// The value of that field.
    pub fn count_in(self, first: &SectionHeader) -> u64
        ensures { result ≡ count_word self first.now }
    {
        match self {
            CountWord::ShSize => first.sh_size,
            CountWord::ShInfo => u64::from(first.sh_info),
        }
    }
}

/// A table as the file header declares it.
#[derive(Copy, Clone)]
pub struct DeclaredTable {
    /// The offset of the table in bytes, or 0 if the file declares none.
    pub offset: u64,
    /// The size of a record in bytes.
    pub entsize: u16,
    /// The number of records, or `extended`.
    pub count: u16,
    /// The value of `count` which says that the first section header holds the number of records.
    pub extended: u16,
    /// The field of the first section header that holds it then.
    pub word: CountWord,
}

/// The clones of these values are the same values, and cloning them cannot fail.
pub fn clones()
    ensures word { ClonesExactly ⟦<CountWord as Clone>⟧.is_clone ⟦<CountWord as Clone>⟧.is_infallible }
    ensures table { ClonesExactly ⟦<DeclaredTable as Clone>⟧.is_clone ⟦<DeclaredTable as Clone>⟧.is_infallible }
{}

impl DeclaredTable {
    /// The table of section headers.
    pub fn of_sections<E: EndianParse>(ehdr: &FileHeader<E>) -> Self
        ensures { result ≡ declared_sections ehdr.now }
    {
        DeclaredTable {
            offset: ehdr.e_shoff,
            entsize: ehdr.e_shentsize,
            count: ehdr.e_shnum,
            extended: 0,
            word: CountWord::ShSize,
        }
    }

    /// The table of program headers.
    pub fn of_segments<E: EndianParse>(ehdr: &FileHeader<E>) -> Self
        ensures { result ≡ declared_segments ehdr.now }
    {
        DeclaredTable {
            offset: ehdr.e_phoff,
            entsize: ehdr.e_phentsize,
            count: ehdr.e_phnum,
            extended: PN_XNUM,
            word: CountWord::ShInfo,
        }
    }
}
