//! The sections that are looked up most often, found in one pass.
ghost use Rattle.std.specs.Prelude.{◌≡◌, []};
ghost use Rattle.elf_records.specs.Number.{ok_map};
ghost use Rattle.elf_parts.specs.GnuFind.{gnu_view};
ghost use Rattle.elf_parts.specs.SysvFind.{sysv_view};
ghost use Rattle.elf.specs.Common.{common_view, last_of_each};
ghost use Rattle.elf.specs.ObjectFile.{object_file};
ghost use Rattle.elf.specs.ElfBytes.{view};
ghost use Rattle.elf.specs.declared.elf_bytes.common.CommonElfData.{CommonElfData};

use super::ElfBytes;
use crate::headers::Headers;
use elf_abi::abi;
use elf_parts::dynamic::DynamicTable;
use elf_parts::endian::EndianParse;
use elf_parts::hash::{GnuHashTable, SysVHashTable};
use elf_parts::parse::ParseError;
use elf_parts::section::SectionHeader;
use elf_parts::string_table::StringTable;
use elf_parts::symbol::SymbolTable;

/// The sections that are looked up most often. A field is `None` if the file does not have it.
#[derive(Debug, Default, Drop)]
pub struct CommonElfData<'data, E: EndianParse> {
    /// The symbols: section type `SHT_SYMTAB`.
    pub symtab: Option<SymbolTable<'data, E>>,
    /// The strings with the names of these symbols.
    pub symtab_strs: Option<StringTable<'data>>,
    /// The dynamic symbols: section type `SHT_DYNSYM`.
    pub dynsyms: Option<SymbolTable<'data, E>>,
    /// The strings with the names of the dynamic symbols.
    pub dynsyms_strs: Option<StringTable<'data>>,
    /// The dynamic entries: section type `SHT_DYNAMIC`, or segment type `PT_DYNAMIC`.
    pub dynamic: Option<DynamicTable<'data, E>>,
    /// The SysV hash section (gABI, chapter "Hash Table"): section type `SHT_HASH`.
    pub sysv_hash: Option<SysVHashTable<'data, E>>,
    /// The GNU hash section: section type `SHT_GNU_HASH`.
    pub gnu_hash: Option<GnuHashTable<'data, E>>,
}

impl<E: EndianParse> CommonElfData<'static, E> {
    /// States that the default has nothing: each of its fields is `None`.
    pub fn default_has_nothing()
        ensures { (found : CommonElfData E) → ⟦<CommonElfData<'static, E> as Default>⟧.is_default found
            → common_view found ≡ last_of_each [] }
    {}
}

impl<'data, E: EndianParse> ElfBytes<'data, E> {
    ghost use Rattle.elf.specs.Common.{common_of_sections, common_part, find_common_data};
    ghost use Rattle.elf.specs.Common.{gnu_hash_table_of, sysv_hash_table_of};
    ghost use Rattle.elf.specs.inner.Passes.{with_part};

    // The table of a SysV hash section.
    fn sysv_hash_table_of(
        &self,
        shdr: &SectionHeader,
    ) -> Result<SysVHashTable<'data, E>, ParseError>
        ensures { ok_map sysv_view result ≡ sysv_hash_table_of (object_file E.little (view self.now)) shdr.now }
    {
        let bytes = self.section_range(shdr)?;
        SysVHashTable::new(self.ehdr.endianness, self.ehdr.class, bytes)
    }

    // The table of a GNU hash section.
    fn gnu_hash_table_of(&self, shdr: &SectionHeader) -> Result<GnuHashTable<'data, E>, ParseError>
        ensures { ok_map gnu_view result ≡ gnu_hash_table_of (object_file E.little (view self.now)) shdr.now }
    {
        let bytes = self.section_range(shdr)?;
        GnuHashTable::new(self.ehdr.endianness, self.ehdr.class, bytes)
    }

    // The data found so far, with those of one more section.
    fn with_section(
        &self,
        mut found: CommonElfData<'data, E>,
        shdr: &SectionHeader,
    ) -> Result<CommonElfData<'data, E>, ParseError>
        ensures { ok_map common_view result
            ≡ ok_map (with_part (common_view found.entry))
            (common_part (object_file E.little (view self.now)) shdr.now) }
    {
        match shdr.sh_type {
            abi::SHT_SYMTAB => {
                let (symbols, strings) = self.symbols_of(shdr)?;
                found.symtab = Some(symbols);
                found.symtab_strs = Some(strings);
            }
            abi::SHT_DYNSYM => {
                let (symbols, strings) = self.symbols_of(shdr)?;
                found.dynsyms = Some(symbols);
                found.dynsyms_strs = Some(strings);
            }
            abi::SHT_DYNAMIC => found.dynamic = Some(self.section_dynamic(shdr)?),
            abi::SHT_HASH => found.sysv_hash = Some(self.sysv_hash_table_of(shdr)?),
            abi::SHT_GNU_HASH => found.gnu_hash = Some(self.gnu_hash_table_of(shdr)?),
            _ => {}
        }
        Ok(found)
    }

    // The data of all sections.
    #[tactic(auto, using(crate::proofs::CommonPass::common_in_all, crate::proofs::CommonPass::common_of_none))]
    fn common_of_sections(&self) -> Result<CommonElfData<'data, E>, ParseError>
        ensures { ok_map common_view result ≡ common_of_sections (object_file E.little (view self.now)) }
    {
        let mut found = CommonElfData {
            symtab: None,
            symtab_strs: None,
            dynsyms: None,
            dynsyms_strs: None,
            dynamic: None,
            sysv_hash: None,
            gnu_hash: None,
        };
        let Some(shdrs) = self.shdrs else {
            return Ok(found);
        };
        for shdr in shdrs {
            found = self.with_section(found, &shdr)?;
        }
        Ok(found)
    }

    /// Returns the symbols, the dynamic entries and the hash sections of a file, found in one pass over its sections.
    /// Each comes from the last section of its type: `SHT_SYMTAB`, `SHT_DYNSYM`, `SHT_DYNAMIC`, `SHT_HASH` and
    /// `SHT_GNU_HASH`. If there is no section of type `SHT_DYNAMIC`, the dynamic entries are those of the first segment
    /// of type `PT_DYNAMIC`.
    ///
    /// The error is that of the first section of these types, in the order of the table, that cannot be read: for
    /// symbols those of `symbol_table`, for dynamic entries those of `dynamic`, for a hash section that of its range
    /// and then that of `new`. After all sections come the errors of `segment_data` for the segment.
    ///
    /// ```rust
    /// let found = file.find_common_data()?;
    /// if let (Some(symbols), Some(names)) = (&found.dynsyms, &found.dynsyms_strs) {
    ///     println!(rt; "{}", names.get(symbols.get(1)?.st_name as usize)?)?;
    /// }
    /// ```
    pub fn find_common_data(&self) -> Result<CommonElfData<'data, E>, ParseError>
        ensures { ok_map common_view result ≡ find_common_data (object_file E.little (view self.now)) }
    {
        let mut found = self.common_of_sections()?;
        if found.dynamic.is_none()
            && let Some(phdr) = self.first_segment_of(abi::PT_DYNAMIC)
        {
            found.dynamic = Some(self.segment_dynamic(&phdr)?);
        }
        Ok(found)
    }
}
