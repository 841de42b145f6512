//! The relocations of a section of a file that was checked.
ghost use Rattle.std.specs.Prelude.{◌≡◌, ◌≢◌, ◌==◌, if◌then◌else◌, IfSome, MatchOption, None, Ok};
ghost use Rattle.std.specs.Option.{option_map};
ghost use Rattle.std.specs.Result.{result_ok};
ghost use Rattle.elf_abi.specs.Values.{sht_rel, sht_rela};
ghost use Rattle.elf_records.specs.Relocation.{rel_reads, rela_reads};
ghost use Rattle.elf_check.specs.RelocationLists.{AllHaveSymbols, relocations};
ghost use Rattle.elf_check.specs.Relocations.{SoundRelocations, linked_symbols, rel_with_symbol, rela_with_symbol};
ghost use Rattle.elf_check.specs.Relocations.{relocation_with_symbol};

use super::relocations::WholeRelocations;
use super::section::WholeSection;
use super::symbols::WholeSymbols;
use crate::hashes::symbols_of;
use crate::relocations::has_other_info;
use elf::abi;
use elf::endian::EndianParse;
use elf::headers::Headers;
use elf::laws::lists::list_is_what_get_gives;
use elf::parse::ParsingTable;
use elf::relocation::{Rel, Rela, Relocation};
use elf::symbol::Symbol;

impl<'a, 'data, E: EndianParse> WholeSection<'a, 'data, E> {
    ghost use Rattle.elf_check.specs.RelocationViews.{relocations_left};
    ghost use Rattle.elf_check.specs.Whole.{relocation_view, section_file, section_header, whole_symbols};

    // The symbols that relocations name.
    fn linked_symbols<P: Relocation>(&self) -> Option<WholeSymbols<'data, E>>
        requires { SoundRelocations P.reads P.symbol_of (section_file E.little self.now) (section_header self.now) }
        ensures { linked_symbols (section_file E.little self.now) (section_header self.now)
            ≡ Ok (option_map whole_symbols result) }
    {
        if has_other_info(self.file) {
            return None;
        }
        if self.header.sh_link == 0 {
            return None;
        }
        let linked = self.file.section_at(self.header.sh_link as usize).unwrap();
        let (symbols, strings) = symbols_of(self.file, &linked).unwrap();
        Some(WholeSymbols::new(symbols, strings, self.sections))
    }

    // A relocation of a section whose relocations are sound.
    fn relocation_at<P: Relocation>(
        &self,
        index: usize,
    ) -> Option<(P, Option<(Symbol, &'data [u8])>)>
        requires { SoundRelocations P.reads P.symbol_of (section_file E.little self.now) (section_header self.now) }
        ensures { option_map relocation_view result
            ≡ result_ok (relocation_with_symbol P.reads P.symbol_of (section_file E.little self.now)
            (section_header self.now) index) }
    {
        let (bytes, _) = self.data();
        let table = ParsingTable::<E, P>::new(
            self.file.ehdr.endianness,
            self.file.ehdr.class,
            bytes,
        );
        match table.get(index) {
            Ok(relocation) => match self.linked_symbols::<P>() {
                Some(symbols) => {
                    let found = symbols.get(relocation.symbol() as usize).unwrap();
                    Some((relocation, Some(found)))
                }
                None => Some((relocation, None)),
            },
            Err(_) => None,
        }
    }

    // The relocations of a section whose relocations are sound.
    fn relocations<P: Relocation>(&self) -> WholeRelocations<'data, E, P>
        requires { SoundRelocations P.reads P.symbol_of (section_file E.little self.now) (section_header self.now) }
        ensures items { relocations P.reads P.symbol_of (section_file E.little self.now) (section_header self.now)
            ≡ Ok (relocations_left P.reads P.symbol_of result) }
        ensures named { linked_symbols (section_file E.little self.now) (section_header self.now) ≢ Ok None
            → AllHaveSymbols (relocations_left P.reads P.symbol_of result) }
    {
        list_is_what_get_gives::<P>();
        let (bytes, _) = self.data();
        let table = ParsingTable::<E, P>::new(
            self.file.ehdr.endianness,
            self.file.ehdr.class,
            bytes,
        );
        let _ = table.len();
        match self.linked_symbols::<P>() {
            Some(symbols) => {
                symbols.are_read();
                WholeRelocations::new(table, Some(symbols))
            }
            None => WholeRelocations::new(table, None),
        }
    }

    /// Relocation `index` of a section of type `SHT_REL`, with the symbol that it names and its name, if the section is
    /// linked to symbols. `None` exactly if there is no such relocation, or the section has another type. In
    /// little-endian files of 64-bit MIPS the symbol is not shown.
    pub fn rel(&self, index: usize) -> Option<(Rel, Option<(Symbol, &'data [u8])>)>
        ensures { option_map relocation_view result ≡ if (section_header self.now).sh_type == sht_rel
            then result_ok (rel_with_symbol (section_file E.little self.now) (section_header self.now) index)
            else None }
    {
        if self.header.sh_type == abi::SHT_REL {
            self.relocation_at::<Rel>(index)
        } else {
            None
        }
    }

    /// Relocation `index` of a section of type `SHT_RELA`, with the symbol that it names and its name, if the section
    /// is linked to symbols. `None` exactly if there is no such relocation, or the section has another type. In
    /// little-endian files of 64-bit MIPS the symbol is not shown.
    pub fn rela(&self, index: usize) -> Option<(Rela, Option<(Symbol, &'data [u8])>)>
        ensures { option_map relocation_view result ≡ if (section_header self.now).sh_type == sht_rela
            then result_ok (rela_with_symbol (section_file E.little self.now) (section_header self.now) index)
            else None }
    {
        if self.header.sh_type == abi::SHT_RELA {
            self.relocation_at::<Rela>(index)
        } else {
            None
        }
    }

    /// The relocations of a section of type `SHT_REL` in order, each with the symbol that it names and its name, or
    /// `None` exactly if the section has another type. If the section is linked to symbols, each relocation has its
    /// symbol, except in little-endian files of 64-bit MIPS, where none is shown.
    pub fn rels(&self) -> Option<WholeRelocations<'data, E, Rel>>
        ensures items { MatchOption result ((section_header self.now).sh_type ≢ sht_rel) (λ found.
            relocations rel_reads (λ r. r.r_sym) (section_file E.little self.now) (section_header self.now)
            ≡ Ok (relocations_left rel_reads (λ r. r.r_sym) found)) }
        ensures named { linked_symbols (section_file E.little self.now) (section_header self.now) ≢ Ok None
            → IfSome result (λ found. AllHaveSymbols (relocations_left rel_reads (λ r. r.r_sym) found)) }
    {
        if self.header.sh_type == abi::SHT_REL {
            Some(self.relocations::<Rel>())
        } else {
            None
        }
    }

    /// The relocations of a section of type `SHT_RELA`, as `rels` has those of type `SHT_REL`.
    pub fn relas(&self) -> Option<WholeRelocations<'data, E, Rela>>
        ensures items { MatchOption result ((section_header self.now).sh_type ≢ sht_rela) (λ found.
            relocations rela_reads (λ r. r.r_sym) (section_file E.little self.now) (section_header self.now)
            ≡ Ok (relocations_left rela_reads (λ r. r.r_sym) found)) }
        ensures named { linked_symbols (section_file E.little self.now) (section_header self.now) ≢ Ok None
            → IfSome result (λ found. AllHaveSymbols (relocations_left rela_reads (λ r. r.r_sym) found)) }
    {
        if self.header.sh_type == abi::SHT_RELA {
            Some(self.relocations::<Rela>())
        } else {
            None
        }
    }
}
