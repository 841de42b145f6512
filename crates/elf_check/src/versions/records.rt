//! The check of the needs and of the definitions.
ghost use Rattle.std.specs.Prelude.{◌↔◌, IsTrue};
ghost use Rattle.elf_records.specs.StringTable.{strings_view};
ghost use Rattle.elf_check.specs.versions.Records.{IsTextAt};

use crate::chains::{Checkable, Entry, chain_fault};
use elf::endian::EndianParse;
use elf::gnu_symver::links::Links;
use elf::gnu_symver::{VerDef, VerDefAux, VerNeed, VerNeedAux};
use elf::string_table::StringTable;

// Whether the string at an offset is text that can be read.
fn is_text_at(strings: &StringTable<'_>, offset: u32) -> bool
    ensures { IsTrue result ↔ IsTextAt (strings_view strings.now) offset }
{
    strings.get(offset as usize).is_ok()
}

impl Checkable for VerNeedAux {
    ghost use Rattle.elf_check.specs.versions.Records.{SoundNeedAux};

    ghost sound = { SoundNeedAux };

    fn is_sound<E: EndianParse>(
        &self,
        _start: usize,
        _links: &Links<'_, E, VerNeedAux>,
        strings: &StringTable<'_>,
    ) -> bool {
        is_text_at(strings, self.vna_name)
    }
}

impl Checkable for VerDefAux {
    ghost use Rattle.elf_check.specs.versions.Records.{SoundDefAux};

    ghost sound = { SoundDefAux };

    fn is_sound<E: EndianParse>(
        &self,
        _start: usize,
        _links: &Links<'_, E, VerDefAux>,
        strings: &StringTable<'_>,
    ) -> bool {
        is_text_at(strings, self.vda_name)
    }
}

impl Entry for VerNeed {
    ghost use Rattle.elf_check.specs.versions.Records.{need_extent};

    ghost extent = { need_extent };

    fn extent(&self) -> u64 {
        self.vn_cnt as u64 * 16
    }
}

impl Entry for VerDef {
    ghost use Rattle.elf_check.specs.versions.Records.{def_extent};

    ghost extent = { def_extent };

    fn extent(&self) -> u64 {
        self.vd_cnt as u64 * 8
    }
}

impl Checkable for VerNeed {
    ghost use Rattle.elf_check.specs.versions.Records.{SoundNeed};

    ghost sound = { SoundNeed };

    fn is_sound<E: EndianParse>(
        &self,
        start: usize,
        links: &Links<'_, E, VerNeed>,
        strings: &StringTable<'_>,
    ) -> bool {
        if !is_text_at(strings, self.vn_file) {
            return false;
        }
        let versions = self.aux_links(links, start);
        chain_fault(versions, self.vn_cnt as u64, strings).is_none()
    }
}

impl Checkable for VerDef {
    ghost use Rattle.elf_check.specs.versions.Records.{SoundDef};

    ghost sound = { SoundDef };

    fn is_sound<E: EndianParse>(
        &self,
        start: usize,
        links: &Links<'_, E, VerDef>,
        strings: &StringTable<'_>,
    ) -> bool {
        if self.vd_cnt == 0 {
            return false;
        }
        let names = self.aux_links(links, start);
        chain_fault(names, self.vd_cnt as u64, strings).is_none()
    }
}
