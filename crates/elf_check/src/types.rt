//! The types that at most one section of a file may have.
ghost use Rattle.std.specs.Prelude.{◌≡◌};
ghost use Rattle.elf.specs.ElfBytes.{view};
ghost use Rattle.elf.specs.ObjectFile.{object_file};
ghost use Rattle.elf_check.specs.AllFaults.{SingleType};
ghost use Rattle.elf_check.specs.Sections.{is_repeated};
ghost use Rattle.elf_check.specs.inner.Walk.{IsFaultIfAny};

use crate::faults::FileFault;
use elf::ElfBytes;
use elf::endian::EndianParse;

// Whether more than one section has a type.
fn is_repeated<E: EndianParse>(file: &ElfBytes<'_, E>, sh_type: u32) -> bool
    ensures { result ≡ is_repeated (object_file E.little (view file.now)).sections sh_type }
{
    match file.section_headers() {
        Some(shdrs) => shdrs.iter().filter(|shdr| shdr.sh_type == sh_type).count() > 1,
        None => false,
    }
}

// The fault of a type that at most one section may have.
pub(crate) fn type_fault<E: EndianParse>(file: &ElfBytes<'_, E>, sh_type: u32) -> Option<FileFault>
    ensures { IsFaultIfAny (object_file E.little (view file.now)) (SingleType sh_type) result }
{
    if is_repeated(file, sh_type) {
        Some(FileFault::Repeated { sh_type })
    } else {
        None
    }
}
