//! Laws: the listings of both readers are the same.
ghost use Rattle.std.specs.Prelude.{◌≡◌, ℕ, List, Ok};
ghost use Rattle.elf.specs.StreamFile.{stream_file};
ghost use Rattle.elf.specs.ObjectFile.{object_file};
ghost use Rattle.elf_reading.specs.Opening.{opened_file};
ghost use Rattle.elf.specs.ElfStream.{StreamView};
ghost use Rattle.elf_reading.specs.Opening.{headers_of};
ghost use Rattle.elf.specs.ElfBytes.{with_header};
ghost use Rattle.elf_reading.specs.Opening.{FileView};
ghost use Rattle.elf_records.specs.declared.file.FileHeader.{FileHeader};
ghost use Rattle.elfshow.specs.Question.{Question};
ghost use Rattle.elfshow.specs.Text.{text};

use elf::endian::EndianParse;
use elf::readers::calls_answer_alike;

/// States that the text of every list of calls over an opened file is the same for the results of an `ElfBytes` and of
/// an `ElfStream`, whatever header both have in `ehdr`.
pub fn texts_are_the_same<E: EndianParse>()
    ensures { (bytes : List ℕ) (v : FileView E) (header : FileHeader E) (s : StreamView E) (calls : List Question) →
        opened_file E.little E.of_byte bytes ≡ Ok v → s.headers ≡ headers_of (with_header v header) →
        text header (object_file E.little (with_header v header)) calls
        ≡ text s.headers.ehdr (stream_file E.little s bytes) calls }
{
    calls_answer_alike::<E>();
}
