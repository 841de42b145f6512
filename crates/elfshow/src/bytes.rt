//! The text of a call over an `ElfBytes`.
ghost use Rattle.std.specs.Prelude.{OnOk};
ghost use Rattle.std.specs.Io.KnownBytes.{Appends};
ghost use Rattle.elf.specs.ObjectFile.{object_file};
ghost use Rattle.elf.specs.ElfBytes.{view};
ghost use Rattle.elfshow.specs.Question.{question};
ghost use Rattle.elfshow.specs.Text.{call_text};

use crate::calls::Call;
use crate::text;
use elf::ElfBytes;
use elf::endian::EndianParse;
use elfshow_lines::versions::Room;
use std::io;
use std::io::Write;

/// Writes the text of a call over the bytes of a file. A call for which the reader returns an error writes the line
/// `refused`. The call `versions` looks versions up in `room`, and nothing else is allocated.
///
/// The only error is that of the writer; how much of the text the writer got is then not stated.
pub fn write_call<E: EndianParse, R: Room, W: Write>(
    file: &ElfBytes<'_, E>,
    call: Call<'_>,
    room: &R,
    out: &mut W,
) -> io::Result<()>
    ensures { OnOk result (Appends (W.contents out.old) (W.contents out.new)
        (call_text file.now.ehdr (object_file E.little (view file.now)) (question call.entry))) }
{
    text::write_call(file, &file.ehdr, call, room, out)
}
