//! The lines of calls without a result.
ghost use Rattle.std.specs.Prelude.{OnOk};
ghost use Rattle.std.specs.Io.KnownBytes.{Appends};
ghost use Rattle.elfshow_lines.specs.NoAnswer.{absent_line, none_line, refused_line};

use std::io;
use std::io::Write;

/// Writes the line of a call for which the reader returns an error.
pub fn write_refused<W: Write>(out: &mut W) -> io::Result<()>
    ensures { OnOk result (Appends (W.contents out.old) (W.contents out.new) refused_line) }
{
    writeln!(out, "refused")
}

/// Writes the line of a section or a segment that the file does not have.
pub fn write_absent<W: Write>(out: &mut W) -> io::Result<()>
    ensures { OnOk result (Appends (W.contents out.old) (W.contents out.new) absent_line) }
{
    writeln!(out, "absent")
}

/// Writes the line of a kind of data that the file does not have.
pub fn write_none<W: Write>(out: &mut W) -> io::Result<()>
    ensures { OnOk result (Appends (W.contents out.old) (W.contents out.new) none_line) }
{
    writeln!(out, "none")
}
