//! The result of checking a hash section, and its line.
ghost use Rattle.std.specs.Prelude.{◌≡◌, OnOk};
ghost use Rattle.std.specs.Io.KnownBytes.{Appends};
ghost use Rattle.elf_records.specs.Number.{ok_map};
ghost use Rattle.elf_records.specs.StringTable.{strings_view};
ghost use Rattle.elf_records.specs.Table.{table_view};
ghost use Rattle.elf_hash_check.specs.Object.{object_in};
ghost use Rattle.elfshow.specs.Verdicts.{verdict_of};
ghost use Rattle.elfshow.specs.Hashes.{verdict_line};

use elf::ParseError;
use elf::endian::EndianParse;
use elf::file::Class;
use elf::string_table::StringTable;
use elf::symbol::SymbolTable;
use elf_hash_check::hashcheck::{Checked, HashKind, check_any};
use std::io;
use std::io::Write;

/// The result of checking a hash section.
#[derive(Drop)]
pub(crate) enum Verdict {
    Faulty,
    /// The number of symbols that the section indexes.
    Sound(usize),
}

/// Checks bytes as a hash section of these symbols. The error is that of `new` of the table.
pub(crate) fn hash_verdict<E: EndianParse>(
    kind: HashKind,
    endian: E,
    class: Class,
    bytes: &[u8],
    symbols: SymbolTable<'_, E>,
    strings: StringTable<'_>,
) -> Result<Verdict, ParseError>
    ensures { result ≡ ok_map verdict_of (object_in kind (E.little endian) class bytes.now
        (table_view symbols.entry) (strings_view strings.entry)) }
{
    match check_any(kind, endian, class, bytes, symbols, strings) {
        Ok(Checked::Sound(checked)) => Ok(Verdict::Sound(checked.indexed())),
        Ok(Checked::Faulty(_)) => Ok(Verdict::Faulty),
        Err(error) => Err(error),
    }
}

/// Writes the line of a verdict.
pub(crate) fn write_verdict<W: Write>(verdict: Verdict, out: &mut W) -> io::Result<()>
    ensures { OnOk result (Appends (W.contents out.old) (W.contents out.new) (verdict_line verdict)) }
{
    match verdict {
        Verdict::Faulty => writeln!(out, "faulty"),
        Verdict::Sound(indexed) => writeln!(out, "sound indexed={indexed}"),
    }
}
