//! A listing that is written by both readers.
ghost use Rattle.std.specs.Prelude.{◌≡◌, IfSome, Some};
ghost use Rattle.elf_reading.specs.Opening.{opened_file};
ghost use Rattle.elfshow.specs.Show.{RanOver};
ghost use Rattle.elf_laws.specs.Listed.{RanInMemory, text_of};

use elf::endian::EndianParse;
use elf::{ElfStream, StreamSource};
use elfshow::Call;
use elfshow::readers::texts_are_the_same;
use elfshow::runs::{RunError, run_bytes, run_stream};
use std::alloc::Allocator;
use std::io::Write;

/// Runs the calls of a listing over the bytes of a file, and then over a stream of a source. Returns what `run_bytes`
/// and `run_stream` return, with `Open` if the stream cannot be opened.
///
/// If the source has the same content, both write the same text, the one that the definition gives for the file that
/// these bytes are. A run that stops says why: the file does not open, or a writer failed; and only of the stream also
/// that the source or an allocation failed. Then exactly the text of the calls before was written.
pub fn run_both_readers<E: EndianParse, S: StreamSource, A: Allocator + Copy, W: Write, V: Write>(
    alloc: A,
    data: &[u8],
    source: S,
    calls: &[Call<'_>],
    out: &mut W,
    other: &mut V,
) -> (Result<(), RunError>, Result<(), RunError>)
    ensures bytes { RanInMemory (opened_file E.little E.of_byte «data».now) (text_of E.little) calls.now
        (W.contents out.old) (W.contents out.new) result.0 }
    ensures stream { S.content source ≡ Some «data».now → RanOver (opened_file E.little E.of_byte «data».now)
        (text_of E.little) calls.now (V.contents other.old) (V.contents other.new) (S.can_fail source) result.1 }
{
    let by_bytes = run_bytes::<E, W>(data, calls, out);
    (
        by_bytes,
        run_opened::<E, S, A, V>(alloc, source, calls, other),
    )
}

// Opens the file that a source holds, and runs the calls over the stream.
fn run_opened<E: EndianParse, S: StreamSource, A: Allocator + Copy, W: Write>(
    alloc: A,
    source: S,
    calls: &[Call<'_>],
    out: &mut W,
) -> Result<(), RunError>
    ensures { IfSome (S.content source) (λ bytes. RanOver (opened_file E.little E.of_byte bytes) (text_of E.little)
        calls.now (W.contents out.old) (W.contents out.new) (S.can_fail source) result) }
{
    texts_are_the_same::<E>();
    match ElfStream::<E, S, A>::open_stream(alloc, source) {
        Ok(mut stream) => run_stream(&mut stream, calls, out),
        Err(error) => Err(RunError::Open(error)),
    }
}
