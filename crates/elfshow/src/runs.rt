//! Runs of the calls of a listing, which write their text.
ghost use Rattle.std.specs.Prelude.{◌≡◌, ◌≢◌, ◌⊎◌, ℕ, All, List, IsOk, OnOk, IfOk, IfErr, IfSome, Err, length, map};
ghost use Rattle.std.specs.Io.KnownBytes.{Appends};
ghost use Rattle.elf.specs.StreamFile.{stream_file};
ghost use Rattle.elf.specs.ObjectFile.{object_file};
ghost use Rattle.elf_reading.specs.Opening.{opened_file};
ghost use Rattle.elf.specs.ElfStream.{AreCached, IsCached, IsRequested, Keeps, StreamView};
ghost use Rattle.elf_reading.specs.Refusals.{kind};
ghost use Rattle.elfshow.specs.Question.{question};
ghost use Rattle.elfshow.specs.Stream.{IsAtHand, IsLoaded, MayUse, stream_answer};
ghost use Rattle.elfshow.specs.Text.{text};
ghost use Rattle.elfshow.specs.Run.{IfFaultAt, IsFaultless, Ran, StopsWithin, run_ranges};
ghost use Rattle.elfshow.specs.inner.RunSteps.{stopped_after};
ghost use Rattle.elf_records.specs.declared.parse.ParseError.{ParseError};

pub use crate::Call;
use crate::stream::Stop;
use crate::{bytes, stream};
use elf::endian::EndianParse;
use elf::{ElfBytes, ElfStream, ParseError, StreamSource};
use elfshow_lines::versions::{HeapRoom, Room, StackRoom};
use std::alloc::Allocator;
use std::io;
use std::io::Write;
use thiserror::Error;

/// Why a run stopped. `done` is the number of calls whose text was completely written and flushed before.
#[derive(Debug, Drop, Error)]
pub enum RunError {
    /// The bytes cannot be opened as an ELF file; nothing was written.
    #[error("{0}")]
    Open(ParseError),
    /// The source of the file or an allocation failed; exactly the text of the calls before was written.
    #[error("{error}")]
    Fault { done: usize, error: ParseError },
    /// The writer failed.
    #[error("{error}")]
    Write { done: usize, error: io::Error },
}

/// Opens the ELF file in the data, and writes the text of the calls, in order. A call for which the reader returns an
/// error writes the line `refused`, and the run continues. The writer is flushed after each call, so `done` counts the
/// calls that reached its end. Allocates no memory.
///
/// Errors, in order: `Open` with the error of `ElfBytes::minimal_parse`, with nothing written; `Write` if the writer
/// fails. `Fault` is never returned.
pub fn run_bytes<E: EndianParse, W: Write>(
    data: &[u8],
    calls: &[Call<'_>],
    out: &mut W,
) -> Result<(), RunError>
    ensures ok { OnOk result (IfOk (opened_file E.little E.of_byte «data».now) (λ file.
        Appends (W.contents out.old) (W.contents out.new)
        (text file.ehdr (object_file E.little file) (map question calls.now)))) }
    ensures refused { IfErr (opened_file E.little E.of_byte «data».now) (λ e. result ≡ Err (RunError.Open e)) }
    ensures open { (e : ParseError) → result ≡ Err (RunError.Open e) →
        (opened_file E.little E.of_byte «data».now ≡ Err e) × (out.new ≡ out.old) }
    ensures no_fault { (done : ℕ) (e : ParseError) → result ≢ Err (RunError.Fault done e) }
    ensures stopped { StopsWithin (length calls.now) result }
{
    run_bytes_in::<E, StackRoom, W>(data, calls, &StackRoom, out)
}

/// Does what `run_bytes` does, and allocates places for all versions, so each is found without a walk. A failed
/// allocation is no error: the places are then those of `run_bytes`.
///
/// Errors: those of `run_bytes`.
pub fn run_bytes_with_memory<E: EndianParse, A: Allocator + Copy, W: Write>(
    alloc: A,
    data: &[u8],
    calls: &[Call<'_>],
    out: &mut W,
) -> Result<(), RunError>
    ensures ok { OnOk result (IfOk (opened_file E.little E.of_byte «data».now) (λ file.
        Appends (W.contents out.old) (W.contents out.new)
        (text file.ehdr (object_file E.little file) (map question calls.now)))) }
    ensures refused { IfErr (opened_file E.little E.of_byte «data».now) (λ e. result ≡ Err (RunError.Open e)) }
    ensures open { (e : ParseError) → result ≡ Err (RunError.Open e) →
        (opened_file E.little E.of_byte «data».now ≡ Err e) × (out.new ≡ out.old) }
    ensures no_fault { (done : ℕ) (e : ParseError) → result ≢ Err (RunError.Fault done e) }
    ensures stopped { StopsWithin (length calls.now) result }
{
    run_bytes_in::<E, HeapRoom<A>, W>(data, calls, &HeapRoom { alloc }, out)
}

// Writes the text of the calls over the data; versions are looked up in `room`.
fn run_bytes_in<E: EndianParse, R: Room, W: Write>(
    data: &[u8],
    calls: &[Call<'_>],
    room: &R,
    out: &mut W,
) -> Result<(), RunError>
    ensures ok { OnOk result (IfOk (opened_file E.little E.of_byte «data».now) (λ file.
        Appends (W.contents out.old) (W.contents out.new)
        (text file.ehdr (object_file E.little file) (map question calls.now)))) }
    ensures refused { IfErr (opened_file E.little E.of_byte «data».now) (λ e. result ≡ Err (RunError.Open e)) }
    ensures open { (e : ParseError) → result ≡ Err (RunError.Open e) →
        (opened_file E.little E.of_byte «data».now ≡ Err e) × (out.new ≡ out.old) }
    ensures no_fault { (done : ℕ) (e : ParseError) → result ≢ Err (RunError.Fault done e) }
    ensures stopped { StopsWithin (length calls.now) result }
{
    let file = match ElfBytes::<E>::minimal_parse(data) {
        Ok(file) => file,
        Err(error) => return Err(RunError::Open(error)),
    };
    let mut done = 0;
    for call in calls {
        if let Err(error) = bytes::write_call(&file, *call, room, out) {
            return Err(RunError::Write { done, error });
        }
        if let Err(error) = out.flush() {
            return Err(RunError::Write { done, error });
        }
        done += 1;
    }
    Ok(())
}

/// Writes the text of the calls over a stream, in order. A call for which the stream returns an error other than
/// `IOError` and `OutOfMemory` writes the line `refused`, and the run continues. The writer is flushed after each call,
/// so `done` counts the calls that reached its end.
///
/// No range is cached that was not cached before and does not lie within a range that one of the calls requests. If
/// the requested ranges are cached, the stream is unchanged, and there is no `Fault`: the source and memory are used only
/// for a requested range that was not cached. The call `versions` also allocates places for all versions; if that
/// fails, it is no error. After `Ok` the ranges of each call that has a result are cached.
///
/// Errors over known content: `Fault` if the source or an allocation failed, with exactly the text of the calls before
/// it written; `Write` if the writer fails; never `Open`.
pub fn run_stream<E: EndianParse, S: StreamSource, A: Allocator + Copy, W: Write>(
    stream: &mut ElfStream<E, S, A>,
    calls: &[Call<'_>],
    out: &mut W,
) -> Result<(), RunError>
    ensures keeps { Keeps stream.old stream.new }
    ensures ran { IfSome stream.old.content (λ bytes.
        Ran (λ calls. text stream.old.headers.ehdr (stream_file E.little stream.old bytes) (map question calls))
        calls.now (W.contents out.old) (W.contents out.new)
        stream.old.can_fail stream.old.failures stream.new.failures result) }
    ensures only { (start end : ℕ) → IsCached stream.new start end → IsCached stream.old start end
        ⊎ IsRequested (run_ranges E.little stream.old (map question calls.now)) start end }
    ensures untouched { AreCached stream.old (run_ranges E.little stream.old (map question calls.now)) →
        (stream.new ≡ stream.old) × IsFaultless result }
    ensures needed { IfSome stream.old.content (λ bytes. IfFaultAt (map question calls.now) result
        (λ call e. MayUse E.little stream.old stream.new bytes call (kind e))) }
    ensures no_fault { All (λ call. IsAtHand E.little stream.old (question call)) calls.now → IsFaultless result }
    ensures loaded { OnOk result (IfSome stream.old.content (λ bytes.
        All (λ call. IsLoaded E.little stream.new bytes (question call)) calls.now)) }
{
    for (done, call) in calls.iter().enumerate() {
        match stream::write_call(stream, *call, out) {
            Ok(()) => {}
            Err(stop) => return Err(stopped_after(done, stop)),
        }
        let flushed = out.flush();
        if let Err(error) = flushed {
            return Err(RunError::Write { done, error });
        }
    }
    Ok(())
}

// The error of a run that stopped after `done` complete calls.
fn stopped_after(done: usize, stop: Stop) -> RunError
    ensures { result ≡ stopped_after done stop }
{
    match stop {
        Stop::Fault(error) => RunError::Fault { done, error },
        Stop::Write(error) => RunError::Write { done, error },
    }
}

/// States that a run without failures can be repeated. Let the ranges of each call that has a result be cached, as they
/// are after `run_stream` returned `Ok`. Then the calls that have a result need neither the source nor memory: run again
/// over the stream, they do not return `Fault`.
pub fn loaded_calls_are_at_hand<E: EndianParse>()
    ensures { (s : StreamView E) (bytes : List ℕ) (calls : List Call) →
        All (λ call. IsLoaded E.little s bytes (question call)) calls →
        All (λ call. IsOk (stream_answer E.little s bytes (question call))) calls →
        All (λ call. IsAtHand E.little s (question call)) calls }
{}
