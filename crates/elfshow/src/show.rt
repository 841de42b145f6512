//! The program apart from the operating system: what it does with the words of its command line.
ghost use Rattle.std.specs.Prelude.{◌≡◌, ◌≤◌, Err, IsErr, IsNone, IsOk, IsSome, is_some, IfErr, IfOk, IfSome, IsOkAnd};
ghost use Rattle.std.specs.Prelude.{IsSomeAnd, OnOk, Some, length, map};
ghost use Rattle.std.specs.Io.Buffered.{writer_contents, writer_inner};
ghost use Rattle.std.specs.Io.KnownBytes.{Appends};
ghost use Rattle.elf_records.specs.Endian.{any_is_little, any_of_byte};
ghost use Rattle.elf.specs.ObjectFile.{object_file};
ghost use Rattle.elf_reading.specs.Opening.{opened_file};
ghost use Rattle.elfshow.specs.Question.{question};
ghost use Rattle.elfshow.specs.Text.{text};
ghost use Rattle.elfshow.specs.Failure.{IsFailureOfFile, run_of, status_of};
ghost use Rattle.elfshow.specs.inner.MemoryRuns.{IsUnfailing, in_memory};
ghost use Rattle.elfshow_lines.specs.Pieces.{◌⧺◌};
ghost use Rattle.elfshow.specs.Show.{IsStopOfBoth, IsStopOfBytes, IsUnwritten, RanOver, agreement, calls_of, mode_of};
ghost use Rattle.elfshow.specs.Show.{request_of, shown_by};
ghost use Rattle.elfshow.specs.declared.failure.Failure.TheVariants.{Usage};
ghost use Rattle.elfshow.specs.declared.show.Mode.TheVariants.{Both, Bytes, Stream};
ghost use Rattle.elfshow.specs.declared.show.RequestError.TheVariants.{OutOfMemory};

use crate::failure::{Failure, report};
use crate::file_system::FileSystem;
use crate::readers::texts_are_the_same;
use crate::runs::{Call, RunError, run_bytes_with_memory, run_stream};
use crate::words::parse_call;
use elf::endian::AnyEndian;
use elf::{ElfStream, MemSource, ParseError, StreamSource};
use std::alloc::{AllocFailed, Global};
use std::io;
use std::io::{BufWriter, Write};

/// The reader that makes a listing.
#[derive(Clone, Copy, Debug, PartialEq, Eq)]
pub enum Mode {
    /// `ElfBytes`, over the bytes of the whole file.
    Bytes,
    /// `ElfStream`, over the file as a source.
    Stream,
    /// Both readers, and a comparison of their texts.
    Both,
}

/// What the words of a command line request.
#[derive(Debug, Drop)]
pub struct Request<'a> {
    pub mode: Mode,
    pub file: &'a str,
    pub calls: Vec<Call<'a>>,
}

/// Why words are no request.
#[derive(Clone, Copy, Debug, PartialEq, Eq)]
pub enum RequestError {
    Usage,
    OutOfMemory,
}

impl<T: Drop> From<AllocFailed<T>> for RequestError {
    ghost from_gives = { λ _ error. error ≡ OutOfMemory };

    fn from(_error: AllocFailed<T>) -> RequestError {
        RequestError::OutOfMemory
    }
}

/// Returns the request that the words spell: a mode, a file and at least one call.
///
/// Errors, in order: `Usage` if they spell none; `OutOfMemory` if they spell one and an allocation failed. Only the
/// list of the calls is allocated, after all words were checked.
pub fn parse_words<'a>(alloc: Global, words: &[&'a str]) -> Result<Request<'a>, RequestError>
    ensures ok { IfOk result (λ request. request_of words.now
        ≡ Some (request.mode, request.file.now, map question request.calls.items)) }
    ensures usage { result ≡ Err RequestError.Usage → IsNone (request_of words.now) }
    ensures memory { result ≡ Err RequestError.OutOfMemory → IsSome (request_of words.now) }
{
    let [mode, file, rest @ ..] = words else {
        return Err(RequestError::Usage);
    };
    let Some(mode) = parse_mode(*mode) else {
        return Err(RequestError::Usage);
    };
    if rest.is_empty() {
        return Err(RequestError::Usage);
    }
    let calls = parse_calls(alloc, rest)?;
    Ok(Request {
        mode,
        file: *file,
        calls,
    })
}

fn parse_mode(word: &str) -> Option<Mode>
    ensures { result ≡ mode_of word.now }
{
    match word {
        "bytes" => Some(Mode::Bytes),
        "stream" => Some(Mode::Stream),
        "both" => Some(Mode::Both),
        _ => None,
    }
}

fn parse_calls<'a>(alloc: Global, words: &[&'a str]) -> Result<Vec<Call<'a>>, RequestError>
    ensures ok { IfOk result (λ calls. calls_of words.now ≡ Some (map question calls.items)) }
    ensures usage { result ≡ Err RequestError.Usage → IsNone (calls_of words.now) }
    ensures memory { result ≡ Err RequestError.OutOfMemory → IsSome (calls_of words.now) }
{
    if !are_calls(words) {
        return Err(RequestError::Usage);
    }
    let mut calls = Vec::new(alloc);
    for word in words {
        let call = parse_call(*word).ok_or(RequestError::Usage)?;
        calls.push(call)?;
    }
    Ok(calls)
}

// Whether every word spells a call.
fn are_calls(words: &[&str]) -> bool
    ensures { result ≡ is_some (calls_of words.now) }
{
    for word in words {
        if parse_call(*word).is_none() {
            return false;
        }
    }
    true
}

/// Runs the program. `words` are the arguments after the program's name. Writes the text of the requested calls to
/// `out` and flushes it. On a failure writes its message to `err`, and ignores an error of that write.
///
/// Returns the exit status: 0 if the text was written and flushed; 2 if the words are no request; 1 for every other
/// failure (the file cannot be opened or read, it cannot be opened as an ELF file, a run stopped, or a flush or an
/// allocation failed).
pub fn show<F: FileSystem, W: Write + Drop, V: Write>(
    alloc: Global,
    words: &[&str],
    files: &F,
    out: &mut BufWriter<W>,
    err: &mut V,
) -> u8
    ensures listed { result ≡ 0 → IsSomeAnd (request_of words.now) (λ request.
        IfSome (F.content files.now request.1) (λ bytes. IsOkAnd (opened_file any_is_little any_of_byte bytes) (λ file.
        Appends (writer_contents W.contents out.old) (W.contents (writer_inner out.new))
        (shown_by request.0 (text file.ehdr (object_file any_is_little file) request.2))))) }
    ensures usage { result ≡ 2 → IsNone (request_of words.now) }
    ensures reported { IsNone (request_of words.now) → result ≡ 2 }
    ensures no_request { IsNone (request_of words.now) → out.new ≡ out.old }
    ensures refused { IfSome (request_of words.now) (λ request. IfSome (F.content files.now request.1) (λ bytes.
        IsErr (opened_file any_is_little any_of_byte bytes) → out.new ≡ out.old)) }
    ensures status { result ≤ 2 }
{
    match list(alloc, words, files, out) {
        Ok(()) => 0,
        Err(failure) => report(&failure, err),
    }
}

// Writes the text of the requested calls, and flushes the writer.
#[tactic(auto, using(elfshow_lines::proofs::Writing::emptied_buffer))]
fn list<F: FileSystem, W: Write + Drop>(
    alloc: Global,
    words: &[&str],
    files: &F,
    out: &mut BufWriter<W>,
) -> Result<(), Failure>
    ensures listed { OnOk result (IsSomeAnd (request_of words.now) (λ request.
        IfSome (F.content files.now request.1) (λ bytes. IsOkAnd (opened_file any_is_little any_of_byte bytes) (λ file.
        Appends (writer_contents W.contents out.old) (W.contents (writer_inner out.new))
        (shown_by request.0 (text file.ehdr (object_file any_is_little file) request.2)))))) }
    ensures usage { IfErr result (λ failure. status_of failure ≡ 2 → IsNone (request_of words.now)) }
    ensures reported { IsNone (request_of words.now) → result ≡ Err Usage }
    ensures no_request { IsNone (request_of words.now) → out.new ≡ out.old }
    ensures refused { IfSome (request_of words.now) (λ request. IfSome (F.content files.now request.1) (λ bytes.
        IsErr (opened_file any_is_little any_of_byte bytes) → (out.new ≡ out.old) × IsErr result)) }
{
    let request = parse_words(alloc, words)?;
    answer(alloc, &request, files, out)?;
    match out.flush() {
        Ok(()) => Ok(()),
        Err(error) => Err(Failure::Write {
            done: request.calls.len(),
            error,
        }),
    }
}

/// Writes the text of the calls of a request, by the reader or the readers of its mode.
///
/// Errors: `File` if the file cannot be opened or read; `Open`, `Fault` and `Write` as the run of the calls returns
/// them (`run_bytes`, `run_source`, `run_both`).
pub fn answer<F: FileSystem, W: Write>(
    alloc: Global,
    request: &Request<'_>,
    files: &F,
    out: &mut W,
) -> Result<(), Failure>
    ensures listed { OnOk result (IfSome (F.content files.now request.now.file.now) (λ bytes.
        IsOkAnd (opened_file any_is_little any_of_byte bytes) (λ file.
        Appends (W.contents out.old) (W.contents out.new)
        (shown_by request.now.mode
        (text file.ehdr (object_file any_is_little file) (map question request.now.calls.items)))))) }
    ensures refused { IfSome (F.content files.now request.now.file.now) (λ bytes.
        IsErr (opened_file any_is_little any_of_byte bytes) → (out.new ≡ out.old) × IsErr result) }
    ensures run { request.now.mode ≡ Stream → IfSome (F.content files.now request.now.file.now) (λ bytes.
        IfSome (run_of result) (λ run. RanOver (opened_file any_is_little any_of_byte bytes)
        (λ file calls. text file.ehdr (object_file any_is_little file) (map question calls)) request.now.calls.items
        (W.contents out.old) (W.contents out.new) (F.can_fail files.now request.now.file.now) run)) }
    ensures bytes { request.now.mode ≡ Bytes → IfSome (F.content files.now request.now.file.now) (λ bytes.
        IfSome (run_of result) (λ run. IfErr run
        (IsStopOfBytes (opened_file any_is_little any_of_byte bytes) (length request.now.calls.items)))) }
    ensures both { request.now.mode ≡ Both → IfSome (F.content files.now request.now.file.now) (λ bytes.
        IfSome (run_of result) (λ run. IfErr run
        (IsStopOfBoth (opened_file any_is_little any_of_byte bytes) (length request.now.calls.items)))) }
    ensures unwritten { request.now.mode ≡ Both → IfSome (run_of result) (IsUnwritten out.old out.new) }
    ensures cause { IfErr result IsFailureOfFile }
{
    let calls = request.calls.as_slice();
    match request.mode {
        Mode::Bytes => {
            let data = files.read(request.file).map_err(Failure::File)?;
            run_bytes_with_memory::<AnyEndian, Global, W>(alloc, data.as_slice(), calls, out)?;
        }
        Mode::Stream => {
            let source = files.open(request.file).map_err(Failure::File)?;
            run_source(alloc, source, calls, out)?;
        }
        Mode::Both => {
            let data = files.read(request.file).map_err(Failure::File)?;
            run_both(alloc, data.as_slice(), calls, out)?;
        }
    }
    Ok(())
}

/// Opens the ELF file that a source holds, and writes the text of the calls, in order, as `run_stream` does.
///
/// Errors, in order: `Open` if the file cannot be opened, with nothing written; those of `run_stream`.
pub fn run_source<S: StreamSource, W: Write>(
    alloc: Global,
    source: S,
    calls: &[Call<'_>],
    out: &mut W,
) -> Result<(), RunError>
    ensures ran { IfSome (S.content source) (λ bytes. RanOver (opened_file any_is_little any_of_byte bytes)
        (λ file calls. text file.ehdr (object_file any_is_little file) (map question calls)) calls.now
        (W.contents out.old) (W.contents out.new) (S.can_fail source) result) }
    ensures refused { IfSome (S.content source) (λ bytes.
        IsErr (opened_file any_is_little any_of_byte bytes) → out.new ≡ out.old) }
{
    texts_are_the_same::<AnyEndian>();
    match ElfStream::<AnyEndian, S, Global>::open_stream(alloc, source) {
        Ok(mut stream) => run_stream(&mut stream, calls, out),
        Err(error) => Err(RunError::Open(error)),
    }
}

/// Runs the calls by both readers, in memory. Then writes the text of `ElfBytes`, and the line `readers agree` or
/// `readers differ`. Nothing is written unless both runs are complete.
///
/// Errors, in order: those of `run_bytes`, then those of `run_source`, except that a failed allocation for a text is
/// `Fault` with `OutOfMemory` and `done` 0; `Write` with `done` 0 if the writer fails.
pub fn run_both<W: Write>(
    alloc: Global,
    data: &[u8],
    calls: &[Call<'_>],
    out: &mut W,
) -> Result<(), RunError>
    ensures ok { OnOk result (IsOkAnd (opened_file any_is_little any_of_byte «data».now) (λ file.
        Appends (W.contents out.old) (W.contents out.new)
        (shown_by Both (text file.ehdr (object_file any_is_little file) (map question calls.now))))) }
    ensures open { IfErr (opened_file any_is_little any_of_byte «data».now) (λ e. result ≡ Err (RunError.Open e)) }
    ensures cause { IfErr result (IsStopOfBoth (opened_file any_is_little any_of_byte «data».now) (length calls.now)) }
    ensures stopped { IsUnwritten out.old out.new result }
    ensures refused { IsErr (opened_file any_is_little any_of_byte «data».now) → out.new ≡ out.old }
{
    let mut one = Vec::new(alloc);
    if let Err(error) = run_bytes_with_memory::<AnyEndian, Global, Vec<u8>>(
        alloc, data, calls, &mut one,
    ) {
        return Err(in_memory(error));
    }
    let mut other = Vec::new(alloc);
    if let Err(error) = run_source(alloc, MemSource::new(data), calls, &mut other) {
        return Err(in_memory(error));
    }
    match write_both(one.as_slice(), other.as_slice(), out) {
        Ok(()) => Ok(()),
        Err(error) => Err(RunError::Write { done: 0, error }),
    }
}

// The error of a run whose text goes to memory. A failed write there is a failed allocation.
fn in_memory(error: RunError) -> RunError
    ensures value { result ≡ in_memory error }
    ensures unfailing { IsUnfailing result }
{
    match error {
        RunError::Open(error) => RunError::Open(error),
        RunError::Fault { done, error } => RunError::Fault { done, error },
        RunError::Write { .. } => {
            let error = ParseError::OutOfMemory;
            RunError::Fault { done: 0, error }
        }
    }
}

// Writes the text of the first reader, and whether that of the second is the same.
fn write_both<W: Write>(one: &[u8], other: &[u8], out: &mut W) -> io::Result<()>
    ensures { OnOk result (Appends (W.contents out.old) (W.contents out.new) (one.now ⧺ agreement one.now other.now)) }
{
    out.write_all(one)?;
    if one == other {
        writeln!(out, "readers agree")?;
    } else {
        writeln!(out, "readers differ")?;
    }
    out.flush()
}
