//! A source is read by parts: a walk with a silent teller finds a range that is missing, that range is loaded, and the
//! walk begins again. So nothing is written before all is there.
#![tactic(auto, using(nugwier_report::proofs::Saying::saying_both))]

ghost use Rattle.std.specs.Prelude.{IfOk, IfSome};
ghost use Rattle.elf.specs.ElfStream.{Keeps};
ghost use Rattle.elf.specs.StreamFile.{stream_file};
ghost use Rattle.nugwier_commands.specs.Run.{IsBytesSaid, IsFileSaid, IsOne};
ghost use Rattle.nugwier_commands.specs.inner.Loading.{IsTried};
ghost use Rattle.nugwier_commands.specs.Words.{task_of};

use crate::job::tell_job;
use crate::labels::labels_of;
use crate::target::Target;
use elf::endian::{AnyEndian, EndianParse};
use elf::{ElfStream, ParseError, StreamSource};
use nugwier_report::listed::ListedFile;
use nugwier_report::problem::Stop;
use nugwier_report::reading::whole_is_content;
use nugwier_report::run::Run;
use nugwier_report::tell::Silent;
use std::alloc::Global;

/// Tells what is asked for of the file of a source. Returns whether it was told: of a source that cannot be read by
/// parts nothing was.
pub(crate) fn tell_source<S: StreamSource, R: Run>(
    alloc: Global,
    target: Target<'_>,
    source: S,
    run: &mut R,
) -> Result<bool, Stop>
    ensures { IfOk result (IsTried R.one (IsOne target.entry.heading target.entry.path.now (λ named said.
        IfSome (S.content source) (λ bytes. IsBytesSaid (task_of target.entry.job.now) target.entry.path.now bytes named
        said))) run.old run.new) }
{
    match ElfStream::<AnyEndian, S, Global>::open_stream(alloc, source) {
        Ok(mut stream) => tell_stream(alloc, target, &mut stream, run),
        Err(_) => Ok(false),
    }
}

// The same of an opened file.
fn tell_stream<E: EndianParse, S: StreamSource, R: Run>(
    alloc: Global,
    target: Target<'_>,
    stream: &mut ElfStream<E, S, Global>,
    run: &mut R,
) -> Result<bool, Stop>
    ensures { IfOk result (IsTried R.one (IsOne target.entry.heading target.entry.path.now (λ named said.
        IfSome stream.old.content (λ bytes. IsFileSaid E.little E.of_byte (task_of target.entry.job.now)
        target.entry.path.now stream.old.headers.ehdr (stream_file E.little stream.old bytes) named said)))
        run.old run.new) }
{
    if !load_missing(alloc, target, stream)? {
        return Ok(false);
    }
    whole_is_content(stream);
    target.tell_file(alloc, None, &*stream, run)?;
    Ok(true)
}

// How many bytes the first round loads at least.
const FIRST_LOAD: u64 = 4096;

// Loads what is asked for of a file. Returns whether all of it can be loaded. Each round loads a range that was missing,
// and at least twice as much as the one before, so that there are few rounds, however many ranges a file has.
fn load_missing<E: EndianParse, S: StreamSource>(
    alloc: Global,
    target: Target<'_>,
    stream: &mut ElfStream<E, S, Global>,
) -> Result<bool, Stop>
    ensures { Keeps stream.old stream.new }
{
    let mut least = FIRST_LOAD;
    'rounds: for _ in 0..u64::MAX {
        let range = match find_missing(alloc, target, &*stream) {
            Ok(()) => return Ok(true),
            Err(Stop::Missing(range)) => range,
            Err(stop) => return Err(stop),
        };
        if load_ahead(range, least, stream).is_err() {
            return Ok(false);
        }
        least = least.saturating_mul(2);
    }
    Err(Stop::Memory)
}

// Loads the bytes from a start to an end, and those after them up to this many in all; or the whole file, if it has no
// more.
fn load_ahead<E: EndianParse, S: StreamSource>(
    range: (u64, u64),
    least: u64,
    stream: &mut ElfStream<E, S, Global>,
) -> Result<(), ParseError>
    ensures { Keeps stream.old stream.new }
{
    let (start, end) = range;
    let len = stream.source_len();
    if len <= least {
        return stream.load_range(0, len);
    }
    let size = end.saturating_sub(start).max(least);
    stream.load_range(start, size.min(len.saturating_sub(start)))
}

// Walks over what is asked for, and stops at the first range that is missing.
fn find_missing<E: EndianParse, L: ListedFile<E>>(
    alloc: Global,
    target: Target<'_>,
    file: &L,
) -> Result<(), Stop> {
    let _ = labels_of(target.job, file)?;
    tell_job(alloc, target.job, target.path, file, &mut Silent)
}
