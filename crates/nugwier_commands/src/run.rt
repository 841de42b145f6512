//! Runs the program, apart from the operating system.
#![tactic(auto, using(nugwier_report::proofs::Saying::saying_both))]

ghost use Rattle.std.specs.Prelude.{◌≡◌, ◌++◌, codes, IfOk, IfSome, Ok, OnOk};
ghost use Rattle.std.specs.Io.KnownBytes.{Appends, Keeps};
ghost use Rattle.std.specs.Result.{IsOk};
ghost use Rattle.elf.specs.ElfBytes.{view};
ghost use Rattle.elf.specs.StreamFile.{listed_file};
ghost use Rattle.elf_libraries.specs.Tree.{found_view};
ghost use Rattle.elf_reading.specs.Opening.{headers_of, opened_by_segments};
ghost use Rattle.elf_records.specs.Endian.{any_is_little, any_of_byte};
ghost use Rattle.nugwier_commands.specs.Run.{AreBytesSaid, AreFilesSaid, ArePathSaid, AreSaidBy, IsBytesSaid, IsContentSaid};
ghost use Rattle.nugwier_commands.specs.Run.{IsElfSaid, IsFileSaid, IsOne, IsProgramSaid, IsReasonTold, IsRun, IsSaidAt, IsUnopenedSaid};
ghost use Rattle.nugwier_commands.specs.Run.{has_headings, heading_of, status_of};
ghost use Rattle.nugwier_commands.specs.inner.Loading.{AreTold, IsFrontOf, IsNamed, IsOutcomeOf, IsSaidAfter, IsTried};
ghost use Rattle.nugwier_commands.specs.inner.Loading.{IsPrintedAs, IsWordsTold};
ghost use Rattle.nugwier_commands.specs.Formats.{front};
ghost use Rattle.nugwier_report.specs.declared.report.Summary.{Summary};
ghost use Rattle.nugwier_commands.specs.Words.{parsed, run as run_answer, task_of};

use crate::archive::{is_archive, run_archive};
use crate::formats::{FRONT, is_elf, not_elf};
use crate::help::{VERSION, help};
use crate::loading::tell_source;
use crate::places::run_places;
use crate::target::{Heading, LostHeaders, Target};
use crate::words::{Command, Job, Request, WordError, parse_words};
use elf::endian::{AnyEndian, EndianParse};
use elf::{ElfBytes, ParseError, StreamSource};
use elf_libraries::below::FilesBelow;
use elf_libraries::files::Files;
use elf_libraries::tree::LoadedFile;
use elf_reading::reads::fetch;
use nugwier_report::in_memory::FileInMemory;
use nugwier_report::problem::Stop;
use nugwier_report::report::{Report, Summary};
use nugwier_report::run::Run;
use std::alloc::Global;
use std::io;
use std::io::Write;

/// How a run ended.
#[derive(Debug, Drop)]
pub enum Outcome {
    /// The words are wrong, and whether no write of the reason failed.
    Wrong { is_told: bool },
    /// All was said.
    Done(Summary),
    /// A write or an allocation failed.
    Stopped(Stop),
}

impl Outcome {
    /// Returns the exit status: 0 if all was said and nothing is wrong; 1 if something is wrong, or if the run was
    /// stopped; 2 if the command line is wrong.
    pub fn status(&self) -> u8
        ensures { result ≡ status_of self.now }
    {
        match self {
            Outcome::Done(summary) if summary.is_right => 0,
            Outcome::Done(_) | Outcome::Stopped(_) => 1,
            Outcome::Wrong { .. } => 2,
        }
    }
}

/// Does what the words, the arguments after the program's name, ask for. Writes listings to `out`, and flushes it.
/// Headings are bold and names cyan if this is said here, unless the words say something else. Tells on `err` what is
/// wrong, and ignores an error of that write. Returns how the run ended, and the writers.
pub fn run<F: Files, W: Write, V: Write>(
    alloc: Global,
    is_colored: bool,
    words: &[&str],
    files: &F,
    out: W,
    err: V,
) -> (Outcome, W, V)
    ensures { IsRun (F.known files.now) (record { out = W.contents out; err = V.contents err })
        (record { out = W.contents result.1; err = V.contents result.2 }) (parsed is_colored words.now) result.0 }
{
    match parse_words(alloc, is_colored, words) {
        Ok(Request::Help(command)) => print(help(command), out, err),
        Ok(Request::Version) => print(VERSION, out, err),
        Ok(Request::Run(job)) => run_job(alloc, &job, files, out, err),
        Err(error) => tell(error, out, err),
    }
}

// Tells why the command line is wrong.
fn tell<W: Write, V: Write>(error: WordError<'_>, out: W, mut err: V) -> (Outcome, W, V)
    ensures { IsWordsTold error.entry (record { out = W.contents out; err = V.contents err })
        (record { out = W.contents result.1; err = V.contents result.2 }) result.0 }
{
    let is_told = tell_line(&error, &mut err).is_ok();
    match error {
        WordError::Memory => (Outcome::Stopped(Stop::Memory), out, err),
        _ => (Outcome::Wrong { is_told }, out, err),
    }
}

fn tell_line<V: Write>(error: &WordError<'_>, err: &mut V) -> io::Result<()>
    ensures { OnOk result (IsReasonTold error.now (V.contents err.old) (V.contents err.new)) }
{
    writeln!(err, "{error}")?;
    err.flush()
}

// How a run ended. That the reader of the output has gone is not told; any other reason to stop is.
fn outcome_of<V: Write>(said: Result<Summary, Stop>, err: &mut V) -> Outcome
    ensures outcome { IsOutcomeOf said result }
    ensures kept { IfOk said (λ _. err.new ≡ err.old) }
{
    match said {
        Ok(summary) => Outcome::Done(summary),
        Err(stop) => {
            tell_stop(&stop, err);
            Outcome::Stopped(stop)
        }
    }
}

fn tell_stop<V: Write>(stop: &Stop, err: &mut V) {
    match stop {
        Stop::Missing((start, end)) => {
            let _ = writeln!(
                err,
                "nugwier: bytes 0x{start:x} to 0x{end:x} are not loaded"
            );
        }
        Stop::Memory => {
            let _ = writeln!(err, "nugwier: out of memory");
        }
        Stop::Write(error) => {
            if error.kind() != io::ErrorKind::BrokenPipe {
                let _ = writeln!(err, "nugwier: standard output: {error}");
            }
        }
    }
    let _ = err.flush();
}

// Prints a text, and a newline.
fn print<W: Write, V: Write>(text: &str, mut out: W, mut err: V) -> (Outcome, W, V)
    ensures { IsPrintedAs text.now (record { out = W.contents out; err = V.contents err })
        (record { out = W.contents result.1; err = V.contents result.2 }) result.0 }
{
    let said = match print_line(text, &mut out) {
        Ok(()) => Ok(Summary {
            is_right: true,
            is_told: true,
        }),
        Err(stop) => Err(stop),
    };
    let outcome = outcome_of(said, &mut err);
    (outcome, out, err)
}

fn print_line<W: Write>(text: &str, out: &mut W) -> Result<(), Stop>
    ensures { OnOk result (Appends (W.contents out.old) (W.contents out.new) (text.now ++ codes "\n")) }
{
    out.write_all(text.as_bytes())?;
    out.write_all(b"\n")?;
    out.flush()?;
    Ok(())
}

// Tells of each file what is asked for.
fn run_job<F: Files, W: Write, V: Write>(
    alloc: Global,
    job: &Job<'_>,
    files: &F,
    out: W,
    err: V,
) -> (Outcome, W, V)
    ensures { IsRun (F.known files.now) (record { out = W.contents out; err = V.contents err })
        (record { out = W.contents result.1; err = V.contents result.2 }) (Ok (run_answer (task_of job.now))) result.0 }
{
    let files = FilesBelow {
        alloc,
        root: job.root,
        files,
    };
    let mut report = Report::new(alloc, job.format, out, err);
    let told = run_task(alloc, job, &files, &mut report);
    let (summary, mut out, mut err) = report.end();
    let said = flushed(told, summary, &mut out);
    let outcome = outcome_of(said, &mut err);
    (outcome, out, err)
}

// What a run came to in which all was told, once all of it is written.
fn flushed<W: Write>(told: Result<(), Stop>, summary: Summary, out: &mut W) -> Result<Summary, Stop>
    ensures told { IfOk result (λ _. IsOk told) }
    ensures written { IfOk result (λ same. (same ≡ summary) × Keeps (W.contents out.old) (W.contents out.new)) }
{
    told?;
    out.flush()?;
    Ok(summary)
}

fn run_task<F: Files, R: Run>(
    alloc: Global,
    job: &Job<'_>,
    files: &F,
    run: &mut R,
) -> Result<(), Stop>
    ensures { let task = task_of job.now in
        OnOk result (AreTold R.one (AreSaidBy task.is_recursive (F.known files.now) task) run.old run.new) }
{
    if job.is_recursive {
        run_places(alloc, job, files, run)
    } else {
        run_files(alloc, job, files, run)
    }
}

fn run_files<F: Files, R: Run>(
    alloc: Global,
    job: &Job<'_>,
    files: &F,
    run: &mut R,
) -> Result<(), Stop>
    ensures { let task = task_of job.now in
        OnOk result (AreTold R.one (AreFilesSaid (F.known files.now) task 0 task.files) run.old run.new) }
{
    for (place, path) in job.files.as_slice().iter().enumerate() {
        let target = Target {
            job: &*job,
            path: *path,
            heading: heading_of(job, place),
        };
        run_path(alloc, target, files, run)?;
    }
    Ok(())
}

// What is above a file, by its place among the files: of several files each has its path above it, except for `check`,
// `harden` and `starts`, whose lines name it.
fn heading_of(job: &Job<'_>, place: usize) -> Option<Heading>
    ensures { result ≡ heading_of (task_of job.now) place }
{
    if !has_headings(job) {
        return None;
    }
    Some(if place == 0 {
        Heading::First
    } else {
        Heading::Next
    })
}

fn has_headings(job: &Job<'_>) -> bool
    ensures { result ≡ has_headings job.now.command job.now.files.items }
{
    match job.command {
        Command::Check | Command::Harden | Command::Starts => false,
        _ => job.files.len() > 1,
    }
}

/// Tells what is asked for of the file at a path. Its first bytes are read first, and no more if it is no ELF file.
pub(crate) fn run_path<F: Files, R: Run>(
    alloc: Global,
    target: Target<'_>,
    files: &F,
    run: &mut R,
) -> Result<(), Stop>
    ensures { OnOk result (AreTold R.one (ArePathSaid (F.known files.now) (task_of target.entry.job.now)
        target.entry.heading target.entry.path.now) run.old run.new) }
{
    match front_of(alloc, target.path, files) {
        Some(front) => run_front(alloc, target, files, front.as_slice(), run),
        None => run_read(alloc, target, files, run),
    }
}

/// The bytes at the start of the file at a path that tell its format, if it can be read by parts.
pub(crate) fn front_of<F: Files>(alloc: Global, path: &str, files: &F) -> Option<Vec<u8>>
    ensures { IfSome result (λ start. IfSome (F.known files.now) (λ files. IsFrontOf (files.contents path.now) start.items)) }
{
    let mut source = files.open(path)?;
    start_of(alloc, &mut source)
}

fn start_of<S: StreamSource>(alloc: Global, source: &mut S) -> Option<Vec<u8>>
    ensures { IfSome result (λ start. IfSome (S.content source.old) (λ bytes. start.items ≡ front bytes)) }
{
    let len = source.seek_end().ok()?;
    fetch(alloc, source, 0, len.min(FRONT as u64)).ok()
}

// The same of the file at a path that begins with these bytes.
fn run_front<F: Files, R: Run>(
    alloc: Global,
    target: Target<'_>,
    files: &F,
    front: &[u8],
    run: &mut R,
) -> Result<(), Stop>
    ensures { IfSome (F.known files.now) (λ files. IsFrontOf (files.contents target.entry.path.now) front.now)
        → OnOk result (AreTold R.one (ArePathSaid (F.known files.now) (task_of target.entry.job.now)
        target.entry.heading target.entry.path.now) run.old run.new) }
{
    if is_archive(target.job, front) {
        run_read(alloc, target, files, run)
    } else if is_elf(front) {
        run_elf(alloc, target, files, run)
    } else {
        target.tell_problem(&not_elf(front), run)
    }
}

// The same of a file that can only be read whole, as standard input.
fn run_read<F: Files, R: Run>(
    alloc: Global,
    target: Target<'_>,
    files: &F,
    run: &mut R,
) -> Result<(), Stop>
    ensures { OnOk result (AreTold R.one (ArePathSaid (F.known files.now) (task_of target.entry.job.now)
        target.entry.heading target.entry.path.now) run.old run.new) }
{
    match files.read(target.path) {
        Ok(data) => run_data(alloc, target, files, data, run),
        Err(error) => target.tell_unread(error, run),
    }
}

// The same of the bytes of a file.
fn run_data<F: Files, R: Run>(
    alloc: Global,
    target: Target<'_>,
    files: &F,
    data: Vec<u8>,
    run: &mut R,
) -> Result<(), Stop>
    ensures { OnOk result (AreTold R.one (AreBytesSaid (F.known files.now) (task_of target.entry.job.now)
        target.entry.heading target.entry.path.now «data».items) run.old run.new) }
{
    if is_archive(target.job, front_in(data.as_slice())) {
        run_archive(alloc, target, files, data.as_slice(), run)
    } else {
        run_one(alloc, target, files, data, run)
    }
}

// The same of the bytes of one file.
fn run_one<F: Files, R: Run>(
    alloc: Global,
    target: Target<'_>,
    files: &F,
    data: Vec<u8>,
    run: &mut R,
) -> Result<(), Stop>
    ensures { let task = task_of target.entry.job.now in OnOk result (AreTold R.one (IsOne target.entry.heading
        target.entry.path.now (IsElfSaid (IsContentSaid (F.known files.now) task.command task target.entry.path.now)
        «data».items)) run.old run.new) }
{
    let front = front_in(data.as_slice());
    if is_elf(front) {
        run_content(alloc, target, files, data, run)
    } else {
        target.tell_problem(&not_elf(front), run)
    }
}

/// The first bytes of a file.
pub(crate) fn front_in(bytes: &[u8]) -> &[u8]
    ensures { result.now ≡ front bytes.now }
{
    &bytes[..bytes.len().min(FRONT)]
}

// The same of the bytes of an ELF file.
fn run_content<F: Files, R: Run>(
    alloc: Global,
    target: Target<'_>,
    files: &F,
    data: Vec<u8>,
    run: &mut R,
) -> Result<(), Stop>
    ensures { let task = task_of target.entry.job.now in OnOk result (AreTold R.one (IsOne target.entry.heading
        target.entry.path.now (IsContentSaid (F.known files.now) task.command task target.entry.path.now «data».items))
        run.old run.new) }
{
    match target.job.command {
        Command::Tree => target.tell_program(alloc, files, data, run),
        Command::Bindings => target.tell_program(alloc, files, data, run),
        Command::Starts => target.tell_program(alloc, files, data, run),
        _ => run_bytes(alloc, target, data.as_slice(), run),
    }
}

// The same of an ELF file at a path. It is read by parts; one that cannot be read so is read whole.
fn run_elf<F: Files, R: Run>(
    alloc: Global,
    target: Target<'_>,
    files: &F,
    run: &mut R,
) -> Result<(), Stop>
    ensures { let task = task_of target.entry.job.now in let known = F.known files.now in
        OnOk result (AreTold R.one (IsOne target.entry.heading target.entry.path.now
        (IsSaidAt known (IsContentSaid known task.command task target.entry.path.now) target.entry.path.now))
        run.old run.new) }
{
    if run_parts(alloc, target, files, run)? {
        return Ok(());
    }
    match files.read(target.path) {
        Ok(data) => run_content(alloc, target, files, data, run),
        Err(error) => target.tell_unread(error, run),
    }
}

// The same, if the file can be read by parts. Returns whether it was told.
fn run_parts<F: Files, R: Run>(
    alloc: Global,
    target: Target<'_>,
    files: &F,
    run: &mut R,
) -> Result<bool, Stop>
    ensures { let task = task_of target.entry.job.now in let known = F.known files.now in
        IfOk result (IsTried R.one (IsOne target.entry.heading target.entry.path.now
        (IsSaidAt known (IsContentSaid known task.command task target.entry.path.now) target.entry.path.now))
        run.old run.new) }
{
    match target.job.command {
        Command::Tree => run_program(alloc, target, files, run),
        Command::Bindings => run_program(alloc, target, files, run),
        Command::Starts => run_program(alloc, target, files, run),
        _ => run_source(alloc, target, files, run),
    }
}

// The same of one file.
fn run_source<F: Files, R: Run>(
    alloc: Global,
    target: Target<'_>,
    files: &F,
    run: &mut R,
) -> Result<bool, Stop>
    ensures { IfOk result (IsTried R.one (IsOne target.entry.heading target.entry.path.now (IsSaidAt (F.known files.now)
        (IsBytesSaid (task_of target.entry.job.now) target.entry.path.now) target.entry.path.now)) run.old run.new) }
{
    match files.open(target.path) {
        Some(source) => tell_source(alloc, target, source, run),
        None => Ok(false),
    }
}

// The same of a program.
fn run_program<F: Files, R: Run>(
    alloc: Global,
    target: Target<'_>,
    files: &F,
    run: &mut R,
) -> Result<bool, Stop>
    ensures { let task = task_of target.entry.job.now in let known = F.known files.now in
        IfOk result (IsTried R.one (IsOne target.entry.heading target.entry.path.now
        (IsSaidAt known (IsProgramSaid known task.command task target.entry.path.now) target.entry.path.now))
        run.old run.new) }
{
    let Some(program) = open_program(alloc, target.path, files) else {
        return Ok(false);
    };
    target.tell_named(alloc, files, program, run)?;
    Ok(true)
}

// The program at a path by its names, if it can be read by parts.
fn open_program<F: Files>(alloc: Global, path: &str, files: &F) -> Option<LoadedFile>
    ensures { IfSome result (λ program. IfSome (F.known files.now)
        (λ files. IsNamed path.now (files.contents path.now) (found_view program))) }
{
    let source = files.open(path)?;
    LoadedFile::open_names(alloc, path.as_bytes(), source)
}

/// The same of a member of an archive.
pub(crate) fn run_slice<R: Run>(
    alloc: Global,
    target: Target<'_>,
    bytes: &[u8],
    run: &mut R,
) -> Result<(), Stop>
    ensures { let task = task_of target.entry.job.now in OnOk result (AreTold R.one (IsOne target.entry.heading
        target.entry.path.now (IsElfSaid (IsBytesSaid task target.entry.path.now) bytes.now)) run.old run.new) }
{
    let front = front_in(bytes);
    if is_elf(front) {
        run_bytes(alloc, target, bytes, run)
    } else {
        target.tell_problem(&not_elf(front), run)
    }
}

fn run_bytes<R: Run>(
    alloc: Global,
    target: Target<'_>,
    bytes: &[u8],
    run: &mut R,
) -> Result<(), Stop>
    ensures { OnOk result (AreTold R.one (IsOne target.entry.heading target.entry.path.now
        (IsBytesSaid (task_of target.entry.job.now) target.entry.path.now bytes.now)) run.old run.new) }
{
    match ElfBytes::<AnyEndian>::minimal_parse(bytes) {
        Ok(file) => run_opened(alloc, target, bytes, &file, None, run),
        Err(error) => run_unopened(alloc, target, bytes, error, run),
    }
}

// The same of a file that was opened over these bytes, after it is told why its section headers were not read, if they
// were not.
fn run_opened<E: EndianParse, R: Run>(
    alloc: Global,
    target: Target<'_>,
    bytes: &[u8],
    file: &ElfBytes<'_, E>,
    lost: Option<LostHeaders>,
    run: &mut R,
) -> Result<(), Stop>
    ensures { OnOk result (AreTold R.one (IsOne target.entry.heading target.entry.path.now (IsSaidAfter lost
        (IsFileSaid E.little E.of_byte (task_of target.entry.job.now) target.entry.path.now (view file.now).ehdr
        (listed_file E.little (headers_of (view file.now)) bytes.now)))) run.old run.new) }
{
    let file = FileInMemory::new(alloc, bytes, file)?;
    target.tell_file(alloc, lost, &file, run)
}

// The same of a file that does not open. If its section headers alone cannot be read, it is read through its segments,
// unless it is checked: it is not sound.
fn run_unopened<R: Run>(
    alloc: Global,
    target: Target<'_>,
    bytes: &[u8],
    error: ParseError,
    run: &mut R,
) -> Result<(), Stop>
    ensures { let task = task_of target.entry.job.now in OnOk result (AreTold R.one (IsOne target.entry.heading
        target.entry.path.now (IsUnopenedSaid task.command task target.entry.path.now bytes.now error
        (opened_by_segments any_is_little any_of_byte bytes.now))) run.old run.new) }
{
    if matches!(target.job.command, Command::Check) {
        return target.tell_problem(&error, run);
    }
    match ElfBytes::<AnyEndian>::parse_by_segments(bytes) {
        Ok(file) => {
            let len = bytes.len();
            let lost = LostHeaders { error, len };
            run_opened(alloc, target, bytes, &file, Some(lost), run)
        }
        Err(_) => target.tell_problem(&error, run),
    }
}
