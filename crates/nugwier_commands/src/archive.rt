//! An archive: each of its members is told as a file.
#![tactic(auto, using(nugwier_report::proofs::Saying::saying_both))]

ghost use Rattle.std.specs.Prelude.{◌≡◌, IfOk, Ok, OnOk, string_bytes};
ghost use Rattle.std.specs.Str.{is_utf8};
ghost use Rattle.elf_archive.specs.Archive.{item_view, member_view, members_left};
ghost use Rattle.nugwier_commands.specs.Run.{AreItemsSaid, AreMembersSaid, IsBytesSaid, IsElfSaid, IsHeldSaid, IsOne};
ghost use Rattle.nugwier_commands.specs.Run.{IsOutsideSaid, IsProblemSaid, IsSaidAt, broken, first_heading};
ghost use Rattle.nugwier_commands.specs.Run.{is_archive, member_path, next_heading};
ghost use Rattle.nugwier_commands.specs.Run.{outside_path};
ghost use Rattle.nugwier_commands.specs.inner.Loading.{AreTold, IsOneItem};
ghost use Rattle.nugwier_commands.specs.Words.{task_of};

use crate::formats::NotElf;
use crate::run::run_slice;
use crate::target::{Heading, Target};
use crate::words::{Command, Job};
use elf_archive::archive::{ArchiveError, Member, Members, members_of, thinness};
use elf_libraries::files::Files;
use nugwier_report::problem::Stop;
use nugwier_report::quoted::Quoted;
use nugwier_report::run::Run;
use std::alloc::{AllocError, Global};
use std::path::Path;
use std::str::from_utf8;

/// Whether a file that begins with these bytes is told by its members.
pub(crate) fn is_archive(job: &Job<'_>, front: &[u8]) -> bool
    ensures { result ≡ is_archive job.now.command front.now }
{
    match job.command {
        Command::Tree | Command::Bindings | Command::Starts => false,
        _ => thinness(front).is_some(),
    }
}

/// Tells of the members of the archive with these bytes what is asked for.
pub(crate) fn run_archive<F: Files, R: Run>(
    alloc: Global,
    target: Target<'_>,
    files: &F,
    bytes: &[u8],
    run: &mut R,
) -> Result<(), Stop>
    ensures { OnOk result (AreTold R.one (AreMembersSaid (F.known files.now) (task_of target.entry.job.now)
        target.entry.heading target.entry.path.now bytes.now) run.old run.new) }
{
    let target = Target {
        job: target.job,
        path: target.path,
        heading: first_heading(target.job.command, target.heading),
    };
    match members_of(bytes) {
        Ok(members) => run_members(alloc, target, files, members, run),
        Err(error) => tell_broken(alloc, target, error, run),
    }
}

/// What is above the first file, if something may be above files.
pub(crate) fn first_heading(command: Command, heading: Option<Heading>) -> Option<Heading>
    ensures { result ≡ first_heading command heading }
{
    match (command, heading) {
        (Command::Check | Command::Harden | Command::Starts, _) => None,
        (_, Some(above)) => Some(above),
        (_, None) => Some(Heading::First),
    }
}

/// What is above the file after one with this above it.
pub(crate) fn next_heading(heading: Option<Heading>) -> Option<Heading>
    ensures { result ≡ next_heading heading }
{
    match heading {
        Some(_) => Some(Heading::Next),
        None => None,
    }
}

fn run_members<F: Files, R: Run>(
    alloc: Global,
    target: Target<'_>,
    files: &F,
    mut members: Members<'_>,
    run: &mut R,
) -> Result<(), Stop>
    ensures { OnOk result (AreTold R.one (AreItemsSaid (F.known files.now) (task_of target.entry.job.now)
        target.entry.heading target.entry.path.now (members_left members.entry)) run.old run.new) }
{
    let mut heading = target.heading;
    while let Some(item) = members.next() {
        let target = Target {
            job: target.job,
            path: target.path,
            heading,
        };
        run_item(alloc, target, files, item, run)?;
        heading = next_heading(heading);
    }
    Ok(())
}

fn run_item<F: Files, R: Run>(
    alloc: Global,
    target: Target<'_>,
    files: &F,
    item: Result<Member<'_>, ArchiveError>,
    run: &mut R,
) -> Result<(), Stop>
    ensures { OnOk result (AreTold R.one (IsOneItem (F.known files.now) (task_of target.entry.job.now)
        target.entry.heading target.entry.path.now (item_view item.entry)) run.old run.new) }
{
    match item {
        Ok(member) => run_member(alloc, target, files, member, run),
        Err(error) => tell_broken(alloc, target, error, run),
    }
}

// The archive cannot be read on.
fn tell_broken<R: Run>(
    alloc: Global,
    target: Target<'_>,
    error: ArchiveError,
    run: &mut R,
) -> Result<(), Stop>
    ensures { OnOk result (AreTold R.one (IsOne target.entry.heading target.entry.path.now
        (IsProblemSaid (broken error))) run.old run.new) }
{
    let text = format!(in alloc; "a broken ar archive: {error}")?;
    let broken = NotElf(Some(Quoted::new(text.as_bytes())));
    target.tell_problem(&broken, run)
}

// Tells of a member what is asked for, with its own path.
fn run_member<F: Files, R: Run>(
    alloc: Global,
    target: Target<'_>,
    files: &F,
    member: Member<'_>,
    run: &mut R,
) -> Result<(), Stop>
    ensures { OnOk result (AreTold R.one (IsOneItem (F.known files.now) (task_of target.entry.job.now)
        target.entry.heading target.entry.path.now (Ok (member_view member.entry))) run.old run.new) }
{
    let archive = target.path;
    let path = member_path(alloc, archive, &member)?;
    let target = Target {
        job: target.job,
        path: path.as_str(),
        heading: target.heading,
    };
    run_held(alloc, target, files, archive, &member, run)
}

// The path of a member: the archive's, and its name or its offset.
fn member_path(alloc: Global, archive: &str, member: &Member<'_>) -> Result<String, AllocError>
    ensures { IfOk result (λ path. string_bytes path ≡ member_path archive.now (member_view member.now)) }
{
    match from_utf8(member.name) {
        Ok(name) => format!(in alloc; "{archive}({name})"),
        Err(_) => {
            let offset = member.offset;
            format!(in alloc; "{archive}(member at 0x{offset:x})")
        }
    }
}

// Tells of a member of the archive at a path, by its own path, what is asked for.
fn run_held<F: Files, R: Run>(
    alloc: Global,
    target: Target<'_>,
    files: &F,
    archive: &str,
    member: &Member<'_>,
    run: &mut R,
) -> Result<(), Stop>
    ensures { let task = task_of target.entry.job.now in let member = member_view member.now in
        OnOk result (AreTold R.one (IsOne target.entry.heading target.entry.path.now (IsHeldSaid (F.known files.now)
        (IsElfSaid (IsBytesSaid task target.entry.path.now)) archive.now member member.bytes)) run.old run.new) }
{
    match member.bytes {
        Some(bytes) => run_slice(alloc, target, bytes, run),
        None => run_outside(alloc, target, files, archive, member.name, run),
    }
}

// The same of a member of a thin archive, which is a file.
fn run_outside<F: Files, R: Run>(
    alloc: Global,
    target: Target<'_>,
    files: &F,
    archive: &str,
    name: &[u8],
    run: &mut R,
) -> Result<(), Stop>
    ensures { let task = task_of target.entry.job.now in
        OnOk result (AreTold R.one (IsOne target.entry.heading target.entry.path.now (IsOutsideSaid (F.known files.now)
        (IsElfSaid (IsBytesSaid task target.entry.path.now)) archive.now name.now (is_utf8 name.now)))
        run.old run.new) }
{
    let Ok(name) = from_utf8(name) else {
        let name = Quoted::new(b"a path that is not UTF-8");
        return target.tell_problem(&NotElf(Some(name)), run);
    };
    let path = outside_path(alloc, archive, name)?;
    run_elsewhere(alloc, target, files, path.as_str(), run)
}

// The same of the file at a path.
fn run_elsewhere<F: Files, R: Run>(
    alloc: Global,
    target: Target<'_>,
    files: &F,
    path: &str,
    run: &mut R,
) -> Result<(), Stop>
    ensures { let task = task_of target.entry.job.now in
        OnOk result (AreTold R.one (IsOne target.entry.heading target.entry.path.now (IsSaidAt (F.known files.now)
        (IsElfSaid (IsBytesSaid task target.entry.path.now)) path.now)) run.old run.new) }
{
    match files.read(path) {
        Ok(data) => run_slice(alloc, target, data.as_slice(), run),
        Err(error) => target.tell_unread(error, run),
    }
}

// The path of the file of a member of a thin archive. The path `-` would be standard input.
fn outside_path(alloc: Global, archive: &str, name: &str) -> Result<String, AllocError>
    ensures { IfOk result (λ path. string_bytes path ≡ outside_path archive.now name.now) }
{
    let name = if name == "-" { "./-" } else { name };
    let path = Path::new(archive).with_file_name(alloc, name)?;
    Ok(path.into_string())
}
