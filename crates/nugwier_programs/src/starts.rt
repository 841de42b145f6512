//! Whether a program starts: it does if the kernel loads it and its dynamic linker finds its libraries and their symbols.
#![tactic(auto, using(nugwier_report::proofs::Saying::saying_both))]

ghost use Rattle.std.specs.Prelude.{◌≡◌, List, IfOk, IfSome, OnOk, is_some};
ghost use Rattle.elf_libraries.specs.Tree.{file_of, found_view};
ghost use Rattle.nugwier_layouts.specs.Members.{members_said};
ghost use Rattle.nugwier_programs.specs.Loading.{kernel_said, program_loader};
ghost use Rattle.nugwier_programs.specs.Starts.{AreReasons, IsBoundStartSaid, IsLinkedSaid, IsLoadedSaid, IsStartSaid};
ghost use Rattle.nugwier_programs.specs.Starts.{first_problem, first_said, none_said, start_members, undecided_said};
ghost use Rattle.nugwier_programs.specs.Tree.{IsProgram, search_view};
ghost use Rattle.nugwier_report.specs.Said.{Said, saying, unread, whole};
ghost use Rattle.nugwier_report.specs.declared.problem.Part.TheVariants.{File};

mod first_reason;
mod judged;
mod judging;
mod loading;

use crate::bindings::tell_symbols;
use crate::starts::first_reason::FirstReason;
use crate::starts::judged::JudgedLibraries;
pub use crate::starts::loading::{LoadFault, Loader};
use crate::starts::loading::{tell_kernel, tell_order};
use crate::tree::{FILE, Search, objects_by, open_program};
use elf_libraries::files::Files;
use elf_libraries::tree::LoadedFile;
use elf_loader::glibc;
use nugwier_layouts::json::{Member, Value};
use nugwier_layouts::layouts::Layout;
use nugwier_layouts::text::Shown;
use nugwier_report::problem::Stop;
use nugwier_report::tell::Tell;
use std::alloc::Global;
use std::fmt;

/// That a program starts, for people, with its path.
pub static STARTS: Layout = (None, false, &[("", 0, Shown::Text)], ": starts\n");

/// Whether a program starts, or why not. For people that it does not is a problem alone.
pub static START: Layout = (Some("start"), false, &[], "");

/// Tells whether a program starts, or the first reason why it does not. The path and the data are those of the program. The
/// errors are that of the writer, and a failed allocation.
///
/// The reasons, in order: the program does not open; what the kernel refuses; a library that is missing, has names that are
/// not known, or is refused by the dynamic linker, in the order of loading; what `tell_bindings` finds wrong with the
/// symbols. It is not decided what another dynamic linker than that of the GNU C library does, nor another machine than
/// those of `elf_loader::kernel::Platform::of`.
pub fn tell_start<F: Files, T: Tell>(
    alloc: Global,
    search: Search<'_>,
    files: &F,
    path: &str,
    data: Vec<u8>,
    tell: &mut T,
) -> Result<(), Stop>
    ensures { OnOk result ((said : List Said)
        × IsStartSaid (F.known files.now) (search_view search.entry) path.now (file_of path.now «data».items) said
        × (tell.new ≡ saying T.one tell.old said)) }
{
    let Some(program) = open_first(alloc, path, data, tell)? else {
        return Ok(());
    };
    tell_bound_start(alloc, search, files, path, program, tell)
}

// Opens a program. Returns `None` if that is not possible, and tells that it does not start.
fn open_first<T: Tell>(
    alloc: Global,
    path: &str,
    data: Vec<u8>,
    tell: &mut T,
) -> Result<Option<LoadedFile>, Stop>
    ensures program { IfOk result (IsProgram (file_of path.now «data».items)) }
    ensures said { OnOk result (tell.new ≡ saying T.one tell.old
        (first_said (first_problem (unread (whole File) (file_of path.now «data».items))))) }
{
    let mut first = FirstReason {
        tell,
        is_found: false,
    };
    let program = open_program(alloc, path, data, &mut first)?;
    Ok(program)
}

/// Tells the same of a program that was opened. What is asked of one without its bytes is read from its path.
pub fn tell_bound_start<F: Files, T: Tell>(
    alloc: Global,
    search: Search<'_>,
    files: &F,
    path: &str,
    program: LoadedFile,
    tell: &mut T,
) -> Result<(), Stop>
    ensures { OnOk result ((said : List Said)
        × IsBoundStartSaid (F.known files.now) (search_view search.entry) path.now (found_view program) said
        × (tell.new ≡ saying T.one tell.old said)) }
{
    let (is_found, loader) = tell_first(files, &program, tell)?;
    if is_found {
        return Ok(());
    }
    tell_loaded(alloc, search, files, path, program, loader, tell)?;
    Ok(())
}

// Tells the first thing that the kernel refuses of a program, if there is one. Returns whether there is, and what starts it.
fn tell_first<F: Files, T: Tell>(
    files: &F,
    program: &LoadedFile,
    tell: &mut T,
) -> Result<(bool, Loader), Stop>
    ensures { IfOk result (λ found. (kernel : List Said)
        × IfSome (F.known files.now) (λ files. kernel ≡ kernel_said files.contents (found_view program.now))
        × IfSome (F.known files.now) (λ files. found.1 ≡ program_loader files.contents (found_view program.now))
        × (found.0 ≡ is_some (first_problem kernel))
        × (tell.new ≡ saying T.one tell.old (first_said (first_problem kernel)))) }
{
    let mut first = FirstReason {
        tell,
        is_found: false,
    };
    let loader = tell_kernel(files, program, &mut first)?;
    Ok((first.is_found, loader))
}

// Tells whether a program starts that the kernel does not refuse.
fn tell_loaded<F: Files, T: Tell>(
    alloc: Global,
    search: Search<'_>,
    files: &F,
    path: &str,
    program: LoadedFile,
    loader: Loader,
    tell: &mut T,
) -> Result<(), Stop>
    ensures { OnOk result ((said : List Said)
        × IsLoadedSaid (F.known files.now) (search_view search.entry) path.now (found_view program) loader said
        × (tell.new ≡ saying T.one tell.old said)) }
{
    match loader {
        Loader::Gnu(kind) => {
            tell_linked(alloc, search, files, path, program, Some(kind), tell)?;
        }
        Loader::Kernel => tell_linked(alloc, search, files, path, program, None, tell)?,
        Loader::Other => tell_undecided(Undecided::Linker, tell)?,
        Loader::Machine => tell_undecided(Undecided::Machine, tell)?,
    }
    Ok(())
}

// The same of a program with its libraries.
fn tell_linked<F: Files, T: Tell>(
    alloc: Global,
    search: Search<'_>,
    files: &F,
    path: &str,
    program: LoadedFile,
    linker: Option<glibc::Kind>,
    tell: &mut T,
) -> Result<(), Stop>
    ensures { OnOk result ((said : List Said)
        × IsLinkedSaid (F.known files.now) (search_view search.entry) path.now (found_view program) linker said
        × (tell.new ≡ saying T.one tell.old said)) }
{
    let is_found = tell_linked_first(alloc, search, files, program, linker, tell)?;
    tell_unless(is_found, path, tell)
}

// Tells the first thing that is wrong with the libraries of a program and with the symbols, if there is one, and returns
// whether there is.
fn tell_linked_first<F: Files, T: Tell>(
    alloc: Global,
    search: Search<'_>,
    files: &F,
    program: LoadedFile,
    linker: Option<glibc::Kind>,
    tell: &mut T,
) -> Result<bool, Stop>
    ensures { IfOk result (λ found. (reasons : List Said)
        × AreReasons (F.known files.now) (search_view search.entry) (found_view program) linker reasons
        × (found ≡ is_some (first_problem reasons))
        × (tell.new ≡ saying T.one tell.old (first_said (first_problem reasons)))) }
{
    let mut first = FirstReason {
        tell,
        is_found: false,
    };
    tell_reasons(alloc, search, files, program, linker, &mut first)?;
    Ok(first.is_found)
}

// Tells that a program starts, unless a reason was found why it does not.
fn tell_unless<T: Tell>(is_found: bool, path: &str, tell: &mut T) -> Result<(), Stop>
    ensures { OnOk result (tell.new ≡ saying T.one tell.old (none_said path.now is_found)) }
{
    if is_found {
        return Ok(());
    }
    tell.state(&STARTS, &[("path", Value::Text(Some(path.as_bytes())))])?;
    tell.state(&START, &start_members(true))
}

fn start_members(starts: bool) -> [Member<'static>; 1]
    ensures { members_said result ≡ start_members starts }
{
    [("starts", Value::Flag(starts))]
}

// Tells that it is not decided whether a program starts.
fn tell_undecided<T: Tell>(reason: Undecided, tell: &mut T) -> Result<(), Stop>
    ensures { OnOk result (tell.new ≡ saying T.one tell.old (undecided_said reason)) }
{
    tell.state(&START, &[("starts", Value::Text(None))])?;
    tell.problem(FILE, &reason)
}

// Tells all that is wrong with the libraries of a program and with the symbols.
fn tell_reasons<F: Files, T: Tell>(
    alloc: Global,
    search: Search<'_>,
    files: &F,
    program: LoadedFile,
    linker: Option<glibc::Kind>,
    tell: &mut T,
) -> Result<(), Stop>
    ensures { OnOk result ((said : List Said)
        × AreReasons (F.known files.now) (search_view search.entry) (found_view program) linker said
        × (tell.new ≡ saying T.one tell.old said)) }
{
    let opener = JudgedLibraries {
        files,
        linker,
        kind: program.kind,
    };
    let order = objects_by(alloc, search, files, &opener, program)?;
    tell_order(alloc, files, &linker, &order, tell)?;
    tell_symbols(alloc, files, &order, tell)?;
    Ok(())
}

/// Why it is not decided whether a program starts.
#[derive(Clone, Copy, Drop)]
pub enum Undecided {
    /// Its dynamic linker is not that of the GNU C library.
    Linker,
    /// It is not known how its machine starts programs.
    Machine,
}

impl fmt::Display for Undecided {
    ghost use Rattle.nugwier_programs.specs.Starts.{undecided_text};

    ghost output = { undecided_text };

    fn fmt<W: fmt::Write>(&self, f: &mut fmt::Formatter<W>) -> fmt::Result {
        match self {
            Undecided::Linker => f.write_str(
                "may start: its dynamic linker is not that of the GNU C library, whose rules alone are known",
            ),
            Undecided::Machine => {
                f.write_str("may start: it is not known how its machine starts programs")
            }
        }
    }
}
