//! What the kernel and the dynamic linker refuse to load of a program.
#![tactic(auto, using(nugwier_report::proofs::Saying::saying_both))]

ghost use Rattle.std.specs.Prelude.{◌≡◌, [], List, IfOk, IfSome, Ok, OnOk, map, take};
ghost use Rattle.std.specs.List.{flat_map};
ghost use Rattle.std.specs.Option.{option_copied, option_map};
ghost use Rattle.std.specs.Vec.{vec_items};
ghost use Rattle.elf_records.specs.Number.{ok_map};
ghost use Rattle.elf_libraries.specs.Tree.{entry_view, found_view};
ghost use Rattle.elf_loader.specs.kernel.Memory.{image_view};
ghost use Rattle.elf_loader.specs.kernel.Program.{program_view};
ghost use Rattle.nugwier_programs.specs.Loading.{bytes_said, error_said, exec_said, file_said, found_said, interpreter_of};
ghost use Rattle.nugwier_programs.specs.Loading.{interpreter_path, interpreter_said, is_glibc, front_of, judged_said, kernel_said, most, seen_size};
ghost use Rattle.nugwier_programs.specs.Loading.{kind_loader, last_name, library_said, loader_by, loader_of, loading_said};
ghost use Rattle.nugwier_programs.specs.Loading.{memory_said, object_said, program_loader, program_of};
ghost use Rattle.nugwier_programs.specs.Tree.{order_view};
ghost use Rattle.nugwier_report.specs.Said.{Said, saying};

use crate::starts::judging::judge_at;
use crate::tree::{FILE, tell_problem};
use elf::LoadedParts;
use elf_libraries::files::Files;
use elf_libraries::tree::{Kind, LoadOrder, LoadedFile, Object, last_slash};
use elf_loader::glibc::Candidate;
use elf_loader::kernel::{
    ExecError, Image, Platform, Program, load, read_interpreter, read_program,
};
use elf_loader::{glibc, kernel};
use nugwier_report::problem::Stop;
use nugwier_report::quoted::Quoted;
use nugwier_report::tell::Tell;
use std::alloc::{AllocError, Global};
use std::fmt;

/// What starts a program.
#[derive(Clone, Copy)]
pub enum Loader {
    /// The dynamic linker of the GNU C library, and what it wants libraries to be.
    Gnu(glibc::Kind),
    /// Another dynamic linker.
    Other,
    /// The kernel alone: the program has no interpreter.
    Kernel,
    /// It is not known how the machine starts programs.
    Machine,
}

/// Why a file of a program is not loaded.
#[derive(Drop)]
pub enum LoadFault<'a> {
    /// The kernel refuses the program or its interpreter.
    Kernel(kernel::Refusal),
    /// The interpreter at this path is not there, or cannot be read.
    NoInterpreter(Quoted<'a>),
    /// The dynamic linker refuses the library at this path.
    Library(Quoted<'a>, glibc::Refusal),
}

impl fmt::Display for LoadFault<'_> {
    ghost use Rattle.nugwier_programs.specs.Loading.{load_text};

    ghost output = { load_text };

    fn fmt<W: fmt::Write>(&self, f: &mut fmt::Formatter<W>) -> fmt::Result {
        match self {
            LoadFault::Kernel(refusal) => write!(f, "{refusal}"),
            LoadFault::NoInterpreter(path) => write!(f, "interpreter {path} is not found"),
            LoadFault::Library(path, refusal) => write!(f, "{path}: {refusal}"),
        }
    }
}

// How many bytes of a file are read for the kernel's rules. What the kernel reads of a program is at the front, since
// linkers put it there.
const MOST: usize = 1 << 26;

// A file with this front. If it may be longer its size is one that no file has, so that what comes after is missing.
#[tactic(auto, unfolding(crate::specs::Loading::most))]
fn seen(front: &[u8]) -> LoadedParts<'_>
    ensures size { result.size ≡ seen_size front.now }
    ensures front { result.front.now ≡ front.now }
    ensures ranges { result.ranges.now ≡ [] }
{
    let size = if front.len() < MOST {
        front.len() as u64
    } else {
        1 << 62
    };
    LoadedParts {
        size,
        front,
        ranges: &[],
    }
}

// The front of these bytes.
fn front_in(bytes: &[u8]) -> &[u8]
    ensures { result.now ≡ take most bytes.now }
{
    &bytes[..MOST.min(bytes.len())]
}

// The front of the file at a path, if it can be read.
#[tactic(auto, unfolding(crate::specs::Loading::most))]
fn front_at<F: Files>(files: &F, path: &[u8]) -> Result<Option<Vec<u8>>, AllocError>
    ensures { IfOk result (λ front. IfSome (F.known files.now)
        (λ files. front_of (files.contents path.now) ≡ option_map vec_items front)) }
{
    files.read_front(path, MOST)
}

// The program that these bytes are, for the kernel.
fn program_of<'d>(platform: &Platform, bytes: &'d [u8]) -> Result<Program<'d>, ExecError>
    ensures { ok_map program_view result ≡ program_of platform.now bytes.now }
{
    read_program(platform, &seen(bytes))
}

// The interpreter that these bytes are.
fn interpreter_of<'d>(platform: &Platform, bytes: &'d [u8]) -> Result<Image<'d>, ExecError>
    ensures { ok_map image_view result ≡ interpreter_of platform.now bytes.now }
{
    read_interpreter(platform, &seen(bytes))
}

// ---- the kernel

// Tells what the kernel refuses. Of a file that is not loaded whole nothing is refused.
fn tell_error<T: Tell>(error: ExecError, tell: &mut T) -> Result<(), Stop>
    ensures { OnOk result (tell.new ≡ saying T.one tell.old (error_said error)) }
{
    match error {
        ExecError::Refused(refusal) => tell.problem(FILE, &LoadFault::Kernel(refusal)),
        ExecError::Missing(_) => Ok(()),
    }
}

// Tells what of a program and its interpreter cannot be loaded into memory.
fn tell_memory<T: Tell>(
    platform: &Platform,
    program: &Image<'_>,
    interpreter: Option<&Image<'_>>,
    tell: &mut T,
) -> Result<(), Stop>
    ensures { OnOk result (tell.new ≡ saying T.one tell.old
        (memory_said platform.now (image_view program.now)
        (option_map (λ image. image_view image.now) interpreter.entry))) }
{
    match load(platform, program, interpreter) {
        Ok(()) => Ok(()),
        Err(refusal) => tell.problem(FILE, &LoadFault::Kernel(refusal)),
    }
}

/// Returns the content of the file at a path, if it can be read.
pub(crate) fn content_at<F: Files>(files: &F, path: &[u8]) -> Result<Option<Vec<u8>>, AllocError>
    ensures { IfOk result (λ found. IfSome (F.known files.now)
        (λ files. files.contents path.now ≡ option_map vec_items found)) }
{
    files.has_libraries();
    files.read_library(path)
}

// Tells what the kernel refuses of a program with an interpreter that has this content, if it can be read.
fn tell_found<T: Tell>(
    platform: &Platform,
    program: &Image<'_>,
    path: &[u8],
    content: &Option<Vec<u8>>,
    tell: &mut T,
) -> Result<(), Stop>
    ensures { OnOk result (tell.new ≡ saying T.one tell.old (found_said platform.now (image_view program.now) path.now
        (option_map vec_items content.now))) }
{
    let Some(bytes) = content else {
        return tell.problem(FILE, &LoadFault::NoInterpreter(Quoted::new(path)));
    };
    match interpreter_of(platform, bytes.as_slice()) {
        Ok(interpreter) => tell_memory(platform, program, Some(&interpreter), tell),
        Err(error) => tell_error(error, tell),
    }
}

// The same of a program with an interpreter at this path.
fn tell_interpreter<F: Files, T: Tell>(
    files: &F,
    platform: &Platform,
    program: &Image<'_>,
    path: &[u8],
    tell: &mut T,
) -> Result<(), Stop>
    ensures { OnOk result ((said : List Said)
        × IfSome (F.known files.now) (λ files.
        said ≡ interpreter_said files.contents platform.now (image_view program.now) path.now)
        × (tell.new ≡ saying T.one tell.old said)) }
{
    let content = front_at(files, path)?;
    tell_found(platform, program, path, &content, tell)
}

// Tells what the kernel refuses of a program with these bytes.
fn tell_exec<F: Files, T: Tell>(
    files: &F,
    platform: &Platform,
    bytes: &[u8],
    tell: &mut T,
) -> Result<(), Stop>
    ensures { OnOk result ((said : List Said)
        × IfSome (F.known files.now) (λ files. said ≡ exec_said files.contents platform.now bytes.now)
        × (tell.new ≡ saying T.one tell.old said)) }
{
    match program_of(platform, bytes) {
        Ok(program) => match program.interpreter {
            Some(path) => tell_interpreter(files, platform, &program.image, path, tell),
            None => tell_memory(platform, &program.image, None, tell),
        },
        Err(error) => tell_error(error, tell),
    }
}

// The path of the interpreter of a program with these bytes, if the kernel finds one.
fn interpreter_path<'d>(platform: &Platform, bytes: &'d [u8]) -> Option<&'d [u8]>
    ensures { option_copied result ≡ interpreter_path platform.now bytes.now }
{
    match program_of(platform, bytes) {
        Ok(program) => program.interpreter,
        Err(_) => None,
    }
}

// Whether the file at a path is the dynamic linker of the GNU C library, by its name.
fn is_glibc(path: &[u8]) -> bool
    ensures { result ≡ is_glibc path.now }
{
    let name = last_name(path);
    name.starts_with(b"ld-linux") || name.starts_with(b"ld.so.") || name.starts_with(b"ld64.so.")
}

// What follows the last slash.
fn last_name(path: &[u8]) -> &[u8]
    ensures { result.now ≡ last_name path.now }
{
    match last_slash(path) {
        Some(place) if place < path.len() => &path[place + 1..],
        _ => path,
    }
}

// What starts a program of this kind with an interpreter at this path.
fn loader_by(kind: &Kind, platform: &Platform, path: &[u8]) -> Loader
    ensures { result ≡ loader_by kind.now platform.now path.now }
{
    if !is_glibc(path) {
        return Loader::Other;
    }
    Loader::Gnu(glibc::Kind {
        class: kind.class,
        order: kind.order,
        machine: kind.machine,
        page_size: platform.page.bytes(),
        address_space: platform.addresses,
    })
}

// What starts a program of this kind with these bytes.
fn loader_of(kind: &Kind, platform: &Platform, bytes: &[u8]) -> Loader
    ensures { result ≡ loader_of kind.now platform.now bytes.now }
{
    match interpreter_path(platform, bytes) {
        Some(path) => loader_by(kind, platform, path),
        None => Loader::Kernel,
    }
}

// Tells what the kernel refuses of a program of this kind with these bytes, if it is known how its machine starts programs.
// Returns what starts it.
fn tell_bytes<F: Files, T: Tell>(
    files: &F,
    kind: &Kind,
    bytes: &[u8],
    tell: &mut T,
) -> Result<Loader, Stop>
    ensures loader { IfOk result (λ loader. loader ≡ kind_loader kind.now bytes.now) }
    ensures said { OnOk result ((said : List Said)
        × IfSome (F.known files.now) (λ files. said ≡ bytes_said files.contents kind.now bytes.now)
        × (tell.new ≡ saying T.one tell.old said)) }
{
    match Platform::of(kind.machine) {
        Some(platform) => {
            tell_exec(files, &platform, bytes, tell)?;
            Ok(loader_of(kind, &platform, bytes))
        }
        None => Ok(Loader::Machine),
    }
}

/// Tells what the kernel refuses of a program that was opened, and returns what starts it.
pub(crate) fn tell_kernel<F: Files, T: Tell>(
    files: &F,
    program: &LoadedFile,
    tell: &mut T,
) -> Result<Loader, Stop>
    ensures loader { IfOk result (λ loader. IfSome (F.known files.now)
        (λ files. loader ≡ program_loader files.contents (found_view program.now))) }
    ensures said { OnOk result ((said : List Said)
        × IfSome (F.known files.now) (λ files. said ≡ kernel_said files.contents (found_view program.now))
        × (tell.new ≡ saying T.one tell.old said)) }
{
    if !program.bytes.is_empty() {
        return tell_bytes(files, &program.kind, front_in(&program.bytes), tell);
    }
    match front_at(files, &program.path)? {
        Some(bytes) => tell_bytes(files, &program.kind, bytes.as_slice(), tell),
        None => Ok(Loader::Kernel),
    }
}

// ---- the libraries

// Tells that the dynamic linker refuses the library at a path, if that is what it does.
fn tell_judged<T: Tell>(path: &[u8], found: Option<Candidate>, tell: &mut T) -> Result<(), Stop>
    ensures { OnOk result (tell.new
        ≡ saying T.one tell.old (judged_said path.now (option_map (λ found. Ok found) found))) }
{
    match found {
        Some(Candidate::Refused(refusal)) => {
            tell.problem(FILE, &LoadFault::Library(Quoted::new(path), refusal))
        }
        Some(Candidate::Skipped(_) | Candidate::Loadable(_)) | None => Ok(()),
    }
}

// The same of what it does with the library at a path.
fn tell_library<F: Files, T: Tell>(
    alloc: Global,
    files: &F,
    linker: &glibc::Kind,
    path: &[u8],
    tell: &mut T,
) -> Result<(), Stop>
    ensures { OnOk result ((said : List Said)
        × IfSome (F.known files.now) (λ files. said ≡ library_said linker.now path.now (files.contents path.now))
        × (tell.new ≡ saying T.one tell.old said)) }
{
    let found = judge_at(alloc, files, linker, path)?;
    tell_judged(path, found, tell)
}

// Tells the same of an object, if its file was found and its dynamic linker is known.
fn tell_file<F: Files, T: Tell>(
    alloc: Global,
    files: &F,
    linker: &Option<glibc::Kind>,
    object: &Object,
    tell: &mut T,
) -> Result<(), Stop>
    ensures { OnOk result ((said : List Said)
        × IfSome (F.known files.now) (λ files. said ≡ file_said files.contents linker.now (entry_view object.now).file)
        × (tell.new ≡ saying T.one tell.old said)) }
{
    match (linker, &object.file) {
        (Some(linker), Some(file)) => tell_library(alloc, files, linker, &file.path, tell),
        _ => Ok(()),
    }
}

/// Tells of each library in the order of loading that it is missing, that its names are not known, or that the dynamic
/// linker refuses it.
pub(crate) fn tell_order<F: Files, T: Tell>(
    alloc: Global,
    files: &F,
    linker: &Option<glibc::Kind>,
    order: &LoadOrder,
    tell: &mut T,
) -> Result<(), Stop>
    ensures { OnOk result ((said : List Said)
        × IfSome (F.known files.now) (λ files.
        said ≡ loading_said files.contents linker.now (order_view order.now).0)
        × (tell.new ≡ saying T.one tell.old said)) }
{
    tell_loading(alloc, files, linker, &order.objects, tell)
}

// The same of the objects. The first is the program, and only its names are checked.
fn tell_loading<F: Files, T: Tell>(
    alloc: Global,
    files: &F,
    linker: &Option<glibc::Kind>,
    objects: &[Object],
    tell: &mut T,
) -> Result<(), Stop>
    ensures { OnOk result ((said : List Said)
        × IfSome (F.known files.now) (λ files.
        said ≡ loading_said files.contents linker.now (map entry_view objects.now))
        × (tell.new ≡ saying T.one tell.old said)) }
{
    let [program, libraries @ ..] = objects else {
        return Ok(());
    };
    tell_problem(objects, program, tell)?;
    tell_each(alloc, files, linker, objects, libraries, tell)?;
    Ok(())
}

// The same of the libraries among the objects.
fn tell_each<F: Files, T: Tell>(
    alloc: Global,
    files: &F,
    linker: &Option<glibc::Kind>,
    objects: &[Object],
    libraries: &[Object],
    tell: &mut T,
) -> Result<(), Stop>
    ensures { OnOk result ((said : List Said)
        × IfSome (F.known files.now) (λ files. said ≡ flat_map
        (object_said files.contents linker.now (map entry_view objects.now)) (map entry_view libraries.now))
        × (tell.new ≡ saying T.one tell.old said)) }
{
    for library in libraries {
        tell_problem(objects, library, tell)?;
        tell_file(alloc, files, linker, library, tell)?;
    }
    Ok(())
}
