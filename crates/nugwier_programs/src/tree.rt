//! The libraries that a program loads.
#![tactic(auto, using(nugwier_report::proofs::Saying::saying_both, nugwier_report::proofs::Parts::said_parts))]

ghost use Rattle.std.specs.Prelude.{◌≡◌, ◌++◌, ℕ, List, Option, Some, IfOk, IfSome, OnOk, map, slice_get};
ghost use Rattle.std.specs.List.{flat_map};
ghost use Rattle.std.specs.Option.{option_copied, option_map};
ghost use Rattle.std.specs.Vec.{vec_items};
ghost use Rattle.elf_libraries.specs.Cache.{cache_view};
ghost use Rattle.elf_libraries.specs.Folder.{KnownFiles};
ghost use Rattle.elf_libraries.specs.Tree.{Entry, Found, entry_view, file_of, found_view, loader_at};
ghost use Rattle.nugwier_programs.specs.Tree.{AreNamedObjects, AreObjects, IsNamedSaid, IsProgram, IsTreeSaid};
ghost use Rattle.nugwier_programs.specs.Tree.{after_it, at_depth, cache_file, cache_in, search_view};
ghost use Rattle.nugwier_programs.specs.Tree.{first_needed};
ghost use Rattle.nugwier_programs.specs.Tree.{is_needed_by, library_path, listed, listed_said, next_beside};
ghost use Rattle.nugwier_programs.specs.Tree.{order_view};
ghost use Rattle.nugwier_programs.specs.Tree.{object_problem, object_problems, path_at, path_of, path_or_name};
ghost use Rattle.nugwier_programs.specs.inner.Walk.{AreFirsts, listed_view, stack_view, with_first};
ghost use Rattle.nugwier_report.specs.Said.{Said, saying, unread, whole};
ghost use Rattle.nugwier_report.specs.declared.problem.Part.TheVariants.{File};

use crate::faults::{Fault, NamesFault};
use crate::object_rows::ListedObject;
use elf::endian::AnyEndian;
use elf_libraries::cache::{LibraryFlags, LinkerCache};
use elf_libraries::configured::{borrowed, listed_folders};
use elf_libraries::files::Files;
use elf_libraries::named::NamedLibraries;
use elf_libraries::processor::{hwcaps_of, level_for};
use elf_libraries::search::Surroundings;
use elf_libraries::tree::{
    LoadOrder, LoadedFile, Object, OpenError, Opener, load_order, loader_at, object_at,
};
use elf_libraries::usual::{lib_of, platform_of, usual_folders};
use nugwier_report::problem::{Item, Part, Place, Stop};
use nugwier_report::quoted::Quoted;
use nugwier_report::tell::Tell;
use std::alloc::{AllocError, Global};

/// Where libraries are searched for.
#[derive(Debug, Clone, Copy)]
pub struct Search<'a> {
    /// Folders, as if `LD_LIBRARY_PATH` named them.
    pub folders: &'a [&'a str],
    /// Whether the linker's cache counts.
    pub has_cache: bool,
}

/// Says which libraries a program loads, which of them are not found, and which have names that are not known. The path
/// and the data are those of the program. The errors are that of the writer, and a failed allocation.
pub fn tell_tree<F: Files, T: Tell>(
    alloc: Global,
    search: Search<'_>,
    files: &F,
    path: &str,
    data: Vec<u8>,
    tell: &mut T,
) -> Result<(), Stop>
    ensures { OnOk result ((said : List Said)
        × IsTreeSaid (F.known files.now) (search_view search.entry) (file_of path.now «data».items) said
        × (tell.new ≡ saying T.one tell.old said)) }
{
    let Some(program) = open_program(alloc, path, data, tell)? else {
        return Ok(());
    };
    tell_named(alloc, search, files, program.without_bytes(alloc), tell)
}

/// Says the same of a program that was opened by its names alone.
pub fn tell_named<F: Files, T: Tell>(
    alloc: Global,
    search: Search<'_>,
    files: &F,
    program: LoadedFile,
    tell: &mut T,
) -> Result<(), Stop>
    ensures { OnOk result ((said : List Said)
        × IsNamedSaid (F.known files.now) (search_view search.entry) (found_view program) said
        × (tell.new ≡ saying T.one tell.old said)) }
{
    let order = named_objects(alloc, search, files, program)?;
    tell_objects(alloc, &order.objects, tell)?;
    tell_problems(&order.objects, tell)
}

/// Opens a program. Returns `None` if that is not possible, and says why.
pub(crate) fn open_program<T: Tell>(
    alloc: Global,
    path: &str,
    data: Vec<u8>,
    tell: &mut T,
) -> Result<Option<LoadedFile>, Stop>
    ensures program { IfOk result (IsProgram (file_of path.now «data».items)) }
    ensures said { OnOk result (tell.new
        ≡ saying T.one tell.old (unread (whole File) (file_of path.now «data».items))) }
{
    match LoadedFile::open(alloc, Vec::from_slice(alloc, path.as_bytes())?, data) {
        Ok(program) => Ok(Some(program)),
        Err(OpenError::Memory) => Err(Stop::Memory),
        Err(OpenError::Open(error)) => {
            tell.problem(FILE, &error)?;
            Ok(None)
        }
    }
}

/// The file as a whole.
pub const FILE: Place = Place {
    part: Part::File,
    item: Item::Whole,
};

// The path of the linker's cache of libraries.
const CACHE: &[u8] = b"/etc/ld.so.cache";

/// Returns the program with its libraries, by their names alone.
pub(crate) fn named_objects<F: Files>(
    alloc: Global,
    search: Search<'_>,
    files: &F,
    program: LoadedFile,
) -> Result<LoadOrder, AllocError>
    ensures { IfOk result (λ order. AreNamedObjects (F.known files.now) (search_view search.entry) (found_view program)
        (order_view order)) }
{
    let opener = NamedLibraries { files };
    objects_by(alloc, search, files, &opener, program)
}

/// Returns the program with its libraries, which this opens.
pub(crate) fn objects_by<F: Files, O: Opener>(
    alloc: Global,
    search: Search<'_>,
    files: &F,
    opener: &O,
    program: LoadedFile,
) -> Result<LoadOrder, AllocError>
    ensures { IfOk result (λ order. (opened : KnownFiles → List ℕ → Option Found)
        → O.opened opener.now ≡ option_map opened (F.known files.now)
        → AreObjects opened (F.known files.now) (search_view search.entry) (found_view program) (order_view order)) }
{
    let library_path = library_path(alloc, search.folders)?;
    let usual_folders = usual_folders(alloc, program.kind)?;
    let level = level_for(alloc, files, program.kind)?;
    let hwcaps = hwcaps_of(alloc, level)?;
    let file = cache_file(search, files)?;
    let cache = cache_in(program.kind.order, &file);
    let listed = listed_folders(alloc, files, cache.is_some())?;
    let listed_folders = borrowed(alloc, listed.as_slice())?;
    let surroundings = Surroundings {
        library_path: Some(library_path.as_slice()),
        lib: lib_of(program.kind),
        platform: platform_of(program.kind),
        hwcaps: hwcaps.as_slice(),
        cache: cache.as_ref(),
        flags: LibraryFlags::of(program.kind.machine, program.kind.class),
        listed_folders: listed_folders.as_slice(),
        usual_folders: usual_folders.as_slice(),
    };
    load_order(alloc, opener, &surroundings, program)
}

// The content of the linker's cache, if it counts and can be read.
fn cache_file<F: Files>(search: Search<'_>, files: &F) -> Result<Option<Vec<u8>>, AllocError>
    ensures { IfOk result (λ file. IfSome (F.known files.now)
        (λ files. cache_file search.entry.has_cache files.contents ≡ option_map vec_items file)) }
{
    if search.has_cache {
        files.has_libraries();
        files.read_library(CACHE)
    } else {
        Ok(None)
    }
}

// The linker's cache in a file, if there is one that can be read.
fn cache_in(order: AnyEndian, file: &Option<Vec<u8>>) -> Option<LinkerCache<'_>>
    ensures { option_map cache_view result ≡ cache_in order (option_map vec_items file.now) }
{
    match file {
        Some(bytes) => LinkerCache::new(order, bytes.as_slice()).ok(),
        None => None,
    }
}

// The folders as the value of `LD_LIBRARY_PATH`: with colons between them.
fn library_path(alloc: Global, searches: &[&str]) -> Result<Vec<u8>, AllocError>
    ensures { IfOk result (λ path. path.items ≡ library_path (map (λ folder. folder.now) searches.now)) }
{
    let [first, others @ ..] = searches else {
        return Ok(Vec::new(alloc));
    };
    let mut path = Vec::from_slice(alloc, first.as_bytes())?;
    for search in others {
        path.push(b':')?;
        path.extend_from_slice(search.as_bytes())?;
    }
    Ok(path)
}

/// Says of each object that it is missing, or that its names are not known.
pub(crate) fn tell_problems<T: Tell>(objects: &[Object], tell: &mut T) -> Result<(), Stop>
    ensures { OnOk result (tell.new ≡ saying T.one tell.old (object_problems (map entry_view objects.now))) }
{
    for object in objects {
        tell_problem(objects, object, tell)?;
    }
    Ok(())
}

/// Says it of one of the objects.
pub(crate) fn tell_problem<T: Tell>(
    objects: &[Object],
    object: &Object,
    tell: &mut T,
) -> Result<(), Stop>
    ensures { OnOk result (tell.new
        ≡ saying T.one tell.old (object_problem (map entry_view objects.now) (entry_view object.now))) }
{
    let Some(file) = &object.file else {
        let name = Quoted::new(&object.name);
        let loader = Quoted::new(path_at(objects, object.loader));
        return tell.problem(FILE, &Fault::NotFound(name, loader));
    };
    match &file.names {
        Ok(_) => Ok(()),
        Err(error) => {
            let path = Quoted::new(&file.path);
            tell.problem(FILE, &Fault::Names(path, NamesFault::new(error)))
        }
    }
}

// The path of the object at a place, or its name if it was not found.
fn path_at(objects: &[Object], place: usize) -> &[u8]
    ensures { result.now ≡ path_at (map entry_view objects.now) place }
{
    match objects.get(place) {
        Some(object) => path_or_name(object),
        None => &[],
    }
}

fn path_or_name(object: &Object) -> &[u8]
    ensures { result.now ≡ path_or_name (entry_view object.now) }
{
    match &object.file {
        Some(file) => &file.path,
        None => &object.name,
    }
}

// ---- each object below the one that needed it first

// An object that is listed, and the number of its loaders.
#[derive(Clone, Copy)]
struct Listed {
    place: usize,
    depth: usize,
}

fn tell_objects<T: Tell>(alloc: Global, objects: &[Object], tell: &mut T) -> Result<(), Stop>
    ensures { let entries = map entry_view objects.now in
        OnOk result (tell.new ≡ saying T.one tell.old (flat_map (listed_said entries) (listed entries))) }
{
    let firsts = firsts(alloc, objects)?;
    let mut waiting = Vec::new(alloc);
    waiting.push(Listed { place: 0, depth: 0 })?;
    for _ in 0..objects.len() {
        let Some(next) = waiting.pop() else {
            return Ok(());
        };
        tell_listed(objects, next, tell)?;
        add_next(objects, &firsts, next, &mut waiting)?;
    }
    Ok(())
}

// The first object that each one needed first.
fn firsts(alloc: Global, objects: &[Object]) -> Result<Vec<Option<usize>>, AllocError>
    ensures { IfOk result (λ firsts. AreFirsts (map entry_view objects.now) 1 firsts.items) }
{
    let mut firsts = vec![in alloc; None; objects.len()]?;
    let mut place = objects.len();
    while place > 1 {
        place -= 1;
        set_first(&mut firsts, loader_at(objects, place), place);
    }
    Ok(firsts)
}

// Sets the first object that a loader, which there may not be, needed.
fn set_first(firsts: &mut Vec<Option<usize>>, loader: usize, place: usize)
    ensures { firsts.new.items ≡ with_first firsts.old.items loader place }
{
    if loader < firsts.len() {
        firsts[loader] = Some(place);
    }
}

fn first_needed(firsts: &[Option<usize>], place: usize) -> Option<usize>
    ensures { (objects : List Entry) → AreFirsts objects 1 firsts.now → result ≡ first_needed objects place }
{
    if place < firsts.len() {
        firsts[place]
    } else {
        None
    }
}

fn is_needed_by(objects: &[Object], loader: usize, place: usize) -> bool
    ensures { result ≡ is_needed_by loader (slice_get (map entry_view objects.now) place) }
{
    match objects.get(place) {
        Some(object) => object.loader == loader,
        None => false,
    }
}

fn next_beside(objects: &[Object], place: usize) -> Option<usize>
    ensures { result ≡ next_beside (map entry_view objects.now) place }
{
    if place == 0 || place >= objects.len() {
        return None;
    }
    let next = place + 1;
    if is_needed_by(objects, loader_at(objects, place), next) {
        Some(next)
    } else {
        None
    }
}

fn add_next(
    objects: &[Object],
    firsts: &[Option<usize>],
    next: Listed,
    waiting: &mut Vec<Listed>,
) -> Result<(), AllocError>
    ensures { OnOk result (let entries = map entry_view objects.now in AreFirsts entries 1 firsts.now
        → stack_view waiting.new.items ≡ after_it entries (listed_view next) ++ stack_view waiting.old.items) }
{
    // A depth that is no usize needs more objects than a memory has.
    let Some(below) = next.depth.checked_add(1) else {
        return Err(AllocError);
    };
    add_at(next_beside(objects, next.place), next.depth, waiting)?;
    add_at(first_needed(firsts, next.place), below, waiting)
}

fn add_at(place: Option<usize>, depth: usize, waiting: &mut Vec<Listed>) -> Result<(), AllocError>
    ensures { OnOk result (stack_view waiting.new.items ≡ at_depth depth place ++ stack_view waiting.old.items) }
{
    match place {
        Some(place) => {
            waiting.push(Listed { place, depth })?;
            Ok(())
        }
        None => Ok(()),
    }
}

fn tell_listed<T: Tell>(objects: &[Object], next: Listed, tell: &mut T) -> Result<(), Stop>
    ensures { OnOk result (tell.new
        ≡ saying T.one tell.old (listed_said (map entry_view objects.now) (listed_view next))) }
{
    let Some(object) = object_at(objects, next.place) else {
        return Ok(());
    };
    let listed = ListedObject {
        depth: next.depth,
        name: &object.name,
        path: path_of(object),
        loader: path_at(objects, object.loader),
    };
    listed.tell(tell)
}

fn path_of(object: &Object) -> Option<&[u8]>
    ensures { option_copied result ≡ path_of (entry_view object.now).file }
{
    match &object.file {
        Some(file) => Some(&file.path),
        None => None,
    }
}
