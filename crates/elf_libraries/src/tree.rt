//! The libraries that a program loads, found by its search paths, as the manual page ld.so(8) describes it. Nothing is
//! run.
//!
//! `load_order` returns the objects in the order in which the dynamic linker loads them: the program, then the libraries
//! that it needs, then those that the first of these needs, and so on. Symbols are looked up in the same order, but in the
//! libraries that an object names by `DT_FILTER` or `DT_AUXILIARY`, its filtees, before the object itself.
//!
//! Each library is searched for at the paths of `search::candidates`. The first file there is loaded that is an ELF file of
//! the program's class, byte order and machine; others are skipped, even those at which the dynamic linker stops. Where
//! its section headers cannot be read, a file is read through its segments, as the dynamic linker reads all files. Two
//! paths lead to one file if they are the same, or if the files of the system tell so (`Identity`).
ghost use Rattle.std.specs.Prelude.{◌≡◌, ◌<◌, ◌++◌, ◌∷◌, [], ℕ, List, Some, None, length, map};
ghost use Rattle.std.specs.Prelude.{IfOk, IfSome, Ok, OnOk, position, slice_get, unwrap_or};
ghost use Rattle.std.specs.Option.{option_map};
ghost use Rattle.std.specs.Vec.{vec_items};
ghost use Rattle.std.specs.declared.option.Option.{Option};
ghost use Rattle.elf.specs.ElfBytes.{view};
ghost use Rattle.elf.specs.ObjectFile.{object_file};
ghost use Rattle.elf_reading.specs.Opening.{FileView, headers_of, opened_file};
ghost use Rattle.elf_records.specs.Endian.{any_is_little, any_of_byte};
ghost use Rattle.elf_records.specs.declared.endian.AnyEndian.{AnyEndian};
ghost use Rattle.elf_records.specs.Number.{ok_map};
ghost use Rattle.elf_linking.specs.Needed.{name_bytes, names, names_view};
ghost use Rattle.elf_libraries.specs.Search.{cached_at, candidates_of, joined_path, object_view, others_view, path_view};
ghost use Rattle.elf_libraries.specs.Search.{Others, paths_of, places_view, tokens_in, tokens_view};
ghost use Rattle.std.specs.Option.{option_to_list};
ghost use Rattle.elf_libraries.specs.Tree.{Entry, IsLoadOrder, IsOpened, entry_of, entry_view, file_at, file_of, first_fitting};
ghost use Rattle.elf_libraries.specs.Tree.{Found, fitting, folder_of, found_in, found_view, is_loaded_file, kind_of};
ghost use Rattle.elf_libraries.specs.Tree.{add, done, expanded, if_filtee, in_order, load, load_all, named_by, step, started};
ghost use Rattle.elf_libraries.specs.Tree.{known, last_slash, loader_at, loaders_at, no_names, place_of, places_at, places_in};
ghost use Rattle.elf_libraries.specs.Tree.{names_of as names_of_entry, put_before, with_file, with_libraries, without_bytes};
ghost use Rattle.elf_libraries.specs.Tree.{identity_of, linked_file, program_entry, waits, with_identity};
ghost use Rattle.elf_libraries.specs.Tree.{same_class, same_file, same_kind, same_order, searching, searching_at};
ghost use Rattle.elf_libraries.specs.inner.LoadedNames.{AreNamesOf};
ghost use Rattle.elf_libraries.specs.inner.Loading.{loading_view, named_in};
ghost use Rattle.std.specs.List.{list_any};
ghost use Rattle.std.specs.Str.{bytes_eq};
ghost use Rattle.elf_libraries.specs.declared.tree.OpenError.TheVariants.{Memory as IsMemory};

pub mod memory;
mod names;
pub mod whole;

use crate::search::{
    PATH_MAX, SearchPaths, SearchPlaces, Substitutions, Surroundings, expansion, joined_path,
    places,
};
use elf::endian::AnyEndian;
use elf::file::{Class, FileHeader};
use elf::{ElfBytes, ElfStream, ParseError, StreamSource};
use elf_linking::needed::{Name, Names, NamesError, Role, dynamic_names, read_dynamic_names};
use names::LoadedNames;
use std::alloc::{AllocError, Global};
use thiserror::Error;

/// Files by their paths, from which libraries are loaded.
pub trait Libraries {
    /// The content of the file at each path, if the files are known.
    ghost contents: { Self → Option (List ℕ → Option (List ℕ)) };

    /// Returns the content of the file at a path, or `None` if there is none or it cannot be read. The only error is a
    /// failed allocation.
    fn read_library(&self, path: &[u8]) -> Result<Option<Vec<u8>>, AllocError>
        ensures { IfOk result (λ found. IfSome (contents self.now)
            (λ files. files path.now ≡ option_map vec_items found)) };
}

/// What opens the libraries that a program loads: `whole::WholeLibraries` with all their bytes.
pub trait Opener {
    ghost use Rattle.elf_libraries.specs.Tree.{Found, found_view};

    /// The file that is opened at each path, if the files are known.
    ghost opened: { Self → Option (List ℕ → Option Found) };

    /// Returns the ELF file at a path, or `None` if there is none or it cannot be read. The only error is a failed
    /// allocation.
    fn open_at(&self, alloc: Global, path: Vec<u8>) -> Result<Option<LoadedFile>, AllocError>
        ensures { IfOk result (λ found. IfSome (opened self.now)
            (λ found_at. found_at path.items ≡ option_map found_view found)) };
}

/// What the files that are loaded into one program have in common.
#[derive(Debug, Clone, Copy)]
pub struct Kind {
    pub class: Class,
    pub order: AnyEndian,
    /// The machine, one of `EM_*`.
    pub machine: u16,
}

/// Which file of a system a file is (POSIX, `<sys/stat.h>`): two paths may lead to one file.
#[derive(Debug, Clone, Copy)]
pub struct Identity {
    /// The number of the device, `st_dev`.
    pub device: u64,
    /// The number of the file on the device, `st_ino`.
    pub inode: u64,
}

/// A file that was opened, as a program or a library.
#[derive(Debug, Drop)]
pub struct LoadedFile {
    pub path: Vec<u8>,
    /// Which file it is, if that is known.
    pub identity: Option<Identity>,
    /// Its bytes, if they are kept (`open`), or none (`open_names`).
    pub bytes: Vec<u8>,
    pub kind: Kind,
    /// The names that its dynamic entries give, if it has any, or why they are not available. Without names it needs no
    /// libraries.
    pub names: Result<Option<Names>, NamesError>,
}

/// A program, a library that it loads, or one that is missing.
#[derive(Debug, Drop)]
pub struct Object {
    /// The name by which it was needed first, with the folder of `$ORIGIN` in it. Of the program it is the path.
    pub name: Vec<u8>,
    /// The place of the object that needed it first. Of the program, which is at place 0, it is 0.
    pub loader: usize,
    /// The file that was found for the name, or `None` if the library is missing.
    pub file: Option<LoadedFile>,
}

/// A program with the libraries that it loads.
#[derive(Debug, Drop)]
pub struct LoadOrder {
    /// In the order in which they are loaded, with those that are missing.
    pub objects: Vec<Object>,
    /// Their places in the order in which symbols are looked up in them.
    pub scope: Vec<usize>,
}

// An object in the order of look-ups: its place among the objects, and whether its libraries were loaded.
#[derive(Clone, Copy)]
struct Slot {
    place: usize,
    is_done: bool,
}

// What is loaded so far: the objects with their names, and the slots in the order of look-ups. The libraries of the objects
// before the slot `at` were loaded.
#[derive(Drop)]
struct Loading {
    names: LoadedNames,
    objects: Vec<Object>,
    scope: Vec<Slot>,
    at: usize,
}

/// Why a file is not opened.
#[derive(Debug, Drop, Error)]
pub enum OpenError {
    /// It is no ELF file, with the error of `ElfBytes::minimal_parse`.
    #[error("{0}")]
    Open(ParseError),
    /// An allocation failed.
    #[error("out of memory")]
    Memory,
}

impl From<AllocError> for OpenError {
    ghost from_gives = { λ _ error. error ≡ IsMemory };

    fn from(_error: AllocError) -> OpenError {
        OpenError::Memory
    }
}

fn is_same_class(a: Class, b: Class) -> bool
    ensures { result ≡ same_class a b }
{
    match a {
        Class::ELF32 => matches!(b, Class::ELF32),
        Class::ELF64 => matches!(b, Class::ELF64),
    }
}

fn is_same_order(a: AnyEndian, b: AnyEndian) -> bool
    ensures { result ≡ same_order a b }
{
    match a {
        AnyEndian::Little => matches!(b, AnyEndian::Little),
        AnyEndian::Big => matches!(b, AnyEndian::Big),
    }
}

impl Kind {
    fn of(header: &FileHeader<AnyEndian>) -> Kind
        ensures { result ≡ kind_of header.now }
    {
        Kind {
            class: header.class,
            order: header.endianness,
            machine: header.e_machine,
        }
    }

    fn is_same(&self, other: &Kind) -> bool
        ensures { result ≡ same_kind self.now other.now }
    {
        is_same_class(self.class, other.class)
            && is_same_order(self.order, other.order)
            && self.machine == other.machine
    }
}

// The names of a file, or why they are not available. The outer error is a failed allocation.
fn names_of(
    alloc: Global,
    file: &ElfBytes<'_, AnyEndian>,
) -> Result<Result<Option<Names>, NamesError>, AllocError>
    ensures { IfOk result (λ read.
        ok_map (option_map names_view) read ≡ names (object_file any_is_little (view file.now))) }
{
    match dynamic_names(alloc, file) {
        Ok(names) => Ok(Ok(names)),
        Err(NamesError::Memory) => Err(AllocError),
        Err(error) => Ok(Err(error)),
    }
}

// The file that bytes are, through its segments if its section headers cannot be read.
fn open_bytes(bytes: &[u8]) -> Result<ElfBytes<'_, AnyEndian>, ParseError>
    ensures { ok_map view result ≡ linked_file bytes.now }
{
    match ElfBytes::<AnyEndian>::minimal_parse(bytes) {
        Ok(file) => Ok(file),
        Err(error) => match ElfBytes::<AnyEndian>::parse_by_segments(bytes) {
            Ok(file) => Ok(file),
            Err(_) => Err(error),
        },
    }
}

/// Returns the place of the last slash of a path, if it has one.
pub fn last_slash(path: &[u8]) -> Option<usize>
    ensures { result ≡ last_slash 0 None path.now }
{
    let mut last = None;
    for (place, byte) in path.iter().enumerate() {
        if *byte == b'/' {
            last = Some(place);
        }
    }
    last
}

/// Returns the folder that a path names a file in: what is before its last slash, or `.` if it has none.
pub fn folder_of(path: &[u8]) -> &[u8]
    ensures { result.now ≡ folder_of path.now }
{
    match last_slash(path) {
        Some(0) => b"/",
        Some(place) => path.get(..place).unwrap_or(path),
        None => b".",
    }
}

// The bytes of a name that there may not be.
fn bytes_if<'a>(names: &'a Names, name: &Option<Name>) -> Option<&'a [u8]>
    ensures { path_view result ≡ option_map (name_bytes names.now.strings.items) name.now }
{
    match name {
        Some(name) => Some(names.bytes(name)),
        None => None,
    }
}

impl LoadedFile {
    /// Returns the file that the bytes at a path are, through its segments if its section headers cannot be read. The
    /// errors are `Open` and `Memory`. That its names are not available is no error.
    pub fn open(alloc: Global, path: Vec<u8>, bytes: Vec<u8>) -> Result<LoadedFile, OpenError>
        ensures { IsOpened path.items bytes.items result }
    {
        let file = match open_bytes(&bytes) {
            Ok(file) => file,
            Err(error) => return Err(OpenError::Open(error)),
        };
        let kind = Kind::of(&file.ehdr);
        let names = names_of(alloc, &file)?;
        Ok(LoadedFile {
            path,
            identity: None,
            bytes,
            kind,
            names,
        })
    }

    /// Opens the file of a source at a path, and reads of it no more than its headers and its names. The result has no
    /// bytes. Returns `None` if the source or an allocation failed, if it is no ELF file, or if its names are not
    /// available; the whole file tells which.
    pub fn open_names<S: StreamSource>(alloc: Global, path: &[u8], source: S) -> Option<LoadedFile>
        ensures { IfSome result (λ file. IfSome (S.content source)
            (λ bytes. ok_map without_bytes (file_of path.now bytes) ≡ Ok (found_view file))) }
    {
        match ElfStream::<AnyEndian, S, Global>::open_stream(alloc, source) {
            Ok(mut stream) => LoadedFile::of_stream(alloc, path, &mut stream),
            Err(_) => None,
        }
    }

    // The same of a stream.
    fn of_stream<S: StreamSource>(
        alloc: Global,
        path: &[u8],
        stream: &mut ElfStream<AnyEndian, S, Global>,
    ) -> Option<LoadedFile>
        ensures { IfSome result (λ file. IfSome stream.old.content (λ bytes. (v : FileView AnyEndian)
            → opened_file any_is_little any_of_byte bytes ≡ Ok v → stream.old.headers ≡ headers_of v
            → without_bytes (found_in path.now bytes v) ≡ found_view file)) }
    {
        let kind = Kind::of(&stream.ehdr);
        let Ok(names) = read_dynamic_names(alloc, stream) else {
            return None;
        };
        let Ok(path) = Vec::from_slice(alloc, path) else {
            return None;
        };
        Some(LoadedFile {
            path,
            identity: None,
            bytes: Vec::new(alloc),
            kind,
            names: Ok(names),
        })
    }

    /// The same file without its bytes.
    pub fn without_bytes(self, alloc: Global) -> LoadedFile
        ensures { found_view result ≡ without_bytes (found_view self) }
    {
        LoadedFile {
            path: self.path,
            identity: self.identity,
            bytes: Vec::new(alloc),
            kind: self.kind,
            names: self.names,
        }
    }

    /// The same file with this identity.
    pub fn with_identity(self, identity: Option<Identity>) -> LoadedFile
        ensures { found_view result ≡ with_identity identity (found_view self) }
    {
        LoadedFile {
            path: self.path,
            identity,
            bytes: self.bytes,
            kind: self.kind,
            names: self.names,
        }
    }

    /// The soname, if it is known.
    pub fn soname(&self) -> Option<&[u8]>
        ensures { path_view result ≡ (known (found_view self.now).names).soname }
    {
        match self.known_names() {
            Some(names) => bytes_if(names, &names.soname),
            None => None,
        }
    }

    fn known_names(&self) -> Option<&Names>
        ensures { known (found_view self.now).names
            ≡ unwrap_or (option_map (λ names. names_view names.now) result) no_names }
    {
        match &self.names {
            Ok(Some(names)) => Some(names),
            _ => None,
        }
    }

    /// The search paths, with the folder of the file's path.
    pub fn search_paths(&self) -> SearchPaths<'_>
        ensures { object_view result ≡ searching (Some (found_view self.now)) }
    {
        let folder = folder_of(&self.path);
        match self.known_names() {
            Some(names) => SearchPaths {
                folder,
                runpath: bytes_if(names, &names.runpath),
                rpath: bytes_if(names, &names.rpath),
                nodeflib: names.nodeflib,
            },
            None => SearchPaths {
                folder,
                runpath: None,
                rpath: None,
                nodeflib: false,
            },
        }
    }
}

impl Object {
    fn program(alloc: Global, file: LoadedFile) -> Result<Object, AllocError>
        ensures { IfOk result (λ object. entry_view object ≡ program_entry (found_view file)) }
    {
        Ok(Object {
            name: Vec::from_slice(alloc, &file.path)?,
            loader: 0,
            file: Some(file),
        })
    }
}

// The file of the object at a place, if it has one.
fn file_at(objects: &[Object], place: usize) -> Option<&LoadedFile>
    ensures { option_map (λ file. found_view file.now) result ≡ file_at (map entry_view objects.now) place }
{
    match objects.get(place) {
        Some(object) => object.file.as_ref(),
        None => None,
    }
}

/// Returns the place of the loader of the object at a place, or 0 if there is no object.
pub fn loader_at(objects: &[Object], place: usize) -> usize
    ensures { result ≡ loader_at (map entry_view objects.now) place }
{
    match objects.get(place) {
        Some(object) => object.loader,
        None => 0,
    }
}

// The search paths of the object at a place.
fn searching_at(objects: &[Object], place: usize) -> SearchPaths<'_>
    ensures { object_view result ≡ searching_at (map entry_view objects.now) place }
{
    match file_at(objects, place) {
        Some(file) => file.search_paths(),
        None => SearchPaths {
            folder: &[],
            runpath: None,
            rpath: None,
            nodeflib: false,
        },
    }
}

// Those of the loaders of the object at a place. Each loader is before the object, so no more than `place` are asked for.
fn loaders_at(
    alloc: Global,
    objects: &[Object],
    place: usize,
) -> Result<Vec<SearchPaths<'_>>, AllocError>
    ensures { IfOk result (λ loaders.
        map object_view loaders.items ≡ loaders_at (map entry_view objects.now) place) }
{
    let mut loaders = Vec::new(alloc);
    let mut at = place;
    let mut left = place;
    while left > 0 {
        if at == 0 {
            return Ok(loaders);
        }
        at = loader_at(objects, at);
        loaders.push(searching_at(objects, at))?;
        left -= 1;
    }
    Ok(loaders)
}

// Where the libraries of the object at a place are searched for.
fn places_at<'a>(
    alloc: Global,
    surroundings: &Surroundings<'a>,
    objects: &[Object],
    place: usize,
) -> Result<SearchPlaces<'a>, AllocError>
    ensures { IfOk result (λ found. places_view found
        ≡ places_at (others_view surroundings.now) (map entry_view objects.now) place) }
{
    let object = searching_at(objects, place);
    let loaders = loaders_at(alloc, objects, place)?;
    places(alloc, &object, &loaders, surroundings)
}

// The file at a path, if there is one that can be loaded beside those of a kind.
fn fitting<O: Opener>(
    alloc: Global,
    opener: &O,
    kind: Kind,
    path: Vec<u8>,
) -> Result<Option<LoadedFile>, AllocError>
    ensures { IfOk result (λ found. (opened : List ℕ → Option Found) → O.opened opener.now ≡ Some opened
        → option_map found_view found ≡ fitting kind (opened path.items)) }
{
    match opener.open_at(alloc, path)? {
        Some(file) => {
            if file.kind.is_same(&kind) {
                Ok(Some(file))
            } else {
                Ok(None)
            }
        }
        None => Ok(None),
    }
}

// The first such file of a name in these folders.
fn first_in<O: Opener>(
    alloc: Global,
    opener: &O,
    kind: Kind,
    folders: &[Vec<u8>],
    name: &[u8],
) -> Result<Option<LoadedFile>, AllocError>
    ensures { IfOk result (λ found. (opened : List ℕ → Option Found) → O.opened opener.now ≡ Some opened
        → option_map found_view found
        ≡ first_fitting opened kind (map (joined_path name.now) (map vec_items folders.now))) }
{
    for folder in folders {
        let path = joined_path(alloc, folder, name)?;
        let found = fitting(alloc, opener, kind, path)?;
        if found.is_some() {
            return Ok(found);
        }
    }
    Ok(None)
}

// The file at the path that the cache has for a name, or else the first in the usual folders.
fn cached_or_usual<O: Opener>(
    alloc: Global,
    opener: &O,
    kind: Kind,
    places: &SearchPlaces<'_>,
    name: &[u8],
) -> Result<Option<LoadedFile>, AllocError>
    ensures { IfOk result (λ found. (opened : List ℕ → Option Found) → O.opened opener.now ≡ Some opened
        → option_map found_view found ≡ first_fitting opened kind
        (option_to_list (cached_at (places_view places.now) name.now)
        ++ map (joined_path name.now) (places_view places.now).usual)) }
{
    if let Some(path) = places.cached(name) {
        let found = fitting(alloc, opener, kind, Vec::from_slice(alloc, path)?)?;
        if found.is_some() {
            return Ok(found);
        }
    }
    first_in(alloc, opener, kind, &places.usual, name)
}

// The first file of a name without a slash.
fn first_at<O: Opener>(
    alloc: Global,
    opener: &O,
    kind: Kind,
    places: &SearchPlaces<'_>,
    name: &[u8],
) -> Result<Option<LoadedFile>, AllocError>
    ensures { IfOk result (λ found. (opened : List ℕ → Option Found) → O.opened opener.now ≡ Some opened
        → option_map found_view found ≡ first_fitting opened kind (paths_of name.now (places_view places.now))) }
{
    let found = first_in(alloc, opener, kind, &places.folders, name)?;
    if found.is_some() {
        return Ok(found);
    }
    cached_or_usual(alloc, opener, kind, places, name)
}

// The file of a library that is needed by a name.
fn find<O: Opener>(
    alloc: Global,
    opener: &O,
    kind: Kind,
    places: &SearchPlaces<'_>,
    name: &[u8],
) -> Result<Option<LoadedFile>, AllocError>
    ensures { IfOk result (λ found. (opened : List ℕ → Option Found) → O.opened opener.now ≡ Some opened
        → option_map found_view found
        ≡ first_fitting opened kind (candidates_of name.now (places_view places.now))) }
{
    if name.contains(&b'/') {
        let path = Vec::from_slice(alloc, name)?;
        return fitting(alloc, opener, kind, path);
    }
    if name.len() >= PATH_MAX {
        return Ok(None);
    }
    first_at(alloc, opener, kind, places, name)
}

// Whether the file is an object already.
fn is_loaded_file(names: &LoadedNames, file: &Option<LoadedFile>) -> bool
    ensures { (objects : List Entry) → AreNamesOf names.now objects
        → result ≡ is_loaded_file (option_map found_view file.now) objects }
{
    match file {
        Some(file) => names.has(&file.path, file.identity),
        None => false,
    }
}

// Whether the object has the name.
fn has_name(object: &Object, name: &[u8]) -> bool
    ensures { result ≡ list_any (bytes_eq name.now) (names_of_entry (entry_view object.now)) }
{
    let Some(file) = &object.file else {
        return false;
    };
    if name == object.name.as_slice() || name == file.path.as_slice() {
        return true;
    }
    match file.soname() {
        Some(soname) => name == soname,
        None => false,
    }
}

fn is_same_file(a: Option<Identity>, b: Option<Identity>) -> bool
    ensures { result ≡ same_file a b }
{
    match (a, b) {
        (Some(a), Some(b)) => a.device == b.device && a.inode == b.inode,
        _ => false,
    }
}

fn identity_of(file: &Option<LoadedFile>) -> Option<Identity>
    ensures { result ≡ identity_of (option_map found_view file.now) }
{
    match file {
        Some(file) => file.identity,
        None => None,
    }
}

// The place of the first object that has the name, or is the file.
fn place_of(objects: &[Object], name: &[u8], identity: Option<Identity>) -> Option<usize>
    ensures { result ≡ place_of 0 name.now identity (map entry_view objects.now) }
{
    for (place, object) in objects.iter().enumerate() {
        if has_name(object, name) || is_same_file(identity, identity_of(&object.file)) {
            return Some(place);
        }
    }
    None
}

// How many slots are before the one of an object whose libraries were not loaded.
fn distance(slots: &[Slot], place: usize) -> Option<usize>
    ensures { result ≡ position (waits place) slots.now }
{
    slots
        .iter()
        .position(|slot| slot.place == place && !slot.is_done)
}

// The names that the object at a place gives, with the folder that it is in; copies, so that objects can be added.
fn names_at(
    alloc: Global,
    objects: &[Object],
    place: usize,
) -> Result<Option<(Vec<u8>, Names)>, AllocError>
    ensures { IfOk result (λ named. (others : Others)
        → named_in others named ≡ named_by others (file_at (map entry_view objects.now) place)) }
{
    let Some(file) = file_at(objects, place) else {
        return Ok(None);
    };
    let Some(names) = file.known_names() else {
        return Ok(None);
    };
    let folder = Vec::from_slice(alloc, folder_of(&file.path))?;
    Ok(Some((folder, names.copied(alloc)?)))
}

// What the search for the libraries of an object needs: where to search, and the place of the object.
#[derive(Clone, Copy)]
struct Naming<'a, 'b, O> {
    opener: &'a O,
    kind: Kind,
    places: &'b SearchPlaces<'b>,
    place: usize,
}

impl Loading {
    fn new(alloc: Global, program: LoadedFile) -> Result<Loading, AllocError>
        ensures names { IfOk result (λ s. AreNamesOf s.names (map entry_view s.objects.items)) }
        ensures view { IfOk result (λ s. loading_view s ≡ started (program_entry (found_view program))) }
    {
        let first = Object::program(alloc, program)?;
        let mut names = LoadedNames::new(alloc);
        let mut objects = Vec::new(alloc);
        let mut scope = Vec::new(alloc);
        names.add_object(alloc, &first)?;
        objects.push(first)?;
        scope.push(Slot {
            place: 0,
            is_done: false,
        })?;
        Ok(Loading {
            names,
            objects,
            scope,
            at: 0,
        })
    }

    // The libraries of the object at a place, which has the slot `at`, were loaded.
    fn set_done(&mut self, place: usize)
        ensures names { self.new.names ≡ self.old.names }
        ensures objects { self.new.objects ≡ self.old.objects }
        ensures view { loading_view self.new ≡ done place (loading_view self.old) }
    {
        if self.at < self.scope.len() {
            self.scope[self.at] = Slot {
                place,
                is_done: true,
            };
        }
    }

    // Adds an object, if its file is none already.
    fn add(
        &mut self,
        alloc: Global,
        name: Vec<u8>,
        loader: usize,
        file: Option<LoadedFile>,
    ) -> Result<(), AllocError>
        requires { AreNamesOf self.old.names (map entry_view self.old.objects.items) }
        ensures names { OnOk result (AreNamesOf self.new.names (map entry_view self.new.objects.items)) }
        ensures view { OnOk result (loading_view self.new
            ≡ add name.items loader (option_map found_view file) (loading_view self.old)) }
    {
        if is_loaded_file(&self.names, &file) {
            return Ok(());
        }
        let place = self.objects.len();
        let object = Object { name, loader, file };
        self.names.add_object(alloc, &object)?;
        self.objects.push(object)?;
        self.scope.push(Slot {
            place,
            is_done: false,
        })?;
        Ok(())
    }

    // Puts the object at a place before the slot `at`, if it comes later and its libraries were not loaded.
    fn put_before(&mut self, place: Option<usize>) -> Result<(), AllocError>
        ensures names { self.new.names ≡ self.old.names }
        ensures objects { self.new.objects ≡ self.old.objects }
        ensures view { OnOk result (loading_view self.new ≡ put_before place (loading_view self.old)) }
    {
        let Some(place) = place else {
            return Ok(());
        };
        let next = self.at.saturating_add(1);
        let Some(later) = self.scope.get(next..) else {
            return Ok(());
        };
        let Some(distance) = distance(later, place) else {
            return Ok(());
        };
        self.scope.remove(next + distance);
        self.scope.insert(
            self.at,
            Slot {
                place,
                is_done: false,
            },
        )?;
        self.at += 1;
        Ok(())
    }

    // The same of the object with this name, or which is this file, if it is a filtee.
    fn if_filtee(
        &mut self,
        role: Role,
        name: &[u8],
        identity: Option<Identity>,
    ) -> Result<(), AllocError>
        ensures names { self.new.names ≡ self.old.names }
        ensures objects { self.new.objects ≡ self.old.objects }
        ensures view { OnOk result (loading_view self.new
            ≡ if_filtee role name.now identity (loading_view self.old)) }
    {
        match role {
            Role::Needed => Ok(()),
            Role::Auxiliary | Role::Filter => {
                let place = place_of(&self.objects, name, identity);
                self.put_before(place)
            }
        }
    }

    // Adds the library that an object names, with its file, or missing.
    fn with_file(
        &mut self,
        alloc: Global,
        role: Role,
        name: Vec<u8>,
        loader: usize,
        file: Option<LoadedFile>,
    ) -> Result<(), AllocError>
        requires { AreNamesOf self.old.names (map entry_view self.old.objects.items) }
        ensures names { OnOk result (AreNamesOf self.new.names (map entry_view self.new.objects.items)) }
        ensures view { OnOk result (loading_view self.new
            ≡ with_file role name.items loader (option_map found_view file) (loading_view self.old)) }
    {
        match file {
            Some(file) => {
                let path = Vec::from_slice(alloc, &file.path)?;
                let identity = file.identity;
                self.add(alloc, name, loader, Some(file))?;
                self.if_filtee(role, &path, identity)
            }
            None => match role {
                Role::Needed | Role::Filter => self.add(alloc, name, loader, None),
                Role::Auxiliary => Ok(()),
            },
        }
    }

    // Loads a library that an object names.
    fn load<O: Opener>(
        &mut self,
        alloc: Global,
        naming: &Naming<'_, '_, O>,
        role: Role,
        name: Vec<u8>,
    ) -> Result<(), AllocError>
        requires { AreNamesOf self.old.names (map entry_view self.old.objects.items) }
        ensures names { OnOk result (AreNamesOf self.new.names (map entry_view self.new.objects.items)) }
        ensures view { OnOk result ((opened : List ℕ → Option Found) → O.opened naming.now.opener.now ≡ Some opened
            → loading_view self.new ≡ load opened naming.now.kind (places_view naming.now.places.now) naming.now.place
            (loading_view self.old) (record { role = role; name = name.items })) }
    {
        if self.names.has(&name, None) {
            return self.if_filtee(role, &name, None);
        }
        let file = find(alloc, naming.opener, naming.kind, naming.places, &name)?;
        self.with_file(alloc, role, name, naming.place, file)
    }

    // Loads all libraries of these names.
    fn load_all<O: Opener>(
        &mut self,
        alloc: Global,
        naming: &Naming<'_, '_, O>,
        substitutions: &Substitutions<'_>,
        names: &Names,
    ) -> Result<(), AllocError>
        requires { AreNamesOf self.old.names (map entry_view self.old.objects.items) }
        ensures names { OnOk result (AreNamesOf self.new.names (map entry_view self.new.objects.items)) }
        ensures view { OnOk result ((opened : List ℕ → Option Found) → O.opened naming.now.opener.now ≡ Some opened
            → loading_view self.new ≡ load_all opened naming.now.kind (places_view naming.now.places.now)
            naming.now.place (loading_view self.old)
            (map (expanded (tokens_view substitutions.now)) (names_view names.now).libraries)) }
    {
        for library in &names.libraries {
            let name = expansion(alloc, substitutions, names.bytes(&library.name))?;
            self.load(alloc, naming, library.role, name)?;
        }
        Ok(())
    }

    // The same of an object in a folder.
    fn load_from<O: Opener>(
        &mut self,
        alloc: Global,
        naming: &Naming<'_, '_, O>,
        surroundings: &Surroundings<'_>,
        folder: &[u8],
        names: &Names,
    ) -> Result<(), AllocError>
        requires { AreNamesOf self.old.names (map entry_view self.old.objects.items) }
        ensures names { OnOk result (AreNamesOf self.new.names (map entry_view self.new.objects.items)) }
        ensures view { OnOk result ((opened : List ℕ → Option Found) → O.opened naming.now.opener.now ≡ Some opened
            → loading_view self.new ≡ load_all opened naming.now.kind (places_view naming.now.places.now)
            naming.now.place (loading_view self.old)
            (map (expanded (tokens_in (others_view surroundings.now) folder.now)) (names_view names.now).libraries)) }
    {
        let substitutions = surroundings.substitutions(folder);
        self.load_all(alloc, naming, &substitutions, names)
    }

    // Loads the libraries that the object at a place names, which has the slot `at`.
    fn with_libraries<O: Opener>(
        &mut self,
        alloc: Global,
        opener: &O,
        surroundings: &Surroundings<'_>,
        kind: Kind,
        place: usize,
    ) -> Result<(), AllocError>
        requires { AreNamesOf self.old.names (map entry_view self.old.objects.items) }
        ensures names { OnOk result (AreNamesOf self.new.names (map entry_view self.new.objects.items)) }
        ensures view { OnOk result ((opened : List ℕ → Option Found) → O.opened opener.now ≡ Some opened
            → loading_view self.new
            ≡ with_libraries opened kind (others_view surroundings.now) (loading_view self.old) place) }
    {
        let at = self.at;
        let places = places_at(alloc, surroundings, &self.objects, place)?;
        let named = names_at(alloc, &self.objects, place)?;
        self.set_done(place);
        if let Some((folder, names)) = named {
            let naming = Naming {
                opener,
                kind,
                places: &places,
                place,
            };
            self.load_from(alloc, &naming, surroundings, &folder, &names)?;
        }
        self.at = at;
        Ok(())
    }

    // Loads the libraries of the object in the slot `at`, or goes on to the next slot.
    fn step<O: Opener>(
        &mut self,
        alloc: Global,
        opener: &O,
        surroundings: &Surroundings<'_>,
        kind: Kind,
    ) -> Result<(), AllocError>
        requires { AreNamesOf self.old.names (map entry_view self.old.objects.items) }
        ensures names { OnOk result (AreNamesOf self.new.names (map entry_view self.new.objects.items)) }
        ensures view { OnOk result ((opened : List ℕ → Option Found) → O.opened opener.now ≡ Some opened
            → loading_view self.new ≡ step opened kind (others_view surroundings.now) (loading_view self.old)) }
    {
        if self.at >= self.scope.len() {
            return Ok(());
        }
        let slot = self.scope[self.at];
        if slot.is_done {
            self.at += 1;
            return Ok(());
        }
        self.with_libraries(alloc, opener, surroundings, kind, slot.place)
    }

    // The places in the order of look-ups.
    fn places(&self, alloc: Global) -> Result<Vec<usize>, AllocError>
        ensures { IfOk result (λ places. places.items ≡ places_in self.now.scope.items) }
    {
        let mut places = Vec::new(alloc);
        for slot in &self.scope {
            places.push(slot.place)?;
        }
        Ok(places)
    }
}

/// Returns a program and the libraries that it loads, in the order in which they are loaded, each missing one in the
/// place in which it was needed, and the order in which symbols are looked up in them. `surroundings` has what
/// belongs to no object. The only error is a failed allocation.
///
/// A missing library is listed once for each object that needs it, as often as the object names it, since each has search
/// paths of its own; a missing filtee is, if it is one of `DT_FILTER`. No file is loaded twice that is known to be one. So there
/// are at most as many objects as the files that can be read have paths, and as the entries `DT_NEEDED`, `DT_FILTER` and
/// `DT_AUXILIARY` in these. For an entry at most one file is read in each folder and each of its subfolders of
/// `glibc-hwcaps`, and one that the cache lists, and none if the library is loaded already.
pub fn load_order<O: Opener>(
    alloc: Global,
    opener: &O,
    surroundings: &Surroundings<'_>,
    program: LoadedFile,
) -> Result<LoadOrder, AllocError>
    ensures { IfOk result (λ order. IfSome (O.opened opener.now) (λ opened.
        IsLoadOrder opened (others_view surroundings.now) (found_view program) (map entry_view order.objects.items)
        order.scope.items)) }
{
    let kind = program.kind;
    let mut loading = Loading::new(alloc, program)?;
    // Each step is for a slot, and there are never that many.
    'steps: for step in 0..u64::MAX {
        if loading.at >= loading.scope.len() {
            let scope = loading.places(alloc)?;
            return Ok(LoadOrder {
                objects: loading.objects,
                scope,
            });
        }
        loading.step(alloc, opener, surroundings, kind)?;
    }
    Err(AllocError)
}

/// Returns the object at a place, if there is one.
pub fn object_at(objects: &[Object], place: usize) -> Option<&Object>
    ensures { option_map entry_of result ≡ slice_get (map entry_view objects.now) place }
{
    objects.get(place)
}

// Adds an object that there may not be.
fn add_if<'a>(object: Option<&'a Object>, objects: &mut Vec<&'a Object>) -> Result<(), AllocError>
    ensures { OnOk result (map entry_of objects.new.items
        ≡ map entry_of objects.old.items ++ option_to_list (option_map entry_of object.entry)) }
{
    if let Some(object) = object {
        objects.push(object)?;
    }
    Ok(())
}

/// Returns the objects in the order in which symbols are looked up in them. The only error is a failed allocation.
pub fn in_order<'a>(alloc: Global, order: &'a LoadOrder) -> Result<Vec<&'a Object>, AllocError>
    ensures { IfOk result (λ objects. map entry_of objects.items
        ≡ in_order (map entry_view order.now.objects.items) order.now.scope.items) }
{
    let mut objects = Vec::new(alloc);
    for place in &order.scope {
        add_if(object_at(&order.objects, *place), &mut objects)?;
    }
    Ok(objects)
}
