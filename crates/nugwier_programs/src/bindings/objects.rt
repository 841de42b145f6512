//! The files of a program as objects of look-ups.
ghost use Rattle.std.specs.Prelude.{◌≡◌, ◌++◌, IfOk, List, OnOk, map};
ghost use Rattle.std.specs.List.{flat_map, zip};
ghost use Rattle.std.specs.Option.{option_map};
ghost use Rattle.elf_libraries.specs.Tree.{entry_of, entry_view};
ghost use Rattle.nugwier_programs.specs.Bindings.{AreEach, AreSearched, IsFileSearched, IsOpening, Opening, Searching};
ghost use Rattle.nugwier_programs.specs.Bindings.{file_in, files_in, files_of, open_problem, search_problem};
ghost use Rattle.nugwier_programs.specs.inner.Scope.{indexed_view, open_view, paired_object, search_fault};
ghost use Rattle.nugwier_programs.specs.inner.Scope.{searched_file, searching_of};
ghost use Rattle.nugwier_programs.specs.declared.bindings.objects.SearchFault.TheVariants.{Object as IsObject};
ghost use Rattle.nugwier_report.specs.Said.{saying};

use crate::bindings::opening::{Linked, load_object};
use crate::faults::Fault;
use crate::tree::FILE;
use elf::endian::AnyEndian;
use elf::gnu_symver::SymbolVersionTable;
use elf::string_table::TerminatedStrings;
use elf::symbol::SymbolTable;
use elf_hash_check::hashcheck::AnyChecked;
use elf_libraries::files::Files;
use elf_libraries::tree::Object;
use elf_linking::VersionedObject;
use elf_linking::bindings::{IndexedObject, with_index};
use elf_linking::dynamic::{dynamic_object, dynamic_symbols};
use elf_linking::resolve::ObjectFault;
use nugwier_report::problem::Stop;
use nugwier_report::quoted::Quoted;
use nugwier_report::tell::Tell;
use std::alloc::{AllocError, Global};

/// A file that was opened, with what is loaded of it.
#[derive(Drop)]
pub(crate) struct OpenFile<'a> {
    pub path: &'a [u8],
    pub file: Linked,
}

/// A file whose symbols are bound.
#[derive(Drop)]
pub(crate) struct BoundFile<'a> {
    pub path: &'a [u8],
    pub file: &'a Linked,
    pub symbols: SymbolTable<'a, AnyEndian>,
    pub strings: TerminatedStrings<'a>,
    pub versions: Option<SymbolVersionTable<'a, AnyEndian>>,
}

/// A file that look-ups search, with its hash table.
pub(crate) type WithTable<'a> = (BoundFile<'a>, AnyChecked<'a, AnyEndian>);

// Why a file cannot be searched.
#[derive(Drop)]
enum SearchFault {
    Object(ObjectFault),
    // It has symbols and no hash section.
    NoHash,
}

impl From<ObjectFault> for SearchFault {
    ghost from_gives = { λ error fault. fault ≡ IsObject error };

    fn from(error: ObjectFault) -> SearchFault {
        SearchFault::Object(error)
    }
}

/// Opens the file of an object, or says that it cannot be read. A missing library has none.
pub(crate) fn open_file<'a, F: Files, T: Tell>(
    alloc: Global,
    files: &F,
    object: &'a Object,
    tell: &mut T,
) -> Result<Option<OpenFile<'a>>, Stop>
    ensures { IfOk result (λ file. (opening : Opening) × IsOpening (F.known files.now) (entry_view object.now) opening
        × (option_map open_view file ≡ file_in opening)
        × (tell.new ≡ saying T.one tell.old (open_problem opening))) }
{
    let Some(loaded) = &object.file else {
        return Ok(None);
    };
    let path = loaded.path.as_slice();
    match load_object(alloc, files, loaded)? {
        Some(Ok(file)) => Ok(Some(OpenFile { path, file })),
        Some(Err(error)) => {
            let fault = ObjectFault::Read(error);
            tell.problem(FILE, &Fault::Object(Quoted::new(path), fault))?;
            Ok(None)
        }
        None => {
            tell.problem(FILE, &Fault::Unread(Quoted::new(path)))?;
            Ok(None)
        }
    }
}

// Adds the file of an object, if it can be opened.
fn add_open<'a, F: Files, T: Tell>(
    alloc: Global,
    files: &F,
    object: &'a Object,
    opened: &mut Vec<OpenFile<'a>>,
    tell: &mut T,
) -> Result<(), Stop>
    ensures { OnOk result ((opening : Opening) × IsOpening (F.known files.now) (entry_view object.now) opening
        × (map open_view opened.new.items ≡ map open_view opened.old.items ++ files_in opening)
        × (tell.new ≡ saying T.one tell.old (open_problem opening))) }
{
    if let Some(file) = open_file(alloc, files, object, tell)? {
        opened.push(file)?;
    }
    Ok(())
}

/// Opens the files of these objects, and says which cannot be read.
pub(crate) fn open_files<'a, F: Files, T: Tell>(
    alloc: Global,
    files: &F,
    objects: &[&'a Object],
    tell: &mut T,
) -> Result<Vec<OpenFile<'a>>, Stop>
    ensures { IfOk result (λ opened. (openings : List Opening)
        × AreEach (IsOpening (F.known files.now)) (map entry_of objects.now) openings
        × (map open_view opened.items ≡ flat_map files_in openings)
        × (tell.new ≡ saying T.one tell.old (flat_map open_problem openings))) }
{
    let mut opened = Vec::new(alloc);
    for object in objects {
        add_open(alloc, files, object, &mut opened, tell)?;
    }
    Ok(opened)
}

// Finds what look-ups search of a file. Returns `None` if it has no dynamic symbols.
fn search<'a>(file: &'a OpenFile<'a>) -> Result<Option<WithTable<'a>>, SearchFault>
    ensures { IsFileSearched (open_view file.now) (searching_of file.now.path.now result) }
{
    let OpenFile { path, file } = file;
    let Some((symbols, strings)) = dynamic_symbols(file)? else {
        return Ok(None);
    };
    let VersionedObject { table, versions } = match dynamic_object(file) {
        Ok(Some(object)) => object,
        Ok(None) => return Err(SearchFault::NoHash),
        Err(fault) => return Err(SearchFault::Object(fault)),
    };
    let bound = BoundFile {
        path,
        file,
        symbols,
        strings: TerminatedStrings::new(&strings),
        versions,
    };
    Ok(Some((bound, table)))
}

/// Adds a file, or says that it cannot be searched. One without dynamic symbols need not be.
pub(crate) fn add_file<'a, T: Tell>(
    file: &'a OpenFile<'a>,
    found: &mut Vec<WithTable<'a>>,
    tell: &mut T,
) -> Result<(), Stop>
    ensures { OnOk result ((searching : Searching) × IsFileSearched (open_view file.now) searching
        × (tell.new ≡ saying T.one tell.old (search_problem searching))
        × (map searched_file found.new.items ≡ map searched_file found.old.items ++ files_of searching)) }
{
    match search(file) {
        Ok(Some(one)) => {
            found.push(one)?;
            Ok(())
        }
        Ok(None) => Ok(()),
        Err(fault) => {
            tell.problem(FILE, &problem_of(file.path, fault))?;
            Ok(())
        }
    }
}

// The problem of the file at a path.
fn problem_of(path: &[u8], fault: SearchFault) -> Fault<'_>
    ensures { result ≡ search_fault path.now fault }
{
    let path = Quoted::new(path);
    match fault {
        SearchFault::Object(fault) => Fault::Object(path, fault),
        SearchFault::NoHash => Fault::NoHash(path),
    }
}

/// Adds these files, and says which cannot be searched.
pub(crate) fn add_files<'a, T: Tell>(
    files: &'a [OpenFile<'a>],
    found: &mut Vec<WithTable<'a>>,
    tell: &mut T,
) -> Result<(), Stop>
    ensures { OnOk result ((all : List Searching) × AreSearched (map open_view files.now) all
        × (tell.new ≡ saying T.one tell.old (flat_map search_problem all))
        × (map searched_file found.new.items ≡ map searched_file found.old.items ++ flat_map files_of all)) }
{
    for file in files {
        add_file(file, found, tell)?;
    }
    Ok(())
}

/// Returns the files and their hash tables, apart.
pub(crate) fn split<'a>(
    alloc: Global,
    found: Vec<WithTable<'a>>,
) -> Result<(Vec<BoundFile<'a>>, Vec<AnyChecked<'a, AnyEndian>>), AllocError>
    ensures files { IfOk result (λ both. both.0.items ≡ map (λ one. one.0) found.entry.items) }
    ensures tables { IfOk result (λ both. both.1.items ≡ map (λ one. one.1) found.entry.items) }
{
    let mut files = Vec::new(alloc);
    let mut tables = Vec::new(alloc);
    for (file, table) in found {
        files.push(file)?;
        tables.push(table)?;
    }
    Ok((files, tables))
}

/// Returns the objects of these files and tables, each with an index of its versions.
pub(crate) fn index_objects<'a, 'data>(
    alloc: Global,
    files: &'a [BoundFile<'data>],
    tables: Vec<AnyChecked<'data, AnyEndian>>,
) -> Result<Vec<IndexedObject<'a, 'data, AnyEndian>>, AllocError>
    ensures { IfOk result (λ objects.
        map indexed_view objects.items ≡ map paired_object (zip files.now tables.entry.items)) }
{
    let mut objects = Vec::new(alloc);
    let mut left = tables.into_iter();
    for file in files {
        let Some(table) = left.next() else {
            return Ok(objects);
        };
        objects.push(with_index(alloc, table, file.versions.as_ref())?)?;
    }
    Ok(objects)
}
