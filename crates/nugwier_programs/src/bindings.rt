//! What the symbols of a program and of its libraries bind to.
#![tactic(auto, using(nugwier_report::proofs::Saying::saying_both, nugwier_report::proofs::Parts::said_parts))]

ghost use Rattle.std.specs.Prelude.{◌≡◌, ◌∷◌, ◌++◌, List, OnOk, Some, map};
ghost use Rattle.std.specs.List.{flat_map};
ghost use Rattle.elf_libraries.specs.Tree.{entry_of, entry_view, file_of, found_view, in_order};
ghost use Rattle.nugwier_programs.specs.Bindings.{AreAllFilesSaid, AreObjectsSaid, AreSearched, IsBindingsSaid};
ghost use Rattle.nugwier_programs.specs.Bindings.{IsBoundSaid, IsProgramSaid, SearchedFile, Searching, files_of};
ghost use Rattle.nugwier_programs.specs.Bindings.{search_problem};
ghost use Rattle.nugwier_programs.specs.inner.Scope.{AreInScope, open_view, searched_file};
ghost use Rattle.nugwier_programs.specs.Tree.{order_view, search_view};
ghost use Rattle.nugwier_report.specs.Said.{Said, saying};

mod objects;
mod opening;
mod rows;
mod targets;

use crate::bindings::objects::{
    OpenFile, WithTable, add_file, add_files, index_objects, open_file, open_files, split,
};
use crate::bindings::rows::tell_file;
use crate::bindings::targets::Scope;
use crate::tree::{Search, named_objects, open_program, tell_problems};
use elf_libraries::files::Files;
use elf_libraries::tree::{LoadOrder, LoadedFile, Object, in_order};
use nugwier_report::problem::Stop;
use nugwier_report::tell::Tell;
use std::alloc::Global;

/// Says what the symbols of a program and of its libraries bind to, which libraries are missing or have names that are
/// not known, and what is missing or not known of the symbols. The path and the data are those of the program. The errors
/// are that of the writer, and a failed allocation.
pub fn tell_bindings<F: Files, T: Tell>(
    alloc: Global,
    search: Search<'_>,
    files: &F,
    path: &str,
    data: Vec<u8>,
    tell: &mut T,
) -> Result<(), Stop>
    ensures { OnOk result ((said : List Said)
        × IsBindingsSaid (F.known files.now) (search_view search.entry) (file_of path.now «data».items) said
        × (tell.new ≡ saying T.one tell.old said)) }
{
    let Some(program) = open_program(alloc, path, data, tell)? else {
        return Ok(());
    };
    tell_bound(alloc, search, files, program, tell)
}

/// Says the same of a program that was opened. What look-ups use of one without its bytes is read from its path.
pub fn tell_bound<F: Files, T: Tell>(
    alloc: Global,
    search: Search<'_>,
    files: &F,
    program: LoadedFile,
    tell: &mut T,
) -> Result<(), Stop>
    ensures { OnOk result ((said : List Said)
        × IsBoundSaid (F.known files.now) (search_view search.entry) (found_view program) said
        × (tell.new ≡ saying T.one tell.old said)) }
{
    let order = named_objects(alloc, search, files, program)?;
    tell_problems(&order.objects, tell)?;
    tell_symbols(alloc, files, &order, tell)?;
    Ok(())
}

/// Says what the symbols of the objects bind to.
pub(crate) fn tell_symbols<F: Files, T: Tell>(
    alloc: Global,
    files: &F,
    order: &LoadOrder,
    tell: &mut T,
) -> Result<(), Stop>
    ensures { let view = order_view order.now in OnOk result ((said : List Said)
        × AreObjectsSaid (F.known files.now) (in_order view.0 view.1) said
        × (tell.new ≡ saying T.one tell.old said)) }
{
    let objects = in_order(alloc, order)?;
    tell_objects(alloc, files, &objects, tell)?;
    Ok(())
}

// Says what the symbols of each object bind to. They are in the order in which the dynamic linker searches them: the
// program is first, unless it has filtees.
//
// A library that cannot be searched counts as one that defines nothing. If the program is such an object, nothing else
// is said.
fn tell_objects<F: Files, T: Tell>(
    alloc: Global,
    files: &F,
    objects: &[&Object],
    tell: &mut T,
) -> Result<(), Stop>
    ensures { OnOk result ((said : List Said)
        × AreObjectsSaid (F.known files.now) (map entry_of objects.now) said
        × (tell.new ≡ saying T.one tell.old said)) }
{
    let [program, libraries @ ..] = objects else {
        return Ok(());
    };
    tell_program(alloc, files, program, libraries, tell)?;
    Ok(())
}

// Says it of a program and of its libraries.
fn tell_program<F: Files, T: Tell>(
    alloc: Global,
    files: &F,
    program: &Object,
    libraries: &[&Object],
    tell: &mut T,
) -> Result<(), Stop>
    ensures { OnOk result ((said : List Said)
        × AreObjectsSaid (F.known files.now) (entry_view program.now ∷ map entry_of libraries.now) said
        × (tell.new ≡ saying T.one tell.old said)) }
{
    let Some(program) = open_file(alloc, files, program, tell)? else {
        return Ok(());
    };
    tell_opened(alloc, files, &program, libraries, tell)?;
    Ok(())
}

// Says it of a program that was opened.
fn tell_opened<F: Files, T: Tell>(
    alloc: Global,
    files: &F,
    program: &OpenFile<'_>,
    libraries: &[&Object],
    tell: &mut T,
) -> Result<(), Stop>
    ensures { OnOk result ((said : List Said)
        × IsProgramSaid (F.known files.now) (Some (open_view program.now)) (map entry_of libraries.now) said
        × (tell.new ≡ saying T.one tell.old said)) }
{
    let mut found = Vec::new(alloc);
    add_file(program, &mut found, tell)?;
    if found.is_empty() {
        return Ok(());
    }
    let opened = open_files(alloc, files, libraries, tell)?;
    tell_with(alloc, found, opened.as_slice(), tell)?;
    Ok(())
}

// Says it of the files that were found, and of those of these that can be searched.
fn tell_with<'a, T: Tell>(
    alloc: Global,
    found: Vec<WithTable<'a>>,
    libraries: &'a [OpenFile<'a>],
    tell: &mut T,
) -> Result<(), Stop>
    ensures { OnOk result ((others : List Searching) × AreSearched (map open_view libraries.now) others
        × (files : List Said)
        × AreAllFilesSaid (map searched_file found.entry.items ++ flat_map files_of others) files
        × (tell.new ≡ saying T.one tell.old (flat_map search_problem others ++ files))) }
{
    let mut found = found;
    add_files(libraries, &mut found, tell)?;
    tell_found(alloc, found, tell)?;
    Ok(())
}

// Says it of the files that were found.
fn tell_found<T: Tell>(alloc: Global, found: Vec<WithTable<'_>>, tell: &mut T) -> Result<(), Stop>
    ensures { OnOk result ((said : List Said) × AreAllFilesSaid (map searched_file found.entry.items) said
        × (tell.new ≡ saying T.one tell.old said)) }
{
    let (files, tables) = split(alloc, found)?;
    let objects = index_objects(alloc, files.as_slice(), tables)?;
    let scope = Scope {
        files: files.as_slice(),
        objects: objects.as_slice(),
    };
    tell_files(alloc, scope, tell)?;
    Ok(())
}

// Says it of the files of a scope.
fn tell_files<T: Tell>(
    alloc: Global,
    scope: Scope<'_, '_, '_, '_>,
    tell: &mut T,
) -> Result<(), Stop>
    ensures { OnOk result ((said : List Said) × ((all : List SearchedFile)
        → AreInScope all scope.entry.files.now scope.entry.objects.now → AreAllFilesSaid all said)
        × (tell.new ≡ saying T.one tell.old said)) }
{
    for (place, file) in scope.files.iter().enumerate() {
        tell_file(alloc, scope, place, file, tell)?;
    }
    Ok(())
}
