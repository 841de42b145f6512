//! The files that are told where folders are named: of a folder the ELF files below it.
ghost use Rattle.std.specs.Prelude.{◌≡◌, ◌++◌, IfOk, IfSome, List, OnOk, map, string_bytes};
ghost use Rattle.std.specs.Option.{option_map};
ghost use Rattle.nugwier_commands.specs.Walk.{IsInOrder, IsNextFound, IsOpened, IsStep, file_unless, found_view};
ghost use Rattle.nugwier_commands.specs.Walk.{is_passed, named, place_below, places_of};
ghost use Rattle.elf_libraries.specs.Folder.{Place, place_of};

use crate::formats::is_elf;
use crate::run::{front_in, front_of};
use elf_libraries::files::Files;
use elf_libraries::folder::{Entry, EntryKind};
use std::alloc::{AllocError, Global};
use std::io;
use std::path::Path;

/// What is told: a file, or that a folder, or a name in it, cannot be read.
#[derive(Drop)]
pub(crate) enum Found {
    File(String),
    Unread(String, io::Error),
}

/// The places that a walk has still to visit, the next one last. They are in place of a stack: folders may be as deep
/// as the system lets them.
#[derive(Drop)]
pub(crate) struct Walk {
    alloc: Global,
    places: Vec<Entry>,
}

impl Walk {
    /// A walk over these paths.
    pub(crate) fn new(alloc: Global, paths: &[&str]) -> Result<Walk, AllocError>
        ensures { IfOk result (λ walk. places_of walk ≡ map named paths.now) }
    {
        let mut places = Vec::new(alloc);
        for path in paths {
            places.push(Entry {
                path: String::from_str(alloc, *path)?,
                kind: EntryKind::Folder,
            })?;
        }
        places.reverse();
        Ok(Walk { alloc, places })
    }

    /// Returns what is told next.
    pub(crate) fn next<F: Files>(&mut self, files: &F) -> Result<Option<Found>, AllocError>
        ensures { IfOk result (λ found. IfSome (F.known files.now) (λ files.
            IsNextFound files (places_of self.old) (option_map found_view found) (places_of self.new))) }
    {
        'visits: for _ in 0..u64::MAX {
            let Some(place) = self.places.pop() else {
                return Ok(None);
            };
            if let Some(found) = self.visit(files, place)? {
                return Ok(Some(found));
            }
        }
        Err(AllocError)
    }

    fn visit<F: Files>(&mut self, files: &F, place: Entry) -> Result<Option<Found>, AllocError>
        ensures { IfOk result (λ found. IfSome (F.known files.now) (λ files.
            IsStep files place.kind (string_bytes place.path) (places_of self.old) (option_map found_view found)
            (places_of self.new))) }
    {
        match place.kind {
            EntryKind::File => visit_file(self.alloc, files, place.path),
            EntryKind::Folder => self.open(files, place.path),
            EntryKind::Unnamed => Ok(Some(Found::Unread(place.path, not_text()))),
        }
    }

    // Visits a path that may be that of a folder.
    fn open<F: Files>(&mut self, files: &F, path: String) -> Result<Option<Found>, AllocError>
        ensures { IfOk result (λ found. IfSome (F.known files.now) (λ files.
            IsOpened (files.folders (string_bytes path)) (string_bytes path) (places_of self.old)
            (option_map found_view found) (places_of self.new))) }
    {
        match files.folder(path.as_str()) {
            Ok(Some(names)) => {
                self.enter(path.as_str(), names)?;
                Ok(None)
            }
            Ok(None) => Ok(Some(Found::File(path))),
            Err(error) => match error.kind() {
                io::ErrorKind::OutOfMemory => Err(AllocError),
                _ => Ok(Some(Found::Unread(path, error))),
            },
        }
    }

    // The names of a folder come next, in their order.
    fn enter(&mut self, folder: &str, mut names: Vec<Entry>) -> Result<(), AllocError>
        ensures { OnOk result ((ordered : List Place) × IsInOrder (map place_of names.items) ordered
            × (places_of self.new ≡ map (place_below folder.now) ordered ++ places_of self.old)) }
    {
        order(names.as_mut_slice());
        while let Some(name) = names.pop() {
            self.places.push(below(self.alloc, folder, name)?)?;
        }
        Ok(())
    }
}

fn order(names: &mut [Entry])
    ensures { IsInOrder (map place_of names.old) (map place_of names.new) }
{
    names.sort_unstable_by(|a, b| a.path.cmp(&b.path));
}

// What a name of a folder stands for.
fn below(alloc: Global, folder: &str, name: Entry) -> Result<Entry, AllocError>
    ensures { IfOk result (λ entry. place_of entry ≡ place_below folder.now (place_of name)) }
{
    let path = Path::new(folder).join(alloc, name.path.as_str())?;
    Ok(Entry {
        path: path.into_string(),
        kind: name.kind,
    })
}

// Visits a file below a folder.
fn visit_file<F: Files>(alloc: Global, files: &F, path: String) -> Result<Option<Found>, AllocError>
    ensures { IfOk result (λ found. IfSome (F.known files.now) (λ files. option_map found_view found
        ≡ file_unless (is_passed (files.contents (string_bytes path))) (string_bytes path))) }
{
    if is_passed(alloc, files, path.as_str())? {
        Ok(None)
    } else {
        Ok(Some(Found::File(path)))
    }
}

fn is_passed<F: Files>(alloc: Global, files: &F, path: &str) -> Result<bool, AllocError>
    ensures { IfOk result (λ passed. IfSome (F.known files.now) (λ files. passed ≡ is_passed (files.contents path.now))) }
{
    if let Some(front) = front_of(alloc, path, files) {
        return Ok(!is_elf(front.as_slice()));
    }
    match files.read(path) {
        Ok(data) => Ok(!is_elf(front_in(data.as_slice()))),
        Err(error) => match error.kind() {
            io::ErrorKind::OutOfMemory => Err(AllocError),
            _ => Ok(false),
        },
    }
}

fn not_text() -> io::Error {
    io::Error::new(io::ErrorKind::InvalidFilename, "a name is not UTF-8")
}
