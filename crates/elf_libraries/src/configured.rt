//! The folders of `/etc/ld.so.conf`, from which `ldconfig` makes the linker's cache (the manual page ldconfig(8)). They
//! count in place of a cache.
ghost use Rattle.std.specs.Prelude.{◌≡◌, ◌++◌, ◌∷◌, [], codes, ◌&&◌, IfOk, IfSome, OnOk, map, not, unwrap_or};
ghost use Rattle.std.specs.Vec.{vec_items};
ghost use Rattle.elf_libraries.specs.Conf.{line_view};
ghost use Rattle.elf_libraries.specs.Search.{folders_view};
ghost use Rattle.elf_libraries.specs.Folder.{place_of};
ghost use Rattle.elf_libraries.specs.Configured.{AreConfigured, AreListed, AreMatched, IsInOrder, IsStep, beside};
ghost use Rattle.elf_libraries.specs.Configured.{file, is_file, is_passed, lists_of};
ghost use Rattle.elf_libraries.specs.Configured.{name_in, names_matched, pattern_in, pending_in, pending_of};
ghost use Rattle.elf_libraries.specs.Configured.{pending_view, places_at, places_in, with_folder, with_read};
ghost use Rattle.elf_libraries.specs.Patterns.{is_match};

use crate::conf::{ConfLine, conf_lines};
use crate::files::Files;
use crate::folder::{Entry, EntryKind};
use crate::paths::Paths;
use crate::patterns::{is_match, is_pattern};
use crate::tree::{folder_of, last_slash};
use elf_records::slices::{first_of, rest_of};
use std::alloc::{AllocError, Global};
use std::io;
use std::str::from_utf8;

// The path of the configuration, and how many of its files are read.
const CONFIGURATION: &[u8] = b"/etc/ld.so.conf";

const MOST_FILES: usize = 1000;

/// What is still to be read or listed.
#[derive(Drop)]
pub(crate) enum Pending {
    /// A folder of libraries.
    Folder(Vec<u8>),
    /// A file of configuration.
    File(Vec<u8>),
    /// The files that a pattern matches.
    Matching(Vec<u8>),
}

/// What is still to be read or listed, the next one last, the files that were read, and the folders.
#[derive(Drop)]
pub(crate) struct Listing {
    pending: Vec<Pending>,
    read: Paths,
    folders: Paths,
}

// The last name of a path.
fn name_in(path: &[u8]) -> &[u8]
    ensures { result.now ≡ name_in path.now }
{
    match last_slash(path) {
        Some(slash) => rest_of(1, rest_of(slash, path)),
        None => path,
    }
}

// The path of a name in the folder of a path.
fn beside(alloc: Global, path: &[u8], name: &[u8]) -> Result<Vec<u8>, AllocError>
    ensures { IfOk result (λ found. found.items ≡ beside path.now name.now) }
{
    let mut found = Vec::new(alloc);
    if let Some(slash) = last_slash(path) {
        found.extend_from_slice(first_of(slash, path))?;
        found.push(b'/')?;
    }
    found.extend_from_slice(name)?;
    Ok(found)
}

fn pattern_in(alloc: Global, path: &[u8], pattern: &[u8]) -> Result<Vec<u8>, AllocError>
    ensures { IfOk result (λ found. found.items ≡ pattern_in path.now pattern.now) }
{
    if pattern.starts_with(b"/") {
        Vec::from_slice(alloc, pattern)
    } else {
        beside(alloc, path, pattern)
    }
}

// What a line of a file names.
fn pending_of(alloc: Global, path: &[u8], line: ConfLine<'_>) -> Result<Pending, AllocError>
    ensures { IfOk result (λ pending. pending_view pending ≡ pending_of path.now (line_view line.entry)) }
{
    match line {
        ConfLine::Folder(folder) => Ok(Pending::Folder(Vec::from_slice(alloc, folder)?)),
        ConfLine::Include(pattern) => { Ok(Pending::Matching(pattern_in(alloc, path, pattern)?)) }
    }
}

fn is_file(kind: EntryKind) -> bool
    ensures { result ≡ is_file kind }
{
    match kind {
        EntryKind::File => true,
        EntryKind::Folder | EntryKind::Unnamed => false,
    }
}

// The names in a folder, or none if it cannot be read.
fn places_in<F: Files>(alloc: Global, files: &F, folder: &str) -> Result<Vec<Entry>, AllocError>
    ensures { IfOk result (λ names. IfSome (F.known files.now)
        (λ files. map place_of names.items ≡ places_in (files.folders folder.now))) }
{
    match files.folder(folder) {
        Ok(Some(names)) => Ok(names),
        Ok(None) => Ok(Vec::new(alloc)),
        Err(error) => match error.kind() {
            io::ErrorKind::OutOfMemory => Err(AllocError),
            _ => Ok(Vec::new(alloc)),
        },
    }
}

fn places_at<F: Files>(alloc: Global, files: &F, folder: &[u8]) -> Result<Vec<Entry>, AllocError>
    ensures { IfOk result (λ names. IfSome (F.known files.now)
        (λ files. map place_of names.items ≡ places_at files folder.now)) }
{
    match from_utf8(folder) {
        Ok(folder) => places_in(alloc, files, folder),
        Err(_) => Ok(Vec::new(alloc)),
    }
}

// Whether a place is a file whose name a pattern matches.
fn is_matched(alloc: Global, pattern: &[u8], place: &Entry) -> Result<bool, AllocError>
    ensures { IfOk result (λ found. found
        ≡ (is_file (place_of place.now).kind && is_match pattern.now (place_of place.now).path)) }
{
    if is_file(place.kind) {
        is_match(alloc, pattern, place.path.as_bytes())
    } else {
        Ok(false)
    }
}

// The names of files that a pattern matches.
fn names_matched(
    alloc: Global,
    pattern: &[u8],
    places: &[Entry],
) -> Result<Vec<Vec<u8>>, AllocError>
    ensures { IfOk result (λ names. map vec_items names.items
        ≡ names_matched pattern.now (map place_of places.now)) }
{
    let mut names = Vec::new(alloc);
    for place in places {
        if is_matched(alloc, pattern, place)? {
            names.push(Vec::from_slice(alloc, place.path.as_bytes())?)?;
        }
    }
    Ok(names)
}

fn order(names: &mut [Vec<u8>])
    ensures { IsInOrder (map vec_items names.old) (map vec_items names.new) }
{
    names.sort_unstable();
}

// The files that a pattern matches, in order.
fn paths_matched<F: Files>(
    alloc: Global,
    files: &F,
    pattern: &[u8],
) -> Result<Vec<Vec<u8>>, AllocError>
    ensures { IfOk result (λ paths. IfSome (F.known files.now)
        (λ files. AreMatched files pattern.now (map vec_items paths.items))) }
{
    let mut paths = Vec::new(alloc);
    if !is_pattern(name_in(pattern)) {
        paths.push(Vec::from_slice(alloc, pattern)?)?;
        return Ok(paths);
    }
    let places = places_at(alloc, files, folder_of(pattern))?;
    let mut names = names_matched(alloc, name_in(pattern), places.as_slice())?;
    order(names.as_mut_slice());
    all_beside(alloc, pattern, names.as_slice())
}

fn all_beside(alloc: Global, path: &[u8], names: &[Vec<u8>]) -> Result<Vec<Vec<u8>>, AllocError>
    ensures { IfOk result (λ paths. map vec_items paths.items ≡ map (beside path.now) (map vec_items names.now)) }
{
    let mut paths = Vec::new(alloc);
    for name in names {
        paths.push(beside(alloc, path, name.as_slice())?)?;
    }
    Ok(paths)
}

impl Listing {
    fn new(alloc: Global) -> Result<Listing, AllocError>
        ensures { IfOk result (λ listing. (pending_in listing ≡ file (codes "/etc/ld.so.conf") ∷ [])
            × (lists_of listing ≡ record { read = []; folders = [] })) }
    {
        let mut pending = Vec::new(alloc);
        let path = Vec::from_slice(alloc, CONFIGURATION)?;
        pending.push(Pending::File(path))?;
        Ok(Listing {
            pending,
            read: Paths::new(alloc),
            folders: Paths::new(alloc),
        })
    }

    fn add_folder(&mut self, alloc: Global, path: Vec<u8>) -> Result<(), AllocError>
        ensures pending { OnOk result (pending_in self.new ≡ pending_in self.old) }
        ensures lists { OnOk result (lists_of self.new ≡ with_folder path.items (lists_of self.old)) }
    {
        self.folders.add(alloc, path)?;
        Ok(())
    }

    // Files come next, in order.
    fn enter_files(&mut self, mut paths: Vec<Vec<u8>>) -> Result<(), AllocError>
        ensures pending { OnOk result (pending_in self.new
            ≡ map file (map vec_items paths.items) ++ pending_in self.old) }
        ensures lists { OnOk result (lists_of self.new ≡ lists_of self.old) }
    {
        while let Some(path) = paths.pop() {
            self.pending.push(Pending::File(path))?;
        }
        Ok(())
    }

    // What the lines of a file name comes next, in order.
    fn enter_lines(
        &mut self,
        alloc: Global,
        path: &[u8],
        mut lines: Vec<ConfLine<'_>>,
    ) -> Result<(), AllocError>
        ensures pending { OnOk result (pending_in self.new
            ≡ map (pending_of path.now) (map line_view lines.entry.items) ++ pending_in self.old) }
        ensures lists { OnOk result (lists_of self.new ≡ lists_of self.old) }
    {
        while let Some(line) = lines.pop() {
            self.pending.push(pending_of(alloc, path, line)?)?;
        }
        Ok(())
    }

    // Adds a file to those that were read, if it is to be read, and returns whether it is.
    fn add_read(&mut self, alloc: Global, path: &[u8]) -> Result<bool, AllocError>
        ensures added { IfOk result (λ added. added ≡ not (is_passed path.now (lists_of self.old))) }
        ensures pending { OnOk result (pending_in self.new ≡ pending_in self.old) }
        ensures lists { OnOk result (lists_of self.new ≡ with_read path.now (lists_of self.old)) }
    {
        if self.read.len() >= MOST_FILES {
            return Ok(false);
        }
        let path = Vec::from_slice(alloc, path)?;
        self.read.add(alloc, path)
    }

    // Reads a file of configuration.
    fn read_file<F: Files>(
        &mut self,
        alloc: Global,
        files: &F,
        path: Vec<u8>,
    ) -> Result<(), AllocError>
        ensures { OnOk result (IfSome (F.known files.now) (λ files. IsStep files (file path.items)
            (pending_in self.old) (lists_of self.old) (pending_in self.new) (lists_of self.new))) }
    {
        if !self.add_read(alloc, &path)? {
            return Ok(());
        }
        let content = content_of(alloc, files, &path)?;
        let lines = conf_lines(alloc, &content)?;
        self.enter_lines(alloc, &path, lines)
    }

    // Looks at what is next.
    fn step<F: Files>(&mut self, alloc: Global, files: &F, next: Pending) -> Result<(), AllocError>
        ensures { OnOk result (IfSome (F.known files.now) (λ files. IsStep files (pending_view next)
            (pending_in self.old) (lists_of self.old) (pending_in self.new) (lists_of self.new))) }
    {
        match next {
            Pending::Folder(path) => self.add_folder(alloc, path),
            Pending::File(path) => self.read_file(alloc, files, path),
            Pending::Matching(pattern) => {
                let paths = paths_matched(alloc, files, &pattern)?;
                self.enter_files(paths)
            }
        }
    }
}

// The content of a file, or none if it is not there.
fn content_of<F: Files>(alloc: Global, files: &F, path: &[u8]) -> Result<Vec<u8>, AllocError>
    ensures { IfOk result (λ content. IfSome (F.known files.now)
        (λ files. content.items ≡ unwrap_or (files.contents path.now) [])) }
{
    files.has_libraries();
    match files.read_library(path)? {
        Some(content) => Ok(content),
        None => Ok(Vec::new(alloc)),
    }
}

// The folders that the configuration lists.
fn configured_folders<F: Files>(alloc: Global, files: &F) -> Result<Vec<Vec<u8>>, AllocError>
    ensures { IfOk result (λ folders. IfSome (F.known files.now)
        (λ files. AreConfigured files (map vec_items folders.items))) }
{
    let mut listing = Listing::new(alloc)?;
    'steps: for _ in 0..u64::MAX {
        let Some(next) = listing.pending.pop() else {
            return Ok(listing.folders.into_list());
        };
        listing.step(alloc, files, next)?;
    }
    Err(AllocError)
}

/// Returns the folders that count in place of a cache: none if there is one, or else those of the configuration.
pub fn listed_folders<F: Files>(
    alloc: Global,
    files: &F,
    has_cache: bool,
) -> Result<Vec<Vec<u8>>, AllocError>
    ensures { IfOk result (λ folders. IfSome (F.known files.now)
        (λ files. AreListed files has_cache (map vec_items folders.items))) }
{
    if has_cache {
        Ok(Vec::new(alloc))
    } else {
        configured_folders(alloc, files)
    }
}

/// Returns the same folders, borrowed.
pub fn borrowed<'a>(alloc: Global, folders: &'a [Vec<u8>]) -> Result<Vec<&'a [u8]>, AllocError>
    ensures { IfOk result (λ borrowed. folders_view borrowed.items ≡ map vec_items folders.now) }
{
    let mut borrowed = Vec::new(alloc);
    for folder in folders {
        borrowed.push(folder.as_slice())?;
    }
    Ok(borrowed)
}
