//! Where the dynamic linker looks for a library that an object needs, as the manual page ld.so(8) describes it.
//!
//! In order: the folders of `DT_RPATH`, of `LD_LIBRARY_PATH`, of `DT_RUNPATH`, the path that the linker's cache
//! (`/etc/ld.so.cache`) has for the name, and the usual folders. Before each folder come its subfolders of `glibc-hwcaps`
//! for the processor. For an object with the flag `DF_1_NODEFLIB` the usual folders and what the cache has in them do not
//! count. Preloaded libraries are not read, nor the subfolders without `glibc-hwcaps` that glibc had before 2.37.
ghost use Rattle.std.specs.Prelude.{◌≡◌, ◌++◌, ◌<◌, IfOk, OnOk, drop, filter, length, map};
ghost use Rattle.std.specs.Option.{option_map, option_to_list};
ghost use Rattle.std.specs.List.{flat_map, slice_split};
ghost use Rattle.std.specs.Vec.{vec_items};
ghost use Rattle.elf_libraries.specs.Search.{all_rpath_folders, cached_at, candidates, excluded_folders, expansion};
ghost use Rattle.elf_libraries.specs.Search.{expansion_after, folders, folders_view};
ghost use Rattle.elf_libraries.specs.Search.{folders_if, folders_in, in_hwcap, is_below, is_folder_outside};
ghost use Rattle.elf_libraries.specs.Search.{is_name_byte, is_outside, joined_path, object_view, others_view};
ghost use Rattle.elf_libraries.specs.Search.{path_view, paths_of, places, places_view, program_folder, rpath_folders};
ghost use Rattle.elf_libraries.specs.Search.{separates, sequence, sequence_length, tokens_in, tokens_view, with_hwcaps};

use crate::cache::{LibraryFlags, LinkerCache};
use std::alloc::{AllocError, Global};

/// An object that needs libraries: the folder that it is in, and the search paths of its dynamic section.
#[derive(Debug, Clone, Copy)]
pub struct SearchPaths<'a> {
    pub folder: &'a [u8],
    /// The string of `DT_RUNPATH`, if it has one.
    pub runpath: Option<&'a [u8]>,
    /// The string of `DT_RPATH`, if it has one.
    pub rpath: Option<&'a [u8]>,
    /// Whether it has the flag `DF_1_NODEFLIB`.
    pub nodeflib: bool,
}

/// What a search needs that belongs to no object.
#[derive(Debug, Clone, Copy)]
pub struct Surroundings<'a> {
    /// The value of `LD_LIBRARY_PATH`, if it is to count.
    pub library_path: Option<&'a [u8]>,
    /// What stands for `$LIB`, such as `lib64`, or on Debian `lib/x86_64-linux-gnu`.
    pub lib: &'a [u8],
    /// What stands for `$PLATFORM`, such as `x86_64`.
    pub platform: &'a [u8],
    /// The names of the subfolders of `glibc-hwcaps` that count, the best first, such as `x86-64-v3` and `x86-64-v2`.
    pub hwcaps: &'a [&'a [u8]],
    /// The linker's cache, if it is to count, and the flags of the libraries that the program can load.
    pub cache: Option<&'a LinkerCache<'a>>,
    pub flags: LibraryFlags,
    /// The folders that count in place of a cache, in order, such as those of `/etc/ld.so.conf`.
    pub listed_folders: &'a [&'a [u8]],
    /// The usual folders, in order, such as `/lib` and `/usr/lib`.
    pub usual_folders: &'a [&'a [u8]],
}

/// What stands for the substitution sequences in the strings of an object.
#[derive(Debug, Clone, Copy)]
pub struct Substitutions<'a> {
    /// For `$ORIGIN`: the folder that the object is in.
    pub origin: &'a [u8],
    /// For `$LIB`.
    pub lib: &'a [u8],
    /// For `$PLATFORM`.
    pub platform: &'a [u8],
}

impl<'a> Surroundings<'a> {
    /// Returns what stands for the sequences in the strings of an object in a folder.
    pub fn substitutions(&self, folder: &'a [u8]) -> Substitutions<'a>
        ensures { tokens_view result ≡ tokens_in (others_view self.now) folder.now }
    {
        Substitutions {
            origin: folder,
            lib: self.lib,
            platform: self.platform,
        }
    }
}

/// Where a library is searched for: in the folders of search paths, then at the path that the cache has for its name, and
/// then in the folders that count in place of a cache and in the usual ones; among the folders are their subfolders of
/// `glibc-hwcaps`. No path of the cache below an excluded folder counts.
#[derive(Debug, Drop)]
pub struct SearchPlaces<'a> {
    pub folders: Vec<Vec<u8>>,
    pub cache: Option<&'a LinkerCache<'a>>,
    pub flags: LibraryFlags,
    pub hwcaps: &'a [&'a [u8]],
    pub excluded: &'a [&'a [u8]],
    pub usual: Vec<Vec<u8>>,
}

/// What is between the folders of a search path.
#[derive(Debug, Clone, Copy)]
pub enum Separators {
    Colons,
    ColonsAndSemicolons,
}

impl Separators {
    fn separates(&self, byte: u8) -> bool
        ensures { result ≡ separates self.now byte }
    {
        match self {
            Separators::Colons => byte == b':',
            Separators::ColonsAndSemicolons => byte == b':' || byte == b';',
        }
    }
}

// Whether the byte can belong to a name: a letter, a digit or an underscore.
fn is_name_byte(byte: u8) -> bool
    ensures { result ≡ is_name_byte byte }
{
    (byte >= b'A' && byte <= b'Z')
        || (byte >= b'a' && byte <= b'z')
        || (byte >= b'0' && byte <= b'9')
        || byte == b'_'
}

// The length of the sequence that the bytes begin with, or 0.
fn sequence_length(braced: &[u8], plain: &[u8], bytes: &[u8]) -> usize
    ensures { result ≡ sequence_length braced.now plain.now bytes.now }
{
    if bytes.starts_with(braced) {
        return braced.len();
    }
    if !bytes.starts_with(plain) {
        return 0;
    }
    match bytes.get(plain.len()) {
        Some(byte) => if is_name_byte(*byte) { 0 } else { plain.len() },
        None => plain.len(),
    }
}

// A sequence, by its length, and what stands for it. No sequence has the length 0.
#[derive(Drop)]
struct FirstSequence<'a> {
    length: usize,
    value: &'a [u8],
}

// The sequence that the bytes begin with.
fn sequence<'a>(substitutions: &Substitutions<'a>, bytes: &[u8]) -> FirstSequence<'a>
    ensures length { result.length ≡ (sequence (tokens_view substitutions.now) bytes.now).length }
    ensures value { result.value.now ≡ (sequence (tokens_view substitutions.now) bytes.now).value }
{
    let origin = sequence_length(b"${ORIGIN}", b"$ORIGIN", bytes);
    if origin != 0 {
        return FirstSequence {
            length: origin,
            value: substitutions.origin,
        };
    }
    let platform = sequence_length(b"${PLATFORM}", b"$PLATFORM", bytes);
    if platform != 0 {
        return FirstSequence {
            length: platform,
            value: substitutions.platform,
        };
    }
    let lib = sequence_length(b"${LIB}", b"$LIB", bytes);
    if lib != 0 {
        return FirstSequence {
            length: lib,
            value: substitutions.lib,
        };
    }
    FirstSequence {
        length: 0,
        value: &[],
    }
}

// Adds what stands for the first of these bytes, if it is none of the `skip` bytes that are left of a sequence. Returns
// how many of the next bytes are left of one.
fn expand_first(
    substitutions: &Substitutions<'_>,
    bytes: &[u8],
    skip: usize,
    text: &mut Vec<u8>,
) -> Result<usize, AllocError>
    requires { 0 < length bytes.now }
    ensures { IfOk result (λ left. text.old.items ++ expansion_after (tokens_view substitutions.now) skip bytes.now
        ≡ text.new.items ++ expansion_after (tokens_view substitutions.now) left (drop 1 bytes.now)) }
{
    if skip > 0 {
        return Ok(skip - 1);
    }
    let first = sequence(substitutions, bytes);
    if first.length == 0 {
        text.push(bytes[0])?;
        return Ok(0);
    }
    text.extend_from_slice(first.value)?;
    Ok(first.length - 1)
}

/// Returns the bytes with what stands for `$ORIGIN`, `$LIB` and `$PLATFORM` in the place of each, also of `${ORIGIN}` and the
/// others in braces. The only error is a failed allocation.
pub fn expansion(
    alloc: Global,
    substitutions: &Substitutions<'_>,
    bytes: &[u8],
) -> Result<Vec<u8>, AllocError>
    ensures { IfOk result (λ text. text.items ≡ expansion (tokens_view substitutions.now) bytes.now) }
{
    let mut text = Vec::new(alloc);
    let mut skip = 0;
    for place in 0..bytes.len() {
        skip = expand_first(substitutions, &bytes[place..], skip, &mut text)?;
    }
    Ok(text)
}

// The parts of a search path.
fn parts<'a>(
    alloc: Global,
    separators: Separators,
    path: &'a [u8],
) -> Result<Vec<&'a [u8]>, AllocError>
    ensures { IfOk result (λ parts. map (λ part. part.now) parts.items ≡ slice_split (separates separators) path.now) }
{
    path.split(|byte| separators.separates(*byte))
        .collect(alloc)
}

// A name in a folder.
pub(crate) fn joined_path(alloc: Global, folder: &[u8], name: &[u8]) -> Result<Vec<u8>, AllocError>
    ensures { IfOk result (λ path. path.items ≡ joined_path name.now folder.now) }
{
    let mut path = Vec::new(alloc);
    path.extend_from_slice(if folder.is_empty() { b"." } else { folder })?;
    path.push(b'/')?;
    path.extend_from_slice(name)?;
    Ok(path)
}

// The folders of a search path, added to others.
fn add_folders(
    alloc: Global,
    separators: Separators,
    substitutions: &Substitutions<'_>,
    path: &[u8],
    folders: &mut Vec<Vec<u8>>,
) -> Result<(), AllocError>
    ensures { OnOk result (map vec_items folders.new.items
        ≡ map vec_items folders.old.items ++ folders_in separators (tokens_view substitutions.now) path.now) }
{
    if path.is_empty() {
        return Ok(());
    }
    let parts = parts(alloc, separators, path)?;
    for part in &parts {
        folders.push(expansion(alloc, substitutions, part)?)?;
    }
    Ok(())
}

// The same of a path that there may not be.
fn add_folders_if(
    alloc: Global,
    separators: Separators,
    substitutions: &Substitutions<'_>,
    path: Option<&[u8]>,
    folders: &mut Vec<Vec<u8>>,
) -> Result<(), AllocError>
    ensures { OnOk result (map vec_items folders.new.items ≡ map vec_items folders.old.items
        ++ folders_if separators (tokens_view substitutions.now) (path_view path.entry)) }
{
    match path {
        Some(path) => add_folders(alloc, separators, substitutions, path, folders),
        None => Ok(()),
    }
}

// The folders of the `DT_RPATH` of an object.
fn add_rpath(
    alloc: Global,
    surroundings: &Surroundings<'_>,
    object: &SearchPaths<'_>,
    folders: &mut Vec<Vec<u8>>,
) -> Result<(), AllocError>
    ensures { OnOk result (map vec_items folders.new.items ≡ map vec_items folders.old.items
        ++ rpath_folders (others_view surroundings.now) (object_view object.now)) }
{
    if object.runpath.is_some() {
        return Ok(());
    }
    add_folders_if(
        alloc,
        Separators::Colons,
        &surroundings.substitutions(object.folder),
        object.rpath,
        folders,
    )
}

// The folders of the `DT_RPATH` of an object and of its loaders.
fn add_all_rpaths(
    alloc: Global,
    surroundings: &Surroundings<'_>,
    object: &SearchPaths<'_>,
    loaders: &[SearchPaths<'_>],
    folders: &mut Vec<Vec<u8>>,
) -> Result<(), AllocError>
    ensures { OnOk result (map vec_items folders.new.items ≡ map vec_items folders.old.items
        ++ all_rpath_folders (others_view surroundings.now) (object_view object.now) (map object_view loaders.now)) }
{
    if object.runpath.is_some() {
        return Ok(());
    }
    add_rpath(alloc, surroundings, object, folders)?;
    for loader in loaders {
        add_rpath(alloc, surroundings, loader, folders)?;
    }
    Ok(())
}

// The folder of the program.
fn program_folder<'a>(object: &SearchPaths<'a>, loaders: &[SearchPaths<'a>]) -> &'a [u8]
    ensures { result.now ≡ program_folder (object_view object.now) (map object_view loaders.now) }
{
    match loaders.last() {
        Some(program) => program.folder,
        None => object.folder,
    }
}

// The folders of the search paths, in order.
fn folders(
    alloc: Global,
    object: &SearchPaths<'_>,
    loaders: &[SearchPaths<'_>],
    surroundings: &Surroundings<'_>,
) -> Result<Vec<Vec<u8>>, AllocError>
    ensures { IfOk result (λ all. map vec_items all.items
        ≡ folders (object_view object.now) (map object_view loaders.now) (others_view surroundings.now)) }
{
    let mut all = Vec::new(alloc);
    add_all_rpaths(alloc, surroundings, object, loaders, &mut all)?;
    add_folders_if(
        alloc,
        Separators::ColonsAndSemicolons,
        &surroundings.substitutions(program_folder(object, loaders)),
        surroundings.library_path,
        &mut all,
    )?;
    add_folders_if(
        alloc,
        Separators::Colons,
        &surroundings.substitutions(object.folder),
        object.runpath,
        &mut all,
    )?;
    Ok(all)
}

// The subfolder of a folder for some processors.
fn in_hwcap(alloc: Global, folder: &[u8], hwcap: &[u8]) -> Result<Vec<u8>, AllocError>
    ensures { IfOk result (λ path. path.items ≡ in_hwcap folder.now hwcap.now) }
{
    let mut path = joined_path(alloc, folder, b"glibc-hwcaps/")?;
    path.extend_from_slice(hwcap)?;
    Ok(path)
}

// A folder after its subfolders, added to others.
fn add_with_hwcaps(
    alloc: Global,
    hwcaps: &[&[u8]],
    folder: &[u8],
    folders: &mut Vec<Vec<u8>>,
) -> Result<(), AllocError>
    ensures { OnOk result (map vec_items folders.new.items
        ≡ map vec_items folders.old.items ++ with_hwcaps (folders_view hwcaps.now) folder.now) }
{
    for hwcap in hwcaps {
        folders.push(in_hwcap(alloc, folder, hwcap)?)?;
    }
    folders.push(folder.to_vec(alloc)?)?;
    Ok(())
}

// Each folder after its subfolders.
fn with_hwcaps(
    alloc: Global,
    hwcaps: &[&[u8]],
    folders: &[Vec<u8>],
) -> Result<Vec<Vec<u8>>, AllocError>
    ensures { IfOk result (λ all. map vec_items all.items
        ≡ flat_map (with_hwcaps (folders_view hwcaps.now)) (map vec_items folders.now)) }
{
    let mut all = Vec::new(alloc);
    for folder in folders {
        add_with_hwcaps(alloc, hwcaps, folder, &mut all)?;
    }
    Ok(all)
}

// Whether a path is that of a file below a folder.
fn is_below(path: &[u8], folder: &[u8]) -> bool
    ensures { result ≡ is_below path.now folder.now }
{
    if !path.starts_with(folder) {
        return false;
    }
    match path.get(folder.len()) {
        Some(byte) => *byte == b'/',
        None => false,
    }
}

// Whether a path is below none of these folders.
fn is_outside(excluded: &[&[u8]], path: &[u8]) -> bool
    ensures { result ≡ is_outside (folders_view excluded.now) path.now }
{
    for folder in excluded {
        if is_below(path, folder) {
            return false;
        }
    }
    true
}

// Adds those of these folders to others that are none of the excluded ones, nor below one.
fn add_all_outside(
    alloc: Global,
    excluded: &[&[u8]],
    folders: &[&[u8]],
    outside: &mut Vec<Vec<u8>>,
) -> Result<(), AllocError>
    ensures { OnOk result (map vec_items outside.new.items ≡ map vec_items outside.old.items
        ++ filter (is_folder_outside (folders_view excluded.now)) (folders_view folders.now)) }
{
    for folder in folders {
        if is_outside(excluded, &joined_path(alloc, folder, b"")?) {
            outside.push(folder.to_vec(alloc)?)?;
        }
    }
    Ok(())
}

// The folders that count in place of a cache and the usual ones, without the excluded ones.
fn usual_folders(
    alloc: Global,
    surroundings: &Surroundings<'_>,
    excluded: &[&[u8]],
) -> Result<Vec<Vec<u8>>, AllocError>
    ensures { IfOk result (λ usual. let others = others_view surroundings.now in map vec_items usual.items
        ≡ filter (is_folder_outside (folders_view excluded.now)) (others.listed_folders ++ others.usual_folders)) }
{
    let mut usual = Vec::new(alloc);
    add_all_outside(alloc, excluded, surroundings.listed_folders, &mut usual)?;
    add_all_outside(alloc, excluded, surroundings.usual_folders, &mut usual)?;
    Ok(usual)
}

// The usual folders, if they do not count for an object.
fn excluded_folders<'a>(object: &SearchPaths<'_>, surroundings: &Surroundings<'a>) -> &'a [&'a [u8]]
    ensures { folders_view result.now ≡ excluded_folders (object_view object.now) (others_view surroundings.now) }
{
    if object.nodeflib {
        surroundings.usual_folders
    } else {
        &[]
    }
}

/// Returns where the dynamic linker looks for the libraries of an object, in order. `loaders` are the object that loaded
/// it, the one that loaded that one, and so on up to the program. The only error is a failed allocation.
pub fn places<'a>(
    alloc: Global,
    object: &SearchPaths<'_>,
    loaders: &[SearchPaths<'_>],
    surroundings: &Surroundings<'a>,
) -> Result<SearchPlaces<'a>, AllocError>
    ensures { IfOk result (λ found. places_view found
        ≡ places (object_view object.now) (map object_view loaders.now) (others_view surroundings.now)) }
{
    let folders = folders(alloc, object, loaders, surroundings)?;
    let excluded = excluded_folders(object, surroundings);
    let usual = usual_folders(alloc, surroundings, excluded)?;
    Ok(SearchPlaces {
        folders: with_hwcaps(alloc, surroundings.hwcaps, &folders)?,
        cache: surroundings.cache,
        flags: surroundings.flags,
        hwcaps: surroundings.hwcaps,
        excluded,
        usual: with_hwcaps(alloc, surroundings.hwcaps, &usual)?,
    })
}

impl<'a> SearchPlaces<'a> {
    /// Returns the path that the cache has for a name, if there is a cache and the path counts.
    pub fn cached(&self, name: &[u8]) -> Option<&'a [u8]>
        ensures { path_view result ≡ cached_at (places_view self.now) name.now }
    {
        let Some(cache) = self.cache else {
            return None;
        };
        let Some(path) = cache.lookup(&self.flags, self.hwcaps, name) else {
            return None;
        };
        if is_outside(self.excluded, path) {
            Some(path)
        } else {
            None
        }
    }
}

// The paths of a name in these folders, added to others.
fn add_paths_in(
    alloc: Global,
    name: &[u8],
    folders: &[Vec<u8>],
    paths: &mut Vec<Vec<u8>>,
) -> Result<(), AllocError>
    ensures { OnOk result (map vec_items paths.new.items
        ≡ map vec_items paths.old.items ++ map (joined_path name.now) (map vec_items folders.now)) }
{
    for folder in folders {
        paths.push(joined_path(alloc, folder, name)?)?;
    }
    Ok(())
}

// A path that there may not be, added to others.
fn add_path_if(
    alloc: Global,
    path: Option<&[u8]>,
    paths: &mut Vec<Vec<u8>>,
) -> Result<(), AllocError>
    ensures { OnOk result (map vec_items paths.new.items
        ≡ map vec_items paths.old.items ++ option_to_list (path_view path.entry)) }
{
    match path {
        Some(path) => {
            paths.push(path.to_vec(alloc)?)?;
            Ok(())
        }
        None => Ok(()),
    }
}

/// No file has a path of this many bytes: with the 0 byte that ends it Linux takes no more.
pub(crate) const PATH_MAX: usize = 4096;

// The paths of a name without a slash.
fn paths_of(
    alloc: Global,
    name: &[u8],
    places: &SearchPlaces<'_>,
) -> Result<Vec<Vec<u8>>, AllocError>
    ensures { IfOk result (λ paths. map vec_items paths.items ≡ paths_of name.now (places_view places.now)) }
{
    let mut paths = Vec::new(alloc);
    add_paths_in(alloc, name, &places.folders, &mut paths)?;
    add_path_if(alloc, places.cached(name), &mut paths)?;
    add_paths_in(alloc, name, &places.usual, &mut paths)?;
    Ok(paths)
}

/// Returns the paths at which the dynamic linker looks for a library that an object needs, in order: the first that can
/// be opened is the library. `name` is the string of `DT_NEEDED`; with a slash in it, it is the only path. `loaders`
/// are the object that loaded this one, the one that loaded that one, and so on up to the program. There are none if the
/// name is as long as no path can be. The only error is a failed allocation.
pub fn candidates(
    alloc: Global,
    object: &SearchPaths<'_>,
    loaders: &[SearchPaths<'_>],
    surroundings: &Surroundings<'_>,
    name: &[u8],
) -> Result<Vec<Vec<u8>>, AllocError>
    ensures { IfOk result (λ paths. map vec_items paths.items
        ≡ candidates (object_view object.now) (map object_view loaders.now) (others_view surroundings.now) name.now) }
{
    let substitutions = surroundings.substitutions(object.folder);
    let name = expansion(alloc, &substitutions, name)?;
    if name.contains(&b'/') {
        let mut paths = Vec::new(alloc);
        paths.push(name)?;
        return Ok(paths);
    }
    if name.len() >= PATH_MAX {
        return Ok(Vec::new(alloc));
    }
    let places = places(alloc, object, loaders, surroundings)?;
    paths_of(alloc, &name, &places)
}
