//! Where the dynamic linker looks for a library.
use crate::caches::push_parts;
use crate::row_words::{Words, field_of};
use crate::rows::bytes_of;
use crate::shown::{Shown, text};
use elf::abi::EM_X86_64;
use elf::endian::AnyEndian;
use elf::file::Class;
use elf_libraries::cache::{LibraryFlags, LinkerCache};
use elf_libraries::search::{SearchPaths, Substitutions, Surroundings, candidates, expansion};
use std::alloc::Global;
use std::io;

/// `expand ORIGIN LIB PLATFORM TEXT`: the text with these in the place of the sequences.
pub(crate) fn show_expansion(rt: &HostRuntime, words: &mut Words<'_>) -> Shown {
    let substitutions = Substitutions {
        origin: words.word().as_bytes(),
        lib: words.word().as_bytes(),
        platform: words.word().as_bytes(),
    };
    let expanded = expansion(rt.alloc(), &substitutions, words.word().as_bytes())?;
    print!(rt; "{}", text(expanded.as_slice()))?;
    Ok(())
}

/// What a row says of a search: its objects, the one that needs the library first and then those that loaded it, and
/// what belongs to none.
#[derive(Drop)]
struct Search<'a> {
    objects: Vec<SearchPaths<'a>>,
    library_path: Option<&'a [u8]>,
    lib: &'a [u8],
    platform: &'a [u8],
    hwcaps: Vec<&'a [u8]>,
    cache: &'a str,
    listed: Vec<&'a [u8]>,
    usual: Vec<&'a [u8]>,
}

impl<'a> Search<'a> {
    fn new(alloc: Global) -> Search<'a> {
        Search {
            objects: Vec::new(alloc),
            library_path: None,
            lib: b"",
            platform: b"",
            hwcaps: Vec::new(alloc),
            cache: "-",
            listed: Vec::new(alloc),
            usual: Vec::new(alloc),
        }
    }

    fn set(&mut self, field: &str, value: &'a str) -> io::Result<()> {
        match field {
            "library_path" => self.library_path = Some(value.as_bytes()),
            "lib" => self.lib = value.as_bytes(),
            "platform" => self.platform = value.as_bytes(),
            "hwcaps" => push_parts(&mut self.hwcaps, ',', value)?,
            "cache" => self.cache = value,
            "listed" => push_parts(&mut self.listed, ':', value)?,
            "usual" => push_parts(&mut self.usual, ':', value)?,
            _ => self.set_object(field, value)?,
        }
        Ok(())
    }

    /// `object=FOLDER` begins an object, and the other fields are those of the last one.
    fn set_object(&mut self, field: &str, value: &'a str) -> io::Result<()> {
        if field == "object" {
            self.objects.push(SearchPaths {
                folder: value.as_bytes(),
                runpath: None,
                rpath: None,
                nodeflib: false,
            })?;
        } else if let Some(object) = self.objects.as_mut_slice().last_mut() {
            match field {
                "runpath" => object.runpath = Some(value.as_bytes()),
                "rpath" => object.rpath = Some(value.as_bytes()),
                _ => object.nodeflib = true,
            }
        }
        Ok(())
    }
}

fn show_found(
    rt: &HostRuntime,
    objects: &[SearchPaths<'_>],
    surroundings: &Surroundings<'_>,
    name: &str,
) -> Shown {
    let Some((object, loaders)) = objects.split_first() else {
        return Ok(print!(rt; "no object")?);
    };
    let found = candidates(rt.alloc(), object, loaders, surroundings, name.as_bytes())?;
    for path in &found {
        print!(rt; "\n    {}", text(path.as_slice()))?;
    }
    Ok(())
}

/// `candidates NAME SET..`: the paths at which a library of this name is looked for, for a 64-bit program of x86-64. A
/// SET is `object=FOLDER`, with `runpath=`, `rpath=` or `nodeflib` of this object after it, or a field of what belongs
/// to no object, as `usual=/lib:/usr/lib`.
pub(crate) fn show_candidates(rt: &HostRuntime, words: &mut Words<'_>) -> Shown {
    let name = words.word();
    let mut search = Search::new(rt.alloc());
    for set in words.rest() {
        let (field, value) = field_of(set);
        search.set(field, value)?;
    }
    let Ok(data) = bytes_of(rt, search.cache) else {
        return Ok(words.refuse("bytes that cannot be read"));
    };
    let cache = LinkerCache::new(AnyEndian::Little, data.as_slice()).ok();
    let surroundings = Surroundings {
        library_path: search.library_path,
        lib: search.lib,
        platform: search.platform,
        hwcaps: search.hwcaps.as_slice(),
        cache: cache.as_ref(),
        flags: LibraryFlags::of(EM_X86_64, Class::ELF64),
        listed_folders: search.listed.as_slice(),
        usual_folders: search.usual.as_slice(),
    };
    show_found(rt, search.objects.as_slice(), &surroundings, name)
}
