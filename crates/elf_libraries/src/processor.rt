//! The subfolders of `glibc-hwcaps` that the dynamic linker of glibc searches on this processor.
ghost use Rattle.std.specs.Prelude.{◌≡◌, ◌==◌, IfOk, IfSome, map};
ghost use Rattle.std.specs.Option.{option_map};
ghost use Rattle.std.specs.Vec.{vec_items};
ghost use Rattle.elf_libraries.specs.Search.{folders_view};
ghost use Rattle.elf_libraries.specs.Processor.{cpuinfo, features_in, has, has_all, has_levels, hwcaps_of, level_for};
ghost use Rattle.elf_libraries.specs.Processor.{level_if, level_of, lines_of, words_of};

use crate::files::Files;
use crate::tree::Kind;
use elf::abi;
use elf::file::Class;
use std::alloc::{AllocError, Global};

/// The level of a processor for x86-64, as the psABI of x86-64 names them.
#[derive(Debug, Clone, Copy)]
pub enum Level {
    /// What each processor has.
    Baseline,
    V2,
    V3,
    V4,
}

// What Linux says of the processors, and how much of it is read. The features of the first one are near the start.
const CPUINFO: &[u8] = b"/proc/cpuinfo";

const MOST: usize = 0x1_0000;

// The features that a level needs beside those of the level below it.
static NEEDED_BY_2: [&str; 7] = [
    "cx16", "lahf_lm", "popcnt", "pni", "sse4_1", "sse4_2", "ssse3",
];

static NEEDED_BY_3: [&str; 9] = [
    "abm", "avx", "avx2", "bmi1", "bmi2", "f16c", "fma", "movbe", "xsave",
];

static NEEDED_BY_4: [&str; 5] = ["avx512f", "avx512bw", "avx512cd", "avx512dq", "avx512vl"];

static OF_2: [&str; 1] = ["x86-64-v2"];

static OF_3: [&str; 2] = ["x86-64-v3", "x86-64-v2"];

static OF_4: [&str; 3] = ["x86-64-v4", "x86-64-v3", "x86-64-v2"];

/// Returns the subfolders for a processor of a level, the best first. The only error is a failed allocation.
pub fn hwcaps_of(alloc: Global, level: Level) -> Result<Vec<&'static [u8]>, AllocError>
    ensures { IfOk result (λ hwcaps. folders_view hwcaps.items ≡ hwcaps_of level) }
{
    let mut hwcaps = Vec::new(alloc);
    for name in names_of(level) {
        hwcaps.push(name.as_bytes())?;
    }
    Ok(hwcaps)
}

fn names_of(level: Level) -> &'static [&'static str]
    ensures { map (λ name. name.now) result.now ≡ hwcaps_of level }
{
    match level {
        Level::Baseline => &[],
        Level::V2 => &OF_2,
        Level::V3 => &OF_3,
        Level::V4 => &OF_4,
    }
}

/// Returns the level of the processor that counts for programs of a kind. The only error is a failed allocation.
pub fn level_for<F: Files>(alloc: Global, files: &F, kind: Kind) -> Result<Level, AllocError>
    ensures { IfOk result (λ level. IfSome (F.known files.now) (λ files. level_for files.contents kind ≡ level)) }
{
    if !has_levels(kind.class, kind.machine) {
        return Ok(Level::Baseline);
    }
    let text = cpuinfo(files)?;
    level_if(alloc, &text)
}

/// Returns whether programs of a class and a machine have levels: only 64-bit ones of x86-64 have.
pub fn has_levels(class: Class, machine: u16) -> bool
    ensures { result ≡ has_levels class machine }
{
    match class {
        Class::ELF64 => machine == abi::EM_X86_64,
        Class::ELF32 => false,
    }
}

fn cpuinfo<F: Files>(files: &F) -> Result<Option<Vec<u8>>, AllocError>
    ensures { IfOk result (λ text. IfSome (F.known files.now) (λ files. cpuinfo files.contents ≡ option_map vec_items text)) }
{
    files.read_front(CPUINFO, MOST)
}

/// Returns the level of a processor of which Linux says this, or the lowest one if it says nothing. The first line of
/// features counts. The only error is a failed allocation.
pub fn level_if(alloc: Global, text: &Option<Vec<u8>>) -> Result<Level, AllocError>
    ensures { IfOk result (λ level. level ≡ level_if (option_map vec_items text.now)) }
{
    match text {
        Some(text) => {
            let features = features_in(alloc, text)?;
            Ok(level_of(features.as_slice()))
        }
        None => Ok(Level::Baseline),
    }
}

// The names of the features.
fn features_in(alloc: Global, text: &[u8]) -> Result<Vec<&[u8]>, AllocError>
    ensures { IfOk result (λ features. folders_view features.items ≡ features_in text.now) }
{
    let lines = lines_of(alloc, text)?;
    for line in &lines {
        if line.starts_with(b"flags") {
            return words_of(alloc, line);
        }
    }
    Ok(Vec::new(alloc))
}

fn lines_of(alloc: Global, text: &[u8]) -> Result<Vec<&[u8]>, AllocError>
    ensures { IfOk result (λ lines. map (λ line. line.now) lines.items ≡ lines_of text.now) }
{
    text.split(|byte| *byte == b'\n').collect(alloc)
}

fn words_of(alloc: Global, line: &[u8]) -> Result<Vec<&[u8]>, AllocError>
    ensures { IfOk result (λ words. map (λ word. word.now) words.items ≡ words_of line.now) }
{
    line.split(|byte| *byte == b' ').collect(alloc)
}

fn has(features: &[&[u8]], feature: &str) -> bool
    ensures { result ≡ has (folders_view features.now) feature.now }
{
    for name in features {
        if feature.as_bytes() == *name {
            return true;
        }
    }
    false
}

fn has_all(features: &[&[u8]], needed: &[&str]) -> bool
    ensures { result ≡ has_all (folders_view features.now) (map (λ feature. feature.now) needed.now) }
{
    for feature in needed {
        if !has(features, feature) {
            return false;
        }
    }
    true
}

fn level_of(features: &[&[u8]]) -> Level
    ensures { result ≡ level_of (folders_view features.now) }
{
    if !has_all(features, &NEEDED_BY_2) {
        Level::Baseline
    } else if !has_all(features, &NEEDED_BY_3) {
        Level::V2
    } else if !has_all(features, &NEEDED_BY_4) {
        Level::V3
    } else {
        Level::V4
    }
}
