//! What a loader maps into memory, and at which addresses.
ghost use Rattle.std.specs.Prelude.{◌≡◌, ◌||◌, [], false, IfErr, IfOk, IsNone, IsOk, None, Ok, OnOk, MatchOption, length};
ghost use Rattle.std.specs.List.{list_any};
ghost use Rattle.elf_tools.specs.LoadPlan.{ApartBefore, IsFirstOverlap, IsPlan, IsTrueOfPlan, LoadableBefore};
ghost use Rattle.elf_tools.specs.LoadPlan.{fits, is_addressed, lies_in, mapping_of, mappings, meets, overlap};
ghost use Rattle.elf_tools.specs.inner.Apart.{AreApart};
ghost use Rattle.elf_tools.specs.declared.load_plan.Mapping.{Mapping};
ghost use Rattle.elf_tools.specs.declared.load_plan.PlanError.TheVariants.{Memory as IsMemory};

use elf::abi;
use elf::endian::EndianParse;
use elf::file::Class;
use elf::reader::Reader;
use elf::segment::ProgramHeader;
use std::alloc::{AllocError, Global};
use std::collections::BTreeMap;
use std::fmt;
use thiserror::Error;

/// Bytes of the file that are mapped into memory from an address on; the rest of the memory is 0. Offsets and sizes are
/// in bytes.
#[derive(Debug, Clone, Copy)]
pub struct Mapping {
    pub address: u64,
    pub memory_size: u64,
    pub offset: u64,
    pub file_size: u64,
    pub flags: u32,
}

/// Why there is no plan. Mappings are counted from 0.
#[derive(Debug, Drop, Error)]
pub enum PlanError {
    /// The mapping has more bytes in the file than in memory.
    FileSize { mapping: usize },
    /// The bytes of the mapping do not lie in the file.
    OutsideFile { mapping: usize },
    /// The mapping ends past the last address of the file's class.
    AddressSpace { mapping: usize },
    /// An address of the mapping also belongs to an earlier one.
    Overlap { mapping: usize },
    /// An allocation failed.
    Memory,
}

impl fmt::Display for PlanError {
    ghost use Rattle.elf_tools.specs.LoadPlan.{error_text};

    ghost output = { error_text };

    fn fmt<W: fmt::Write>(&self, f: &mut fmt::Formatter<W>) -> fmt::Result {
        match self {
            PlanError::FileSize { mapping } => {
                write!(
                    f,
                    "mapping {mapping} has more bytes in the file than in memory"
                )
            }
            PlanError::OutsideFile { mapping } => {
                write!(f, "the bytes of mapping {mapping} do not lie in the file")
            }
            PlanError::AddressSpace { mapping } => {
                write!(f, "mapping {mapping} ends past the last address")
            }
            PlanError::Overlap { mapping } => {
                write!(f, "mapping {mapping} overlaps an earlier one")
            }
            PlanError::Memory => f.write_str("out of memory"),
        }
    }
}

impl From<AllocError> for PlanError {
    ghost from_gives = { λ _ error. error ≡ IsMemory };

    fn from(_error: AllocError) -> PlanError {
        PlanError::Memory
    }
}

impl Mapping {
    fn new(segment: &ProgramHeader) -> Self
        ensures { result ≡ mapping_of segment.now }
    {
        Mapping {
            address: segment.p_vaddr,
            memory_size: segment.p_memsz,
            offset: segment.p_offset,
            file_size: segment.p_filesz,
            flags: segment.p_flags,
        }
    }

    // Whether the bytes of the file fit the memory.
    fn fits(&self) -> bool
        ensures { result ≡ fits self.now }
    {
        self.file_size <= self.memory_size
    }

    // Whether these bytes lie in a file of this length.
    fn lies_in(&self, len: u64) -> bool
        ensures { result ≡ lies_in len self.now }
    {
        self.offset as u128 + self.file_size as u128 <= len as u128
    }

    // Whether addresses of this class reach to the end of the mapping.
    fn is_addressed(&self, class: Class) -> bool
        ensures { result ≡ is_addressed class self.now }
    {
        let end = self.address as u128 + self.memory_size as u128;
        match class {
            Class::ELF32 => end <= 1 << 32,
            Class::ELF64 => end <= 1 << 64,
        }
    }
}

// The mappings of the segments of type `PT_LOAD`.
fn mappings<E: EndianParse, R: Reader<E>>(
    alloc: Global,
    file: &R,
) -> Result<Vec<Mapping>, AllocError>
    ensures mappings { IfOk result (λ all. all.items ≡ mappings (R.file file.now).segments) }
    ensures none { (R.file file.now).segments ≡ [] → IsOk result }
{
    let mut all = Vec::new(alloc);
    for segment in file.each_segment() {
        if segment.p_type == abi::PT_LOAD {
            all.push(Mapping::new(&segment))?;
        }
    }
    Ok(all)
}

// What is wrong with the first mapping that is not loadable, in a file of this class and length.
fn first_fault(class: Class, len: u64, all: &[Mapping]) -> Option<PlanError>
    ensures fault { MatchOption result (LoadableBefore class len all.now (length all.now))
        (IsTrueOfPlan class len all.now) }
    ensures none { all.now ≡ [] → IsNone result }
{
    for (place, mapping) in all.iter().enumerate() {
        if !mapping.fits() {
            return Some(PlanError::FileSize { mapping: place });
        }
        if !mapping.lies_in(len) {
            return Some(PlanError::OutsideFile { mapping: place });
        }
        if !mapping.is_addressed(class) {
            return Some(PlanError::AddressSpace { mapping: place });
        }
    }
    None
}

// Whether an address of the mapping lies in one of these ranges. Of the ranges that begin before the mapping ends, the
// last one also ends last, so no other one has to be checked.
fn meets_any(mapping: &Mapping, ranges: &BTreeMap<u64, u64>) -> bool
    requires { AreApart 0 ranges.now.entries }
    ensures { result ≡ list_any (meets mapping.now) ranges.now.entries }
{
    if mapping.memory_size == 0 {
        return false;
    }
    let last = mapping.address.saturating_add(mapping.memory_size - 1);
    match ranges.range(..=last).next_back() {
        Some((address, size)) => {
            *address >= mapping.address || mapping.address - *address < *size
        }
        None => false,
    }
}

// Adds the memory of a mapping that lies in none of the ranges.
fn add(ranges: &mut BTreeMap<u64, u64>, mapping: &Mapping) -> Result<(), AllocError>
    requires apart { AreApart 0 ranges.old.entries }
    requires new { list_any (meets mapping.now) ranges.old.entries ≡ false }
    ensures apart { OnOk result (AreApart 0 ranges.new.entries) }
    ensures added { OnOk result ((m : Mapping) → list_any (meets m) ranges.new.entries
        ≡ (overlap m mapping.now || list_any (meets m) ranges.old.entries)) }
{
    if mapping.memory_size == 0 {
        return Ok(());
    }
    match ranges.insert(mapping.address, mapping.memory_size) {
        Ok(_) => Ok(()),
        Err(_) => Err(AllocError),
    }
}

// The first mapping that shares an address with an earlier one. It costs the number of mappings times its logarithm.
fn first_overlap(alloc: Global, all: &[Mapping]) -> Result<Option<usize>, AllocError>
    ensures overlap { IfOk result (λ found.
        MatchOption found (ApartBefore all.now (length all.now)) (IsFirstOverlap all.now)) }
    ensures none { all.now ≡ [] → result ≡ Ok None }
{
    let mut ranges = BTreeMap::new(alloc);
    for (place, mapping) in all.iter().enumerate() {
        if meets_any(mapping, &ranges) {
            return Ok(Some(place));
        }
        add(&mut ranges, mapping)?;
    }
    Ok(None)
}

// These mappings, if each is loadable in a file of this class and length and no two overlap.
fn plan_of(
    alloc: Global,
    class: Class,
    len: u64,
    plan: Vec<Mapping>,
) -> Result<Vec<Mapping>, PlanError>
    ensures plan { IfOk result (λ same. (same.items ≡ «plan».items) × IsPlan class len «plan».items) }
    ensures refused { IfErr result (IsTrueOfPlan class len «plan».items) }
    ensures none { «plan».items ≡ [] → IsOk result }
{
    if let Some(fault) = first_fault(class, len, plan.as_slice()) {
        return Err(fault);
    }
    if let Some(mapping) = first_overlap(alloc, plan.as_slice())? {
        return Err(PlanError::Overlap { mapping });
    }
    Ok(plan)
}

/// Returns the mappings of the segments of type `PT_LOAD`, in order. They follow from the program headers and the size of
/// the file, so nothing is loaded of a stream.
///
/// Errors, in order: `Memory` if an allocation failed; of the first mapping for which one of them holds, `FileSize` if
/// it has more bytes in the file than in memory, `OutsideFile` if its bytes do not lie in the file, and `AddressSpace`
/// if it ends past the last address of the file's class; `Overlap` with the first mapping that shares an address with
/// an earlier one. A file without segments has an empty plan, and no error.
///
/// The segments are taken as declared: nothing is known of pages, `p_align` is ignored, and any order of addresses is
/// accepted. So a loader, which maps whole pages, may refuse a file that has a plan.
///
/// ```rust
/// for mapping in &load_plan(rt.alloc(), &file)? {
///     println!(rt; "{} bytes at {:#x}", mapping.memory_size, mapping.address)?;
/// }
/// ```
pub fn load_plan<E: EndianParse, R: Reader<E>>(
    alloc: Global,
    file: &R,
) -> Result<Vec<Mapping>, PlanError>
    ensures plan { let whole = R.file file.now in let all = mappings whole.segments in
        IfOk result (λ plan. (plan.items ≡ all) × IsPlan whole.class whole.size all) }
    ensures refused { let whole = R.file file.now in
        IfErr result (IsTrueOfPlan whole.class whole.size (mappings whole.segments)) }
    ensures none { (R.file file.now).segments ≡ [] → IsOk result }
{
    let plan = mappings(alloc, file)?;
    plan_of(alloc, file.class(), file.size(), plan)
}
