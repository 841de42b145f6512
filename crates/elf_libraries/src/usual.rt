//! The folders in which the dynamic linker of glibc looks for libraries that no search path names.
ghost use Rattle.std.specs.Prelude.{◌≡◌, IfOk, map};
ghost use Rattle.elf_libraries.specs.Usual.{folders_of_32, folders_of_64, folders_of_ppc64, lib_of, platform_of};
ghost use Rattle.elf_libraries.specs.Usual.{usual_folders};

use crate::tree::Kind;
use elf::abi;
use elf::endian::AnyEndian;
use elf::file::Class;
use std::alloc::{AllocError, Global};

static X86_64: [&str; 6] = [
    "/lib/x86_64-linux-gnu",
    "/usr/lib/x86_64-linux-gnu",
    "/lib64",
    "/usr/lib64",
    "/lib",
    "/usr/lib",
];

static X32: [&str; 6] = [
    "/lib/x86_64-linux-gnux32",
    "/usr/lib/x86_64-linux-gnux32",
    "/libx32",
    "/usr/libx32",
    "/lib",
    "/usr/lib",
];

static I386: [&str; 6] = [
    "/lib/i386-linux-gnu",
    "/usr/lib/i386-linux-gnu",
    "/lib32",
    "/usr/lib32",
    "/lib",
    "/usr/lib",
];

static AARCH64: [&str; 6] = [
    "/lib/aarch64-linux-gnu",
    "/usr/lib/aarch64-linux-gnu",
    "/lib64",
    "/usr/lib64",
    "/lib",
    "/usr/lib",
];

static ARM: [&str; 6] = [
    "/lib/arm-linux-gnueabihf",
    "/usr/lib/arm-linux-gnueabihf",
    "/lib/arm-linux-gnueabi",
    "/usr/lib/arm-linux-gnueabi",
    "/lib",
    "/usr/lib",
];

static RISCV64: [&str; 8] = [
    "/lib/riscv64-linux-gnu",
    "/usr/lib/riscv64-linux-gnu",
    "/lib64/lp64d",
    "/usr/lib64/lp64d",
    "/lib64",
    "/usr/lib64",
    "/lib",
    "/usr/lib",
];

static POWERPC64LE: [&str; 6] = [
    "/lib/powerpc64le-linux-gnu",
    "/usr/lib/powerpc64le-linux-gnu",
    "/lib64",
    "/usr/lib64",
    "/lib",
    "/usr/lib",
];

static S390X: [&str; 6] = [
    "/lib/s390x-linux-gnu",
    "/usr/lib/s390x-linux-gnu",
    "/lib64",
    "/usr/lib64",
    "/lib",
    "/usr/lib",
];

static OTHERS_64: [&str; 4] = ["/lib64", "/usr/lib64", "/lib", "/usr/lib"];

static OTHERS_32: [&str; 2] = ["/lib", "/usr/lib"];

/// Returns the usual folders of a kind of files, in order: those of Debian for the machine, then those of other
/// systems. The only error is a failed allocation.
pub fn usual_folders(alloc: Global, kind: Kind) -> Result<Vec<&'static [u8]>, AllocError>
    ensures { IfOk result (λ folders. map (λ folder. folder.now) folders.items ≡ usual_folders kind) }
{
    let mut folders = Vec::new(alloc);
    for folder in folders_of(kind) {
        folders.push(folder.as_bytes())?;
    }
    Ok(folders)
}

fn folders_of(kind: Kind) -> &'static [&'static str]
    ensures { map (λ folder. folder.now) result.now ≡ usual_folders kind }
{
    match kind.class {
        Class::ELF64 => folders_of_64(kind),
        Class::ELF32 => folders_of_32(kind.machine),
    }
}

fn folders_of_64(kind: Kind) -> &'static [&'static str]
    ensures { map (λ folder. folder.now) result.now ≡ folders_of_64 kind.order kind.machine }
{
    match kind.machine {
        abi::EM_X86_64 => &X86_64,
        abi::EM_AARCH64 => &AARCH64,
        abi::EM_RISCV => &RISCV64,
        abi::EM_PPC64 => folders_of_ppc64(kind.order),
        abi::EM_S390 => &S390X,
        _ => &OTHERS_64,
    }
}

fn folders_of_ppc64(order: AnyEndian) -> &'static [&'static str]
    ensures { map (λ folder. folder.now) result.now ≡ folders_of_ppc64 order }
{
    match order {
        AnyEndian::Little => &POWERPC64LE,
        AnyEndian::Big => &OTHERS_64,
    }
}

fn folders_of_32(machine: u16) -> &'static [&'static str]
    ensures { map (λ folder. folder.now) result.now ≡ folders_of_32 machine }
{
    match machine {
        abi::EM_X86_64 => &X32,
        abi::EM_386 => &I386,
        abi::EM_ARM => &ARM,
        _ => &OTHERS_32,
    }
}

/// Returns what stands for `$LIB`: the first usual folder without the slash before it, as on Debian.
pub fn lib_of(kind: Kind) -> &'static [u8]
    ensures { result.now ≡ lib_of kind }
{
    match folders_of(kind).first() {
        Some(folder) => folder.as_bytes().get(1..).unwrap_or(&[]),
        None => &[],
    }
}

/// Returns what stands for `$PLATFORM`: the name of the machine, or nothing if it depends on the processor. Before
/// glibc 2.39 it does on x86-64 too.
pub fn platform_of(kind: Kind) -> &'static [u8]
    ensures { result.now ≡ platform_of kind }
{
    match kind.machine {
        abi::EM_X86_64 => b"x86_64",
        abi::EM_386 => b"i686",
        abi::EM_AARCH64 => b"aarch64",
        _ => b"",
    }
}
