//! The machines whose programs are judged.
ghost use Rattle.std.specs.Prelude.{◌≡◌, true};
ghost use Rattle.elf_records.specs.Number.{number_at};
ghost use Rattle.elf_loader.specs.kernel.Platform.{page_size, platform_named, platform_of};

use elf_abi::abi;
use elf_records::endian::{AnyEndian, EndianParse, LittleEndian};
use elf_records::file::Class;

/// The size of a page of memory.
#[derive(Debug, Clone, Copy, PartialEq, Eq)]
pub enum PageSize {
    Kib4,
    Kib16,
    Kib64,
}

impl PageSize {
    /// Returns the size in bytes.
    pub fn bytes(self) -> u64
        ensures { result ≡ page_size self }
    {
        match self {
            PageSize::Kib4 => 0x1000,
            PageSize::Kib16 => 0x4000,
            PageSize::Kib64 => 0x10000,
        }
    }
}

/// A machine, as its kernel runs programs.
#[derive(Debug, Clone, Copy)]
pub struct Platform {
    /// `e_machine` of its programs.
    pub machine: u16,
    /// The layout of their headers.
    pub class: Class,
    pub endian: AnyEndian,
    /// Whether the kernel requires that the header declares this class, too.
    pub reads_class: bool,
    pub page: PageSize,
    /// How many addresses a program has, from 0 on (`TASK_SIZE`).
    pub addresses: u64,
}

impl Platform {
    /// Returns the machine that runs the programs with this `e_machine`, with the usual size of a page and with as many
    /// addresses as the kernel gives to a program:
    ///
    /// - x86-64 with four levels of page tables, and 32-bit programs on it, which a kernel need not run;
    /// - AArch64 with addresses of 48 bits, and 32-bit Arm programs on it, which not every machine runs;
    /// - 64-bit RISC-V with four levels of page tables (Sv48).
    ///
    /// Other machines are not known. A caller that knows more of a machine makes a `Platform` of its own.
    pub fn of(machine: u16) -> Option<Platform>
        ensures { result ≡ platform_of machine }
    {
        let (class, addresses) = match machine {
            abi::EM_X86_64 => (Class::ELF64, 0x7fff_ffff_f000),
            abi::EM_386 => (Class::ELF32, 0xffff_e000),
            abi::EM_AARCH64 => (Class::ELF64, 0x1_0000_0000_0000),
            abi::EM_ARM => (Class::ELF32, 0xffff_f000),
            abi::EM_RISCV => (Class::ELF64, 0x8000_0000_0000),
            _ => return None,
        };
        Some(Platform {
            machine,
            class,
            endian: AnyEndian::Little,
            reads_class: machine == abi::EM_RISCV,
            page: PageSize::Kib4,
            addresses,
        })
    }

    /// Returns the machine that the front of a file names by `e_machine`. All machines that are known have the little
    /// order. A file that names none may be a script, or no program of any machine: the machine of the caller has the
    /// answer.
    pub fn named(front: &[u8]) -> Option<Platform>
        ensures { result ≡ platform_named (number_at true 2 front.now 18) }
    {
        let mut offset = 18;
        match LittleEndian.parse_u16_at(&mut offset, front) {
            Ok(machine) => Platform::of(machine),
            Err(_) => None,
        }
    }
}
