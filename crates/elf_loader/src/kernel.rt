//! What Linux requires of a program and of its interpreter before the first of them runs, in the order in which
//! `execve` looks at it (Linux, fs/binfmt_elf.c and fs/exec.c; execve(2)).
//!
//! `read_program` reads the program and has the path of its interpreter, which the caller opens. `read_interpreter`
//! reads that file. Both refuse with an error of `execve`. Then the old program is gone, and what cannot be loaded into
//! memory (`load`) is answered by the signal `SIGSEGV`.
//!
//! What a file does not decide is not refused: permissions, how much memory there is, where the kernel may put a
//! program, formats that the kernel was told of (`binfmt_misc`). Not judged either are the rules of single machines:
//! properties (`PT_GNU_PROPERTY`) of AArch64, and `e_entry` and `e_flags` of 32-bit Arm.
//!
//! The kernel reads a file header in the layout of the machine that it runs on (`Platform`). It does not look at the
//! version, the ABI, the flags, the sections, or, except on RISC-V, at the class that the file declares.

mod header;
pub mod laws;
mod memory;
mod platform;
mod program;
mod refusal;
#[cfg(test)]
mod tests;

pub use header::{Header, HeaderFault};
pub use memory::{Image, MemoryFault, SegmentFault};
pub use platform::{PageSize, Platform};
pub use program::{ExecError, Program, load, read_interpreter, read_program};
pub use refusal::{Answer, Part, PathFault, Refusal};
