//! What the kernel refuses, and how it answers.
ghost use Rattle.std.specs.Prelude.{◌≡◌};
ghost use Rattle.elf_loader.specs.kernel.Refusal.{answer_of, header_answer, path_answer};

use super::header::HeaderFault;
use super::memory::MemoryFault;
use std::fmt;
use thiserror::Error;

/// How the kernel answers: by an error of `execve`, or by a signal that ends the process.
#[derive(Debug, Clone, Copy, PartialEq, Eq)]
pub enum Answer {
    /// `ENOEXEC`. A shell then takes the file for a script.
    ExecFormat,
    /// `EIO`
    InputOutput,
    /// `EINVAL`
    InvalidArgument,
    /// `ELIBBAD`
    CorruptedLibrary,
    /// `SIGSEGV`
    Killed,
}

impl fmt::Display for Answer {
    ghost use Rattle.elf_loader.specs.kernel.Texts.{answer_text};

    ghost output = { answer_text };

    fn fmt<W: fmt::Write>(&self, f: &mut fmt::Formatter<W>) -> fmt::Result {
        match self {
            Answer::ExecFormat => f.write_str("Exec format error"),
            Answer::InputOutput => f.write_str("Input/output error"),
            Answer::InvalidArgument => f.write_str("Invalid argument"),
            Answer::CorruptedLibrary => f.write_str("Accessing a corrupted shared library"),
            Answer::Killed => f.write_str("Segmentation fault"),
        }
    }
}

/// A file that the kernel loads.
#[derive(Debug, Clone, Copy, PartialEq, Eq)]
pub enum Part {
    Program,
    Interpreter,
}

impl fmt::Display for Part {
    ghost use Rattle.elf_loader.specs.kernel.Texts.{part_text};

    ghost output = { part_text };

    fn fmt<W: fmt::Write>(&self, f: &mut fmt::Formatter<W>) -> fmt::Result {
        match self {
            Part::Program => f.write_str("program"),
            Part::Interpreter => f.write_str("interpreter"),
        }
    }
}

/// Why the first segment of type `PT_INTERP` names no interpreter.
#[derive(Debug, Clone, Copy, PartialEq, Eq, Error)]
pub enum PathFault {
    /// It has less than 2 bytes or more than 4096.
    Size(u64),
    /// It ends past the largest offset of a file.
    PastOffsets,
    /// It does not lie in the file.
    OutsideFile,
    /// Its last byte is not 0.
    Unterminated,
}

impl fmt::Display for PathFault {
    ghost use Rattle.elf_loader.specs.kernel.Texts.{path_text};

    ghost output = { path_text };

    fn fmt<W: fmt::Write>(&self, f: &mut fmt::Formatter<W>) -> fmt::Result {
        match self {
            PathFault::Size(size) => write!(f, "has {size} bytes and not 2 to 4096"),
            PathFault::PastOffsets => f.write_str("its offset is too large"),
            PathFault::OutsideFile => f.write_str("does not lie in the file"),
            PathFault::Unterminated => f.write_str("does not end in a 0 byte"),
        }
    }
}

/// Why the kernel does not start a program.
#[derive(Debug, Clone, Copy, PartialEq, Eq, Error)]
pub enum Refusal {
    /// It is a script. The kernel runs the interpreter that its first line names.
    Script,
    /// A file header is not one of a program or of an interpreter of this machine.
    Header { part: Part, fault: HeaderFault },
    /// The path of the interpreter.
    Path(PathFault),
    /// The interpreter is shorter than a file header.
    ShortInterpreter,
    /// A file cannot be loaded into memory.
    Memory { part: Part, fault: MemoryFault },
}

// The answer to a header.
fn header_answer(part: Part) -> Answer
    ensures { result ≡ header_answer part }
{
    match part {
        Part::Program => Answer::ExecFormat,
        Part::Interpreter => Answer::CorruptedLibrary,
    }
}

// The answer to the path of an interpreter.
fn path_answer(fault: &PathFault) -> Answer
    ensures { result ≡ path_answer fault.now }
{
    match fault {
        PathFault::Size(_) | PathFault::Unterminated => Answer::ExecFormat,
        PathFault::PastOffsets => Answer::InvalidArgument,
        PathFault::OutsideFile => Answer::InputOutput,
    }
}

impl Refusal {
    /// Returns how the kernel answers, or `None` for a script, on which another file decides.
    pub fn answer(&self) -> Option<Answer>
        ensures { result ≡ answer_of self.now }
    {
        match self {
            Refusal::Script => None,
            Refusal::Header { part, .. } => Some(header_answer(*part)),
            Refusal::Path(fault) => Some(path_answer(fault)),
            Refusal::ShortInterpreter => Some(Answer::InputOutput),
            Refusal::Memory { .. } => Some(Answer::Killed),
        }
    }
}

impl fmt::Display for Refusal {
    ghost use Rattle.elf_loader.specs.kernel.Texts.{refusal_text};

    ghost output = { refusal_text };

    fn fmt<W: fmt::Write>(&self, f: &mut fmt::Formatter<W>) -> fmt::Result {
        match self {
            Refusal::Script => f.write_str("a script, which its interpreter runs"),
            Refusal::Header { part, fault } => {
                write!(f, "{}: {part}: {fault}", header_answer(*part))
            }
            Refusal::Path(fault) => write!(
                f,
                "{}: path of the interpreter: {fault}",
                path_answer(fault)
            ),
            Refusal::ShortInterpreter => {
                f.write_str("Input/output error: interpreter: shorter than a file header")
            }
            Refusal::Memory { part, fault } => { write!(f, "Segmentation fault: {part}: {fault}") }
        }
    }
}
