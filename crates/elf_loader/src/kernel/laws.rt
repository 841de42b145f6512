//! Theorems about what the kernel requires.
ghost use Rattle.elf_loader.specs.kernel.Partly.{InterpretersFollow, ProgramsFollow};

/// States that `read_program` and `read_interpreter` say of a file that is loaded in part what they say of the whole
/// file, or name a range that is missing: one that has bytes, lies in the file, and lies within none of the loaded
/// ranges. So a caller that loads each range that is missing, and asks again, has the answer for the whole file.
pub fn parts_answer_as_whole()
    ensures programs { ProgramsFollow }
    ensures interpreters { InterpretersFollow }
{}
