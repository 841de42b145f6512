//! A file of a command line, and what is told of it on its page.
#![tactic(auto, using(nugwier_report::proofs::Saying::saying_both))]

ghost use Rattle.std.specs.Prelude.{◌≡◌, ◌∷◌, ◌++◌, ◌≢◌, [], List, None, OnOk};
ghost use Rattle.std.specs.declared.io.ErrorKind.TheVariants.{OutOfMemory as IsOutOfMemory};
ghost use Rattle.std.specs.IoError.{error_kind};
ghost use Rattle.elf_libraries.specs.Tree.{found_view};
ghost use Rattle.nugwier_commands.specs.Run.{IsFileSaid, IsOne, IsProblemSaid, IsProgramSaid, heading_layout, heading_said};
ghost use Rattle.nugwier_layouts.specs.Layouts.{layout_of};
ghost use Rattle.nugwier_commands.specs.Run.{search_of};
ghost use Rattle.nugwier_report.specs.Sheets.{sheet_one};
ghost use Rattle.nugwier_commands.specs.inner.Loading.{AreTold, IsNamedProgramSaid, IsSaidAfter, unread_said};
ghost use Rattle.nugwier_commands.specs.Job.{IsSaidOf};
ghost use Rattle.nugwier_programs.specs.Tree.{search_view};
ghost use Rattle.nugwier_report.specs.Labels.{no_sections};
ghost use Rattle.nugwier_report.specs.Said.{Said, saying, whole, warns};
ghost use Rattle.nugwier_report.specs.declared.problem.Part.TheVariants.{File};
ghost use Rattle.nugwier_report.specs.Whole.{file_of};
ghost use Rattle.nugwier_commands.specs.Words.{task_of};

use crate::job::tell_job;
use crate::labels::labels_of;
use crate::words::{Command, Job};
use elf::ParseError;
use elf::endian::EndianParse;
use elf_libraries::files::Files;
use elf_libraries::tree::LoadedFile;
use nugwier_layouts::json::Value;
use nugwier_layouts::layouts;
use nugwier_layouts::layouts::Layout;
use nugwier_programs::bindings::{tell_bindings, tell_bound};
use nugwier_programs::starts::{tell_bound_start, tell_start};
use nugwier_programs::tree::{FILE, Search, tell_named, tell_tree};
use nugwier_report::listed::ListedFile;
use nugwier_report::names::NO_LABELS;
use nugwier_report::problem::{Part, Stop};
use nugwier_report::run::{Page, Run, Sheet};
use nugwier_report::tell::Tell;
use std::alloc::Global;
use std::{fmt, io};

/// What is above what is told of a file, if several are: its path, after an empty line below another file.
#[derive(Clone, Copy)]
pub(crate) enum Heading {
    First,
    Next,
}

impl Heading {
    fn layout(self) -> &'static Layout
        ensures { layout_of result.now ≡ heading_layout self }
    {
        match self {
            Heading::First => &layouts::FILE_HEADING,
            Heading::Next => &layouts::NEXT_FILE_HEADING,
        }
    }
}

/// A file of a command line: what is asked for, its path, and what is written above it, if several files are listed.
#[derive(Clone, Copy)]
pub(crate) struct Target<'j> {
    pub job: &'j Job<'j>,
    pub path: &'j str,
    pub heading: Option<Heading>,
}

/// Why the section headers of a file with this number of bytes are not read.
#[derive(Drop)]
pub(crate) struct LostHeaders {
    pub error: ParseError,
    pub len: usize,
}

impl fmt::Display for LostHeaders {
    ghost use Rattle.nugwier_commands.specs.Run.{lost_text};

    ghost output = { λ lost. lost_text lost.error lost.len };

    fn fmt<W: fmt::Write>(&self, f: &mut fmt::Formatter<W>) -> fmt::Result {
        match &self.error {
            ParseError::SliceReadError((start, end)) => {
                let len = self.len;
                write!(
                    f,
                    "not in the file: bytes 0x{start:x} to 0x{end:x} of 0x{len:x}; it may be cut short"
                )
            }
            error => write!(f, "{error}"),
        }
    }
}

// Tells why section headers were not read, if they were not.
fn tell_lost<T: Tell>(lost: Option<LostHeaders>, tell: &mut T) -> Result<(), Stop>
    ensures { OnOk result (tell.new ≡ saying T.one tell.old (unread_said lost)) }
{
    match lost {
        Some(lost) => tell.problem(Part::SectionHeaders.whole(), &lost),
        None => Ok(()),
    }
}

impl<'j> Target<'j> {
    // Tells what is above the file, if something is.
    fn tell_heading<T: Tell>(&self, tell: &mut T) -> Result<(), Stop>
        ensures { OnOk result (tell.new ≡ saying T.one tell.old (heading_said self.now.heading self.now.path.now)) }
    {
        match self.heading {
            Some(above) => {
                let path = Value::Text(Some(self.path.as_bytes()));
                tell.state(above.layout(), &[("path", path)])
            }
            None => Ok(()),
        }
    }

    /// Tells what is asked for of a file, after why its section headers were not read, if they were not.
    pub(crate) fn tell_file<E: EndianParse, L: ListedFile<E>, R: Run>(
        &self,
        alloc: Global,
        lost: Option<LostHeaders>,
        file: &L,
        run: &mut R,
    ) -> Result<(), Stop>
        ensures { OnOk result (AreTold R.one (IsOne self.now.heading self.now.path.now (IsSaidAfter lost
            (IsFileSaid E.little E.of_byte (task_of self.now.job.now) self.now.path.now (L.header file.now)
            (file_of (L.file file.now) (L.bytes file.now))))) run.old run.new) }
    {
        let labels = labels_of(self.job, file)?;
        let path = self.path;
        let page = Page { path, labels };
        let mut sheet = Sheet { run, page: &page };
        self.tell_listed(alloc, lost, file, &mut sheet)
    }

    // The same on its page.
    fn tell_listed<E: EndianParse, L: ListedFile<E>, R: Run>(
        &self,
        alloc: Global,
        lost: Option<LostHeaders>,
        file: &L,
        sheet: &mut Sheet<'_, '_, R>,
    ) -> Result<(), Stop>
        ensures { OnOk result ((said : List Said)
            × IsSaidOf E.little E.of_byte (task_of self.now.job.now) self.now.path.now (L.header file.now)
            (file_of (L.file file.now) (L.bytes file.now)) said
            × (sheet.new ≡ saying (sheet_one R.one) sheet.old
            (heading_said self.now.heading self.now.path.now ++ (unread_said lost ++ said)))) }
    {
        self.tell_heading(sheet)?;
        tell_lost(lost, sheet)?;
        tell_job(alloc, self.job, self.path, file, sheet)
    }

    // Where the libraries of a program are searched for.
    fn search(&self) -> Search<'_>
        ensures { search_view result ≡ search_of (task_of self.now.job.now) }
    {
        Search {
            folders: self.job.searches.as_slice(),
            has_cache: self.job.has_cache,
        }
    }

    /// Tells of the program that was opened by its names alone, and of its libraries, what is asked for.
    pub(crate) fn tell_named<F: Files, R: Run>(
        &self,
        alloc: Global,
        files: &F,
        program: LoadedFile,
        run: &mut R,
    ) -> Result<(), Stop>
        ensures { OnOk result (AreTold R.one (IsOne self.now.heading self.now.path.now
            (IsNamedProgramSaid (F.known files.now) self.now.job.now.command (search_of (task_of self.now.job.now))
            self.now.path.now (found_view program))) run.old run.new) }
    {
        let page = Page {
            path: self.path,
            labels: NO_LABELS,
        };
        let mut sheet = Sheet { run, page: &page };
        self.tell_opened(alloc, files, program, &mut sheet)
    }

    // The same on its page.
    fn tell_opened<F: Files, T: Tell>(
        &self,
        alloc: Global,
        files: &F,
        program: LoadedFile,
        tell: &mut T,
    ) -> Result<(), Stop>
        ensures { OnOk result ((said : List Said)
            × IsNamedProgramSaid (F.known files.now) self.now.job.now.command (search_of (task_of self.now.job.now))
            self.now.path.now (found_view program) no_sections said
            × (tell.new ≡ saying T.one tell.old (heading_said self.now.heading self.now.path.now ++ said))) }
    {
        self.tell_heading(tell)?;
        match self.job.command {
            Command::Bindings => tell_bound(alloc, self.search(), files, program, tell),
            Command::Starts => {
                tell_bound_start(alloc, self.search(), files, self.path, program, tell)
            }
            _ => tell_named(alloc, self.search(), files, program, tell),
        }
    }

    /// Tells of the program with these bytes, and of its libraries, what is asked for.
    pub(crate) fn tell_program<F: Files, R: Run>(
        &self,
        alloc: Global,
        files: &F,
        data: Vec<u8>,
        run: &mut R,
    ) -> Result<(), Stop>
        ensures { OnOk result (AreTold R.one (IsOne self.now.heading self.now.path.now
            (IsProgramSaid (F.known files.now) self.now.job.now.command (task_of self.now.job.now) self.now.path.now
            «data».items)) run.old run.new) }
    {
        let page = Page {
            path: self.path,
            labels: NO_LABELS,
        };
        let mut sheet = Sheet { run, page: &page };
        self.tell_loaded(alloc, files, data, &mut sheet)
    }

    // The same on its page.
    fn tell_loaded<F: Files, T: Tell>(
        &self,
        alloc: Global,
        files: &F,
        data: Vec<u8>,
        tell: &mut T,
    ) -> Result<(), Stop>
        ensures { OnOk result ((said : List Said)
            × IsProgramSaid (F.known files.now) self.now.job.now.command (task_of self.now.job.now) self.now.path.now
            «data».items no_sections said
            × (tell.new ≡ saying T.one tell.old (heading_said self.now.heading self.now.path.now ++ said))) }
    {
        self.tell_heading(tell)?;
        match self.job.command {
            Command::Bindings => {
                tell_bindings(alloc, self.search(), files, self.path, data, tell)
            }
            Command::Starts => tell_start(alloc, self.search(), files, self.path, data, tell),
            _ => tell_tree(alloc, self.search(), files, self.path, data, tell),
        }
    }

    /// Tells that the file as a whole is wrong.
    pub(crate) fn tell_problem<D: fmt::Display, R: Run>(
        &self,
        fault: &D,
        run: &mut R,
    ) -> Result<(), Stop>
        ensures { OnOk result (AreTold R.one (IsOne self.now.heading self.now.path.now
            (IsProblemSaid (D.output fault.now))) run.old run.new) }
    {
        let page = Page {
            path: self.path,
            labels: NO_LABELS,
        };
        let mut sheet = Sheet { run, page: &page };
        self.tell_wrong(fault, &mut sheet)
    }

    // The same on its page.
    fn tell_wrong<D: fmt::Display, T: Tell>(&self, fault: &D, tell: &mut T) -> Result<(), Stop>
        ensures { OnOk result (tell.new ≡ saying T.one tell.old
            (heading_said self.now.heading self.now.path.now ++ warns (whole File) (D.output fault.now) ∷ [])) }
    {
        self.tell_heading(tell)?;
        tell.problem(FILE, fault)
    }

    /// Tells that the file cannot be read, by the error of the system. A failed allocation is no error of the file.
    pub(crate) fn tell_unread<R: Run>(&self, error: io::Error, run: &mut R) -> Result<(), Stop>
        ensures reason { OnOk result (error_kind error ≢ IsOutOfMemory) }
        ensures told { OnOk result (AreTold R.one (IsOne self.now.heading self.now.path.now
            (IsProblemSaid None)) run.old run.new) }
    {
        match error.kind() {
            io::ErrorKind::OutOfMemory => Err(Stop::Memory),
            _ => self.tell_problem(&error, run),
        }
    }
}
