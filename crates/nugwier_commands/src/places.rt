//! Folders: each ELF file below them is told as a file that is named.
#![tactic(auto, using(nugwier_report::proofs::Saying::saying_both))]

ghost use Rattle.std.specs.Prelude.{None, OnOk, map};
ghost use Rattle.nugwier_commands.specs.Run.{ArePlacesSaid, IsFoundTold, first_heading};
ghost use Rattle.nugwier_commands.specs.Walk.{found_view, named};
ghost use Rattle.nugwier_commands.specs.inner.Loading.{AreTold};
ghost use Rattle.nugwier_commands.specs.Words.{task_of};

use crate::archive::{first_heading, next_heading};
use crate::run::run_path;
use crate::target::{Heading, Target};
use crate::walk::{Found, Walk};
use crate::words::Job;
use elf_libraries::files::Files;
use nugwier_report::problem::Stop;
use nugwier_report::run::Run;
use std::alloc::Global;

/// Tells of the files of the words, and of the ELF files below the folders among them, what is asked for.
pub(crate) fn run_places<F: Files, R: Run>(
    alloc: Global,
    job: &Job<'_>,
    files: &F,
    run: &mut R,
) -> Result<(), Stop>
    ensures { let task = task_of job.now in OnOk result (AreTold R.one (ArePlacesSaid (F.known files.now) task
        (first_heading task.command None) (map named task.files)) run.old run.new) }
{
    let mut walk = Walk::new(alloc, job.files.as_slice())?;
    let mut heading = first_heading(job.command, None);
    'places: for _ in 0..u64::MAX {
        let Some(found) = walk.next(files)? else {
            return Ok(());
        };
        run_found(alloc, job, heading, files, found, run)?;
        heading = next_heading(heading);
    }
    Err(Stop::Memory)
}

fn run_found<F: Files, R: Run>(
    alloc: Global,
    job: &Job<'_>,
    heading: Option<Heading>,
    files: &F,
    found: Found,
    run: &mut R,
) -> Result<(), Stop>
    ensures { OnOk result (AreTold R.one (IsFoundTold (F.known files.now) (task_of job.now) heading (found_view found))
        run.old run.new) }
{
    match found {
        Found::File(path) => {
            let target = Target {
                job,
                path: path.as_str(),
                heading,
            };
            run_path(alloc, target, files, run)
        }
        Found::Unread(path, error) => {
            let target = Target {
                job,
                path: path.as_str(),
                heading,
            };
            target.tell_problem(&error, run)
        }
    }
}
