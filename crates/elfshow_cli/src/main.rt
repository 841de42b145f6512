//! Lists the contents of an ELF file: the program around `elfshow::show`.
#![tactic(auto)]

ghost use Rattle.std.specs.Prelude.{◌≡◌, IfErr, IfOk};
ghost use Rattle.std.specs.Process.{exit_status};
ghost use Rattle.elfshow.specs.Failure.{status_of};

use elfshow::failure::{Failure, report};
use elfshow::show::show;
use std::alloc::{AllocError, Global};
use std::io::{BufWriter, Stderr};
use std::process::ExitCode;
use std::{env, io};
use system_files::SystemFiles;

mod system_files;

// The size of the buffer of standard output, in bytes.
const OUTPUT_BUFFER: usize = 65536;

fn main(rt: HostRuntime) -> ExitCode {
    let mut err = rt.stderr();
    let ran = run(&rt, &mut err);
    exit_code(ran, &mut err)
}

// The exit code of a run. Reports a failure that prevented it.
fn exit_code(ran: Result<u8, Failure>, err: &mut Stderr) -> ExitCode
    ensures ran { IfOk ran (λ status. exit_status result ≡ status) }
    ensures failed { IfErr ran (λ failure. exit_status result ≡ status_of failure) }
{
    match ran {
        Ok(status) => ExitCode::from(status),
        Err(failure) => ExitCode::from(report(&failure, err)),
    }
}

// Runs the command line, and returns the exit status.
fn run(rt: &HostRuntime, err: &mut Stderr) -> Result<u8, Failure> {
    let arguments = collect_arguments(rt)?;
    let words = texts(rt.alloc(), arguments.as_slice())?;
    let mut out = BufWriter::with_capacity(rt.alloc(), OUTPUT_BUFFER, rt.stdout()).map_err(
        |_| Failure::OutOfMemory,
    )?;
    let files = SystemFiles::new(rt);
    Ok(show(rt.alloc(), words.as_slice(), &files, &mut out, err))
}

// The arguments after the program's name.
fn collect_arguments(rt: &HostRuntime) -> Result<Vec<String>, Failure> {
    let arguments = env::args(rt).map_err(without_arguments)?;
    Ok(arguments.skip(1).collect(rt.alloc())?)
}

// The failure if the arguments are not available: an allocation failed, or one is not valid UTF-8.
fn without_arguments(error: io::Error) -> Failure {
    match error.kind() {
        io::ErrorKind::OutOfMemory => Failure::OutOfMemory,
        _ => Failure::Usage,
    }
}

fn texts(alloc: Global, words: &[String]) -> Result<Vec<&str>, AllocError> {
    words.iter().map(|word| word.as_str()).collect(alloc)
}
