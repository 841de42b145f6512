//! The check of a whole file.
ghost use Rattle.std.specs.Prelude.{◌≡◌, ◌≤◌, drop, length};
ghost use Rattle.elf_c.specs.Check.{AreFirstFaults, IsCheckWritten, IsChecked, IsFaultsWritten};
ghost use Rattle.elf_c.specs.File.{file_over};
ghost use Rattle.elf_c.specs.Loaded.{ranges_of_c};
ghost use Rattle.elf_c.specs.Status.{read_status};

use crate::faults::{NugwierFault, fault_shown, no_fault};
use crate::file::{NugwierFile, file_over};
use crate::status::{NugwierStatus, done, unread};
use elf::reader::Reader;
use elf_check::faults::FileVerdict;
use elf_check::{check_file, fault_walk};

// Checks the file that these bytes hold.
fn check_over(file: &NugwierFile<'_>, bytes: &[u8], fault: &mut NugwierFault) -> bool
    ensures { IsChecked (file_over file.now bytes.now) result fault.new }
{
    match check_file(&file_over(file, bytes)) {
        FileVerdict::Sound(_) => {
            *fault = no_fault();
            true
        }
        FileVerdict::Faulty(found) => {
            *fault = fault_shown(&found);
            false
        }
    }
}

/// Checks whether a file is sound: whether what its headers declare can be read. `sound` says so, and `fault` is the
/// first fault, in the order of `elf_check::check_file`; of a sound file it is that of kind 0. The whole file is read as
/// one range. If that is not loaded, nothing is written.
///
/// The calls that `laws` lists return no error for a file that is sound.
///
/// The time is that of `elf_check::check_file`: it grows with the size of the file and, where more than 64 versions are
/// used, with the number of the symbols times that of the versions.
#[unsafe(no_mangle)]
pub extern "C" fn nugwier_check(
    file: &NugwierFile<'_>,
    sound: &mut bool,
    fault: &mut NugwierFault,
) -> NugwierStatus
    ensures status { result ≡ read_status (ranges_of_c file.now 0 file.now.size) }
    ensures check { IsCheckWritten file.now (ranges_of_c file.now 0 file.now.size)
        sound.old sound.new fault.old fault.new }
{
    match file.range(0, file.size) {
        Ok(bytes) => {
            *sound = check_over(file, bytes, fault);
            done()
        }
        Err(error) => unread(&error),
    }
}

// Writes the first faults of the file that these bytes hold, and returns how many.
fn write_faults(file: &NugwierFile<'_>, bytes: &[u8], faults: &mut [NugwierFault]) -> usize
    ensures count { result ≤ length faults.new }
    ensures faults { AreFirstFaults (file_over file.now bytes.now) result faults.new }
    ensures rest { drop result faults.new ≡ drop result faults.old }
{
    let whole = file_over(file, bytes);
    let mut walk = fault_walk(&whole);
    let mut count = 0;
    while count < faults.len() {
        let Some(fault) = walk.next_fault(&mut [], &mut []) else {
            return count;
        };
        faults[count] = fault_shown(&fault);
        count += 1;
    }
    count
}

/// Fills `faults` with the faults of a file, in the order of `elf_check::all_faults`, and sets `count` to how many were
/// written: no more than there are places. If there are more places than faults, these are all. The file is sound
/// exactly if it has none. The whole file is read as one range. If that is not loaded, nothing is written.
///
/// The time is that of `nugwier_check`.
#[unsafe(no_mangle)]
pub extern "C" fn nugwier_faults(
    file: &NugwierFile<'_>,
    faults: &mut [NugwierFault],
    count: &mut usize,
) -> NugwierStatus
    ensures status { result ≡ read_status (ranges_of_c file.now 0 file.now.size) }
    ensures faults { IsFaultsWritten file.now (ranges_of_c file.now 0 file.now.size)
        count.old count.new faults.old faults.new }
{
    match file.range(0, file.size) {
        Ok(bytes) => {
            *count = write_faults(file, bytes, faults);
            done()
        }
        Err(error) => unread(&error),
    }
}
