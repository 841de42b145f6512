//! A walk over the faults of a file.
ghost use Rattle.std.specs.Prelude.{◌≡◌, ◌+◌, ◌<◌, ◌^◌, IfSome, List, slice_get};
ghost use Rattle.elf.specs.ElfBytes.{view};
ghost use Rattle.elf.specs.ObjectFile.{object_file};
ghost use Rattle.elf_check.specs.AllFaults.{AreAllFaults, AreFaults, segment_subjects, subjects};
ghost use Rattle.elf_check.specs.FaultWalk.{checking, unchecked};
ghost use Rattle.elf_check.specs.declared.faults.FileFault.{FileFault};

use crate::faults::FileFault;
use crate::sections::names_in;
use crate::walk::{OF_FILE, OF_SEGMENTS, Stage, Walk};
use elf::ElfBytes;
use elf::endian::EndianParse;
use elf::gnu_symver::{Needed, VerDefIterator};
use elf::readers::sections_are_listed;

/// A walk over the faults of a file, in their order. Nothing is allocated.
#[derive(Drop)]
pub struct FaultWalk<'a, 'data, E: EndianParse> {
    walk: Walk<'a, 'data, E>,
    stages: &'static [Stage],
    // The place of the stage that is walked over, and the index of its next subject.
    stage: usize,
    index: usize,
}

impl<'a, 'data, E: EndianParse> FaultWalk<'a, 'data, E> {
    ghost use Rattle.elf_check.specs.FaultWalk.{IsNextFault, checking};

    // The stage that is walked over, if there is one.
    fn current(&self) -> Option<Stage>
        ensures stage { result ≡ slice_get self.now.stages.now self.now.stage }
        ensures count { IfSome result (λ stage. self.now.stage + 1 < 2 ^ 64) }
    {
        if self.stage < self.stages.len() {
            Some(self.stages[self.stage])
        } else {
            None
        }
    }

    /// Returns the next fault of the file, or `None` once there are no more. Two slices that the caller provides hold
    /// places for versions, as in `check_file_in`, and the time of the whole walk grows with the same as there.
    pub fn next_fault(
        &mut self,
        needed: &mut [Option<Needed>],
        defined: &mut [Option<VerDefIterator<'data, E>>],
    ) -> Option<FileFault>
        ensures { IsNextFault (checking E.little self.old) (checking E.little self.new) result }
    {
        while let Some(stage) = self.current() {
            let index = self.index;
            if index < self.walk.count(stage) {
                self.index += 1;
                let fault = self.walk.fault_at(stage, index, needed, defined);
                if fault.is_some() {
                    return fault;
                }
            } else {
                self.stage += 1;
                self.index = 0;
            }
        }
        None
    }
}

/// Returns a walk over the faults of a file, in the order in which `check_file` looks for them.
pub fn fault_walk<'a, 'data, E: EndianParse>(
    file: &'a ElfBytes<'data, E>,
) -> FaultWalk<'a, 'data, E>
    ensures starts { let whole = object_file E.little (view file.now) in
        checking E.little result ≡ unchecked whole (subjects whole) }
    ensures all { let whole = object_file E.little (view file.now) in
        (faults : List FileFault) → AreFaults whole (subjects whole) faults → AreAllFaults whole faults }
{
    sections_are_listed(file);
    FaultWalk {
        walk: Walk::new(file, Some(names_in(file))),
        stages: &OF_FILE,
        stage: 0,
        index: 0,
    }
}

/// Returns a walk over the faults of the segments of a file, in their order.
pub(crate) fn segment_fault_walk<'a, 'data, E: EndianParse>(
    file: &'a ElfBytes<'data, E>,
) -> FaultWalk<'a, 'data, E>
    ensures { let whole = object_file E.little (view file.now) in
        checking E.little result ≡ unchecked whole (segment_subjects whole) }
{
    FaultWalk {
        walk: Walk::new(file, None),
        stages: &OF_FILE[OF_SEGMENTS..],
        stage: 0,
        index: 0,
    }
}
