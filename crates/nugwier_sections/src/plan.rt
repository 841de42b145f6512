//! What a loader maps.
#![tactic(auto, using(nugwier_report::proofs::Saying::saying_both))]

ghost use Rattle.std.specs.Prelude.{◌≡◌, ◌≢◌, ◌∷◌, [], OnOk};
ghost use Rattle.elf_tools.specs.declared.load_plan.PlanError.TheVariants.{Memory};
ghost use Rattle.nugwier_sections.specs.Plan.{IsPlanSaid, mappings_said};
ghost use Rattle.nugwier_report.specs.Whole.{file_of};
ghost use Rattle.nugwier_report.specs.Said.{IsToldAs, saying, warns, whole};
ghost use Rattle.elf_tools.specs.LoadPlan.{error_text};
ghost use Rattle.nugwier_report.specs.declared.problem.Part.TheVariants.{LoadPlan};

use crate::mapping_rows::MappingRow;
use elf::endian::EndianParse;
use elf_tools::load_plan::{Mapping, PlanError, load_plan};
use nugwier_layouts::layouts;
use nugwier_report::listed::ListedFile;
use nugwier_report::problem::{Fault, Part, Stop};
use nugwier_report::rows::tell_slice;
use nugwier_report::tell::Tell;
use std::alloc::Global;

/// Tells the mappings. It is a problem if there are none, or if they cannot be mapped. They follow from the program
/// headers, so nothing has to be loaded.
pub fn tell_plan<E: EndianParse, R: ListedFile<E>, T: Tell>(
    alloc: Global,
    file: &R,
    tell: &mut T,
) -> Result<(), Stop>
    ensures { OnOk result (IsToldAs T.silent T.one (IsPlanSaid (file_of (R.file file.now) (R.bytes file.now)))
        tell.old tell.new) }
{
    match load_plan(alloc, file) {
        Ok(plan) => tell_mappings(plan.as_slice(), tell),
        Err(error) => tell_refused(error, tell),
    }
}

// Tells why there is no plan. A failed allocation is no error of the file.
fn tell_refused<T: Tell>(error: PlanError, tell: &mut T) -> Result<(), Stop>
    ensures reason { OnOk result (error ≢ Memory) }
    ensures told { OnOk result (tell.new ≡ saying T.one tell.old (warns (whole LoadPlan) (error_text error) ∷ [])) }
{
    match error {
        PlanError::Memory => Err(Stop::Memory),
        error => tell.problem(Part::LoadPlan.whole(), &error),
    }
}

fn tell_mappings<T: Tell>(plan: &[Mapping], tell: &mut T) -> Result<(), Stop>
    ensures { OnOk result (tell.new ≡ saying T.one tell.old (mappings_said plan.now)) }
{
    if plan.is_empty() {
        return tell.problem(Part::LoadPlan.whole(), &Fault::Missing);
    }
    tell.state(&layouts::MAPPINGS_HEADING, &[])?;
    tell_slice(plan, &MappingRow, tell)
}
