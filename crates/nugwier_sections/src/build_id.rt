//! What is said of the build id of a file.
#![tactic(auto, using(nugwier_report::proofs::Saying::saying_both))]

ghost use Rattle.std.specs.Prelude.{◌≡◌, OnOk};
ghost use Rattle.nugwier_report.specs.Said.{saying};
ghost use Rattle.nugwier_report.specs.Whole.{file_of};
ghost use Rattle.nugwier_sections.specs.BuildId.{said_of_build_id};

use elf::endian::EndianParse;
use nugwier_layouts::json::Value;
use nugwier_layouts::layouts;
use nugwier_report::listed::ListedFile;
use nugwier_report::problem::{Fault, Part, Stop};
use nugwier_report::reading;
use nugwier_report::tell::Tell;

/// Tells the build id. It is a problem if there is none.
pub fn tell_build_id<E: EndianParse, R: ListedFile<E>, T: Tell>(
    file: &R,
    tell: &mut T,
) -> Result<(), Stop>
    ensures { OnOk result (tell.new
        ≡ saying T.one tell.old (said_of_build_id (file_of (R.file file.now) (R.bytes file.now)))) }
{
    match reading::build_id(file)? {
        Ok(Some(id)) => tell.state(&layouts::BUILD_ID, &[("build_id", Value::Bytes(id))]),
        Ok(None) => tell.problem(Part::BuildId.whole(), &Fault::Missing),
        Err(error) => tell.problem(Part::BuildId.whole(), &error),
    }
}
