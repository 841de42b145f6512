//! What is said of the objects of a program.
#![tactic(auto, using(nugwier_report::proofs::Saying::saying_both, nugwier_report::proofs::Parts::said_parts))]

ghost use Rattle.std.specs.Prelude.{◌≡◌, OnOk};
ghost use Rattle.std.specs.Option.{option_copied};
ghost use Rattle.nugwier_programs.specs.ObjectRows.{listed_view, object_layout, object_said};
ghost use Rattle.nugwier_report.specs.Said.{saying};
ghost use Rattle.nugwier_layouts.specs.Layouts.{layout_of};

use nugwier_layouts::json::Value;
use nugwier_layouts::layouts;
use nugwier_layouts::layouts::Layout;
use nugwier_report::problem::Stop;
use nugwier_report::tell::Tell;

/// The program, a library that it loads, or one that was not found.
#[derive(Clone, Copy)]
pub struct ListedObject<'a> {
    /// The number of its loaders: the object that needed it first, the one that needed that one first, and so on.
    pub depth: usize,
    /// The name by which it was needed first.
    pub name: &'a [u8],
    /// The path of its file, if one was found.
    pub path: Option<&'a [u8]>,
    /// The path of the object that needed it first.
    pub loader: &'a [u8],
}

impl ListedObject<'_> {
    /// Says it of the object. The only error is that of the writer.
    pub fn tell<T: Tell>(&self, tell: &mut T) -> Result<(), Stop>
        ensures { OnOk result (tell.new ≡ saying T.one tell.old (object_said (listed_view self.now))) }
    {
        let members = [
            ("depth", Value::Number(self.depth as u64)),
            ("name", Value::Text(Some(self.name))),
            ("path", Value::Text(self.path)),
            ("loader", Value::Text(Some(self.loader))),
        ];
        tell.state(self.layout(), &members)
    }

    fn layout(&self) -> &'static Layout
        ensures { layout_of result.now ≡ object_layout self.now.depth (option_copied self.now.path) }
    {
        match self.path {
            Some(_) if self.depth == 0 => &layouts::PROGRAM,
            Some(_) => &layouts::LIBRARY,
            None => &layouts::MISSING_LIBRARY,
        }
    }
}
