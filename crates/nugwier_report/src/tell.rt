//! What is said of a file is told to a teller: a report, which writes it, or one of whom nothing comes.
#![tactic(auto, using(crate::proofs::Saying::saying_both))]

ghost use Rattle.std.specs.Prelude.{◌≡◌, true, Bool, IfOk, OnOk};
ghost use Rattle.nugwier_layouts.specs.Layouts.{layout_of};
ghost use Rattle.std.specs.Result.{result_ok};
ghost use Rattle.nugwier_layouts.specs.Members.{members_said};
ghost use Rattle.nugwier_report.specs.Said.{Said, saying, states, unread, warns};

use crate::problem::{Place, Stop};
use elf_parts::parse::ParseError;
use nugwier_layouts::json::Member;
use nugwier_layouts::layouts::Layout;
use std::fmt;

/// A teller.
pub trait Tell {
    // The teller after something more was told.
    ghost one: { Self → Said → Self };

    // Whether nothing comes of what is told.
    ghost silent: { Self → Bool };

    /// Returns whether nothing comes of what is told.
    fn is_silent(&self) -> bool
        ensures value { result ≡ silent self.now }
        ensures nothing { result ≡ true → (said : Said) → one self.now said ≡ self.now };

    /// Tells a record. The only error is that of a writer.
    fn state(&mut self, layout: &'static Layout, members: &[Member<'_>]) -> Result<(), Stop>
        ensures { OnOk result (self.new ≡ one self.old (states (layout_of layout.now) (members_said members.now))) };

    /// Tells what is wrong at a place, after what was told before. The only errors are that of a writer, and that there
    /// is no memory for the text.
    fn problem<D: fmt::Display>(&mut self, place: Place, fault: &D) -> Result<(), Stop>
        ensures { OnOk result (self.new ≡ one self.old (warns place (D.output fault.now))) };
}

/// A teller of whom nothing comes. What is told to it shows only what is missing of a file that is read by parts.
#[derive(Drop)]
pub struct Silent;

impl Tell for Silent {
    ghost use Rattle.std.specs.Prelude.{true};

    ghost one = { λ teller said. teller };

    ghost silent = { λ teller. true };

    fn is_silent(&self) -> bool {
        true
    }

    fn state(&mut self, _layout: &'static Layout, _members: &[Member<'_>]) -> Result<(), Stop> {
        Ok(())
    }

    fn problem<D: fmt::Display>(&mut self, _place: Place, _fault: &D) -> Result<(), Stop> {
        Ok(())
    }
}

/// Returns what was read, or tells that it cannot be read. The only errors are those of `Tell::problem`.
pub fn readable<A: Drop, T: Tell>(
    place: Place,
    read: Result<A, ParseError>,
    tell: &mut T,
) -> Result<Option<A>, Stop>
    ensures value { IfOk result (λ value. value ≡ result_ok read) }
    ensures place { OnOk result (tell.new ≡ saying T.one tell.old (unread place read)) }
{
    match read {
        Ok(value) => Ok(Some(value)),
        Err(error) => {
            tell.problem(place, &error)?;
            Ok(None)
        }
    }
}
