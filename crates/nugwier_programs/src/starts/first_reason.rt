//! A teller that passes on the first problem alone, as the reason why a program does not start.

use crate::starts::{START, start_members};
use nugwier_layouts::json::Member;
use nugwier_layouts::layouts::Layout;
use nugwier_report::problem::{Place, Stop};
use nugwier_report::tell::Tell;
use std::fmt;

/// A teller that passes on the first problem. It is lent, since a struct that owned it would keep the borrow of the teller.
#[derive(Drop)]
pub(crate) struct FirstReason<'t, T: Tell> {
    pub tell: &'t mut T,
    /// Whether there was a problem.
    pub is_found: bool,
}

impl<T: Tell> Tell for FirstReason<'_, T> {
    ghost use Rattle.std.specs.Prelude.{false};
    ghost use Rattle.nugwier_programs.specs.Starts.{reason_one};

    ghost one = { reason_one T.one };

    ghost silent = { λ _. false };

    fn is_silent(&self) -> bool {
        false
    }

    fn state(&mut self, _layout: &'static Layout, _members: &[Member<'_>]) -> Result<(), Stop> {
        Ok(())
    }

    fn problem<D: fmt::Display>(&mut self, place: Place, fault: &D) -> Result<(), Stop> {
        if self.is_found {
            return Ok(());
        }
        self.is_found = true;
        self.tell.state(&START, &start_members(false))?;
        self.tell.problem(place, &NotStarted { fault })
    }
}

// That a program does not start, for this reason.
#[derive(Drop)]
struct NotStarted<'a, D> {
    fault: &'a D,
}

impl<D: fmt::Display> fmt::Display for NotStarted<'_, D> {
    ghost use Rattle.nugwier_programs.specs.Starts.{start_text};

    ghost output = { λ reason. start_text (D.output reason.fault.now) };

    fn fmt<W: fmt::Write>(&self, f: &mut fmt::Formatter<W>) -> fmt::Result {
        let fault = self.fault;
        write!(f, "does not start: {fault}")
    }
}
