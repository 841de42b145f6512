//! What is told of many files: each on its page of one report.
#![tactic(auto, using(crate::proofs::Saying::saying_both))]

ghost use Rattle.std.specs.Prelude.{◌≡◌, OnOk};
ghost use Rattle.nugwier_layouts.specs.Layouts.{layout_of};
ghost use Rattle.nugwier_report.specs.Noted.{page_view};
ghost use Rattle.nugwier_report.specs.Said.{Line, states, warns};
ghost use Rattle.nugwier_layouts.specs.Members.{members_said};

use crate::names::Labels;
use crate::problem::{Place, Stop};
use crate::tell::Tell;
use nugwier_layouts::json::Member;
use nugwier_layouts::layouts::Layout;
use std::fmt;

/// A page of a report: the path of a file, and the names of its sections, with which its problems are told.
#[derive(Drop)]
pub struct Page<'p> {
    pub path: &'p str,
    pub labels: Labels<'p>,
}

/// A report of many files. Only its own type knows its writers.
pub trait Run {
    // The report after something more was told.
    ghost one: { Self → Line → Self };

    /// Tells a record on a page. The only error is that of a writer.
    fn state(
        &mut self,
        page: &Page<'_>,
        layout: &'static Layout,
        members: &[Member<'_>],
    ) -> Result<(), Stop>
        ensures { OnOk result (self.new ≡ one self.old (page_view page.now, states (layout_of layout.now) (members_said members.now))) };

    /// Tells what is wrong at a place of the file of a page, after what was told before. The only errors are that of a
    /// writer, and that there is no memory for the text.
    fn problem<D: fmt::Display>(
        &mut self,
        page: &Page<'_>,
        place: Place,
        fault: &D,
    ) -> Result<(), Stop>
        ensures { OnOk result (self.new ≡ one self.old (page_view page.now, warns place (D.output fault.now))) };
}

/// A page of a run, on which something is told. It is lent, since a struct that owned it would keep the borrow of the run.
#[derive(Drop)]
pub struct Sheet<'r, 'p, R: Run> {
    pub run: &'r mut R,
    pub page: &'p Page<'p>,
}

impl<R: Run> Tell for Sheet<'_, '_, R> {
    ghost use Rattle.std.specs.Prelude.{false};
    ghost use Rattle.nugwier_report.specs.Sheets.{sheet_one};

    ghost one = { sheet_one R.one };

    ghost silent = { λ sheet. false };

    fn is_silent(&self) -> bool {
        false
    }

    fn state(&mut self, layout: &'static Layout, members: &[Member<'_>]) -> Result<(), Stop> {
        self.run.state(self.page, layout, members)
    }

    fn problem<D: fmt::Display>(&mut self, place: Place, fault: &D) -> Result<(), Stop> {
        self.run.problem(self.page, place, fault)
    }
}
