//! A report of many files: what is said of each is written as it comes.
#![tactic(auto, using(crate::proofs::Saying::saying_both))]

ghost use Rattle.std.specs.Prelude.{◌≡◌, [], false, IfOk, OnOk, string_bytes};
ghost use Rattle.nugwier_layouts.specs.Layouts.{layout_of};
ghost use Rattle.std.specs.Io.KnownBytes.{Appends};
ghost use Rattle.std.specs.List.{list_all};
ghost use Rattle.nugwier_report.specs.Labels.{label_seen};
ghost use Rattle.nugwier_layouts.specs.Members.{member_said, members_said};
ghost use Rattle.nugwier_report.specs.Problems.{IsTextAt, problem_line};
ghost use Rattle.nugwier_report.specs.Said.{is_right_line};
ghost use Rattle.nugwier_report.specs.Texts.{AreAppended};
ghost use Rattle.nugwier_report.specs.Told.{AreTextsOfLine, object_if, place_member, problem_record, record_line, text_of};

use crate::log::Log;
use crate::problem::{Part, Place, Stop, Told, part_member};
use crate::run::{Page, Run};
use elf_parts::file::Class;
use nugwier_layouts::escape::Escaped;
use nugwier_layouts::json::{Member, Value, write_object};
use nugwier_layouts::layouts::Layout;
use nugwier_layouts::text::{Style, write_row};
use std::alloc::Global;
use std::io::Write;
use std::marker::Model;
use std::{fmt, io};

/// How records are written.
#[derive(Debug, Clone, Copy)]
pub enum Format {
    /// As objects of JSON.
    Json,
    /// As rows for people.
    Text(Style),
}

/// A report of many files. Contracts see what was said.
#[derive(Drop)]
pub struct Report<W: Write, V: Write> {
    alloc: Global,
    format: Format,
    out: W,
    err: V,
    is_lost: bool,
    is_right: bool,
    is_told: bool,
    log: Log<W>,
    // The writer of problems as it was.
    told: Log<V>,
}

/// What a report came to.
#[derive(Debug, Clone, Copy)]
pub struct Summary {
    /// Nothing is wrong.
    pub is_right: bool,
    /// No write of a problem failed.
    pub is_told: bool,
}

impl<W: Write, V: Write> Model for Report<W, V> {
    ghost use Rattle.std.specs.Prelude.{◌≡◌};
    ghost use Rattle.std.specs.List.{list_all};
    ghost use Rattle.nugwier_report.specs.Said.{Reporting, is_right_line};
    ghost use Rattle.nugwier_report.specs.Texts.{AreAppended};
    ghost use Rattle.nugwier_report.specs.Told.{AreTextsOfLine};

    ghost Value = { Reporting };

    ghost view = { λ r. record {
      format = r.format;
      start = W.contents r.log.start;
      told_start = V.contents r.told.start;
      is_lost = r.is_lost;
      said = r.log.said;
    } };

    ghost invariant = { λ r. AreAppended (AreTextsOfLine r.format) r.is_lost r.is_told
        (record { out = W.contents r.log.start; err = V.contents r.told.start })
        (record { out = W.contents r.out; err = V.contents r.err }) r.log.said
        × (r.is_right ≡ list_all is_right_line r.log.said) };
}

impl<W: Write, V: Write> Report<W, V> {
    /// A report in which nothing was said yet.
    pub fn new(alloc: Global, format: Format, out: W, err: V) -> Report<W, V>
        ensures { result ≡ record {
          format = format;
          start = W.contents out;
          told_start = V.contents err;
          is_lost = false;
          said = [];
        } }
    {
        let log = Log::new(&out);
        let told = Log::new(&err);
        Report {
            alloc,
            format,
            out,
            err,
            is_lost: false,
            is_right: true,
            is_told: true,
            log,
            told,
        }
    }

    /// Returns what the report came to, and the writers. Unless a write failed, they got the text of what was said.
    pub fn end(self) -> (Summary, W, V)
        ensures right { result.0.is_right ≡ list_all is_right_line self.said }
        ensures written { AreAppended (AreTextsOfLine self.format) self.is_lost result.0.is_told
            (record { out = self.start; err = self.told_start })
            (record { out = W.contents result.1; err = V.contents result.2 }) self.said }
    {
        let Report {
            alloc: _,
            format: _,
            out,
            err,
            is_lost: _,
            is_right,
            is_told,
            log: _,
            told: _,
        } = self;
        (Summary { is_right, is_told }, out, err)
    }
}

impl<W: Write, V: Write> Run for Report<W, V> {
    ghost use Rattle.nugwier_report.specs.Said.{also_said};

    ghost one = { also_said };

    fn state(
        &mut self,
        page: &Page<'_>,
        layout: &'static Layout,
        members: &[Member<'_>],
    ) -> Result<(), Stop> {
        self.log = self.log.states(page, layout, members);
        let class = page.labels.class;
        if let Err(error) = write_record(
            page.path,
            self.format,
            class,
            layout,
            members,
            &mut self.out,
        ) {
            self.is_lost = true;
            return Err(Stop::Write(error));
        }
        Ok(())
    }

    // An error of the writer for problems is no reason to stop.
    fn problem<D: fmt::Display>(
        &mut self,
        page: &Page<'_>,
        place: Place,
        fault: &D,
    ) -> Result<(), Stop> {
        let section = page.labels.of(place.part);
        let text = problem_text(self.alloc, place, section, fault)?;
        self.log = self.log.wrong(page, place, fault);
        self.is_right = false;
        let member = place_member(section, place.part);
        if let Err(error) = write_problem(
            page.path,
            self.format,
            member,
            text.as_str(),
            &mut self.out,
        ) {
            self.is_lost = true;
            self.is_told = false;
            return Err(Stop::Write(error));
        }
        let told = write_line(page.path, text.as_str(), &mut self.err);
        self.is_told &= told.is_ok();
        Ok(())
    }
}

// Writes a record.
fn write_record<W: Write>(
    path: &str,
    format: Format,
    class: Class,
    layout: &'static Layout,
    members: &[Member<'_>],
    out: &mut W,
) -> io::Result<()>
    ensures { OnOk result (Appends (W.contents out.old) (W.contents out.new)
        (record_line format path.now class (layout_of layout.now) (members_said members.now))) }
{
    match format {
        Format::Json => write_named(path, layout, members, out),
        Format::Text(style) => write_text(style, class, layout, members, out),
    }
}

// Writes the row of a record.
fn write_text<W: Write>(
    style: Style,
    class: Class,
    layout: &'static Layout,
    members: &[Member<'_>],
    out: &mut W,
) -> io::Result<()>
    ensures { OnOk result (Appends (W.contents out.old) (W.contents out.new)
        (text_of style class (layout_of layout.now) (members_said members.now))) }
{
    let (_, is_heading, columns, end) = *layout;
    write_row(style, class, is_heading, columns, end, members, out)
}

// Writes an object, if the layout of the record has a name.
fn write_named<W: Write>(
    path: &str,
    layout: &'static Layout,
    members: &[Member<'_>],
    out: &mut W,
) -> io::Result<()>
    ensures { OnOk result (Appends (W.contents out.old) (W.contents out.new)
        (object_if path.now (layout_of layout.now).name (members_said members.now))) }
{
    match layout.0 {
        Some(name) => write_object(path, name, members, out),
        None => Ok(()),
    }
}

// What is told of a problem at a place, in this section.
fn problem_text<D: fmt::Display>(
    alloc: Global,
    place: Place,
    section: Option<(u64, &[u8])>,
    fault: &D,
) -> Result<String, Stop>
    ensures { IfOk result (λ told. IsTextAt (label_seen section.entry) place (D.output fault.now) (string_bytes told)) }
{
    let fault = format!(in alloc; "{fault}")?;
    let told = Told {
        place,
        section,
        fault: fault.as_str(),
    };
    let text = format!(in alloc; "{told}")?;
    Ok(text)
}

// The section or the segment of a problem.
fn place_member(section: Option<(u64, &[u8])>, part: Part) -> Member<'static>
    ensures { member_said result ≡ place_member (label_seen section.entry) part }
{
    match section {
        Some((number, _)) => ("section", Value::Number(number)),
        None => part_member(part),
    }
}

// Writes a problem as an object, and then what is held back. Among rows for people it has none.
fn write_problem<W: Write>(
    path: &str,
    format: Format,
    place: Member<'_>,
    told: &str,
    out: &mut W,
) -> io::Result<()>
    ensures { OnOk result (Appends (W.contents out.old) (W.contents out.new)
        (problem_record format path.now (member_said place.entry) told.now)) }
{
    if let Format::Json = format {
        let text = Value::Text(Some(told.as_bytes()));
        write_object(path, "problem", &[place, ("text", text)], out)?;
    }
    out.flush()
}

// Writes the line of a problem, with the path of the file.
fn write_line<V: Write>(path: &str, told: &str, err: &mut V) -> io::Result<()>
    ensures { OnOk result (Appends (V.contents err.old) (V.contents err.new) (problem_line path.now told.now)) }
{
    let path = Escaped(path.as_bytes());
    writeln!(err, "nugwier: {path}: {told}")?;
    err.flush()
}
