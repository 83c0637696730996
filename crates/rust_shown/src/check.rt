//! What does not resolve in a crate, each with its line.

use crate::described::spot_value;
use crate::json::write_list;
use crate::lines::write_line_of;
use rust_codebase::Codebase;
use rust_names::Names;
use rust_reports::{At, Checked, Report};
use serde_json::{Value, json};
use source_lines::LineColumn;
use std::alloc::AllocError;
use std::io;

/// How reports are written.
#[derive(Clone, Copy, PartialEq, Eq, Debug)]
pub enum Form {
    /// With the lines that they speak of, and what is left out and over.
    Whole,
    /// A line each.
    Quiet,
    Json,
}

/// Writes a report in a line, and the line that it speaks of where it is asked for.
fn write_report<C: Codebase, O: io::Write>(
    names: &Names<'_, C>,
    report: &Report,
    has_excerpt: bool,
    out: &mut O,
) -> io::Result<()> {
    let what = report.what.as_str();
    match &report.at {
        At::Spot(spot) => {
            let path = names.places.path(spot.source);
            let LineColumn { line, column } = names.places.line_column(*spot)?;
            writeln!(out, "{path}:{line}:{column}: {what}")?;
            if has_excerpt {
                write_line_of(names, *spot, out)?;
            }
            Ok(())
        }
        At::Path(path) => {
            let path = path.as_str();
            writeln!(out, "{path}: {what}")
        }
        At::Nowhere => writeln!(out, "{what}"),
    }
}

/// Writes what is left out: crates that are not given, and macros that are not run.
fn write_left_out<O: io::Write>(checked: &Checked, out: &mut O) -> io::Result<()> {
    for (name, count) in checked.absent.iter() {
        let (name, count) = (name.as_str(), *count);
        writeln!(
            out,
            "the crate `{name}` is not given; imports from it: {count}"
        )?;
    }
    for (what, count) in checked.reports.not_run.iter() {
        let (what, count) = (what.as_str(), *count);
        writeln!(out, "{what} is not run; calls: {count}")?;
    }
    Ok(())
}

/// Writes how much there is, and what is left over.
fn write_summary<O: io::Write>(checked: &Checked, out: &mut O) -> io::Result<()> {
    let (modules, expanded) = (checked.modules, checked.expanded);
    let (imports, macros) = (checked.imports, checked.macros);
    let reported = checked.reports.list.len();
    let left_out = checked.reports.left_out;
    writeln!(out, "modules: {modules}, macro calls expanded: {expanded}")?;
    let elsewhere = checked.reports.elsewhere;
    if elsewhere > 0 {
        writeln!(out, "faults in crates that it depends on: {elsewhere}")?;
    }
    if checked.limit_met {
        writeln!(out, "the limit of passes over the macros was met")?;
    }
    writeln!(
        out,
        "left over: {imports} imports, {macros} macro calls; \
         left out: {left_out}; reported: {reported}"
    )
}

/// Writes what was found of a crate.
pub fn write_checked<C: Codebase, O: io::Write>(
    names: &Names<'_, C>,
    checked: &Checked,
    form: Form,
    out: &mut O,
) -> io::Result<()> {
    if form == Form::Json {
        return write_checked_json(names, checked, out);
    }
    for report in checked.reports.list.iter() {
        write_report(names, report, form == Form::Whole, out)?;
    }
    if form == Form::Whole {
        write_left_out(checked, out)?;
        write_summary(checked, out)?;
    }
    Ok(())
}

/// A report as JSON.
fn report_value<C: Codebase>(names: &Names<'_, C>, report: &Report) -> Result<Value, AllocError> {
    let at = match &report.at {
        At::Spot(spot) => spot_value(names, Some(*spot))?,
        At::Path(path) => {
            let path = path.as_str();
            json!(in names.alloc; {"path": path})?
        }
        At::Nowhere => Value::Null,
    };
    let (kind, what) = (report.kind, report.what.as_str());
    json!(in names.alloc; {"at": at, "kind": kind, "what": what})
}

/// The reports as JSON.
fn report_values<C: Codebase>(
    names: &Names<'_, C>,
    reports: &[Report],
) -> Result<Vec<Value>, AllocError> {
    let mut values = Vec::new(names.alloc);
    for report in reports {
        values.push(report_value(names, report)?)?;
    }
    Ok(values)
}

/// The crates that are not given as JSON.
fn absent_values<C: Codebase>(
    names: &Names<'_, C>,
    checked: &Checked,
) -> Result<Vec<Value>, AllocError> {
    let mut values = Vec::new(names.alloc);
    for (name, count) in checked.absent.iter() {
        let (name, count) = (name.as_str(), *count as u64);
        values.push(json!(in names.alloc; {"crate": name, "imports": count})?)?;
    }
    Ok(values)
}

/// The macros that are not run as JSON.
fn not_run_values<C: Codebase>(
    names: &Names<'_, C>,
    checked: &Checked,
) -> Result<Vec<Value>, AllocError> {
    let mut values = Vec::new(names.alloc);
    for (what, count) in checked.reports.not_run.iter() {
        let (what, count) = (what.as_str(), *count as u64);
        values.push(json!(in names.alloc; {"macro": what, "calls": count})?)?;
    }
    Ok(values)
}

/// Writes what was found of a crate as one value in JSON, each report in a line of its own.
fn write_checked_json<C: Codebase, O: io::Write>(
    names: &Names<'_, C>,
    checked: &Checked,
    out: &mut O,
) -> io::Result<()> {
    write!(out, "{{\"reports\": ")?;
    let reports = report_values(names, checked.reports.list.as_slice())?;
    write_list(names.alloc, reports.as_slice(), out)?;
    write!(out, ", \"not_given\": ")?;
    write_list(names.alloc, absent_values(names, checked)?.as_slice(), out)?;
    write!(out, ", \"not_run\": ")?;
    write_list(names.alloc, not_run_values(names, checked)?.as_slice(), out)?;
    let (imports, macros) = (checked.imports, checked.macros);
    writeln!(
        out,
        ", \"left_over\": {{\"imports\": {imports}, \"macros\": {macros}}}}}"
    )
}
