//! Rows of tables, run through the libraries, and the calls of `benches`. It has no contract of its own to keep: it is a test.
//!
//!     rows [tables] [CALL TEXT]..
//!
//! The file `tables` names the tables, a line each: what its rows are, and its file. How many rows of each ran is
//! written to the standard output, and each row that failed is named there by its file and line, with what came and
//! what the row says. The status is 0 where no row failed.
#![tactic(auto)]

mod by_hosts;
mod calls;
mod decoder;
mod devices;
mod expressions;
mod faults;
mod job;
mod matches;
mod options;
mod readings;
mod refusals;
mod report;
mod runner;
mod runs;
mod shape;
mod sheet;
mod table;

use anyhow::{Context, Result, bail};
use report::Report;
use shape::have_shape;
use std::process::ExitCode;
use std::{env, fs, str};
use table::{SheetRow, rows_of};

/// The rows of the table in a file.
fn table_in(rt: &HostRuntime, name: &str) -> Result<Vec<SheetRow>> {
    let text = fs::read_to_string(rt, name).context("a table can't be read")?;
    match rows_of(rt.alloc(), text.as_str()) {
        Ok(rows) => Ok(rows),
        Err(line) => bail!("{name}:{line}: an escape means nothing or isn't closed, or no memory"),
    }
}

/// Runs a row of a subject.
fn run(subject: &str, row: &SheetRow, report: &mut Report) {
    if !have_shape(row.fields.as_slice(), subject) {
        return report.say("a field or an option isn't as it has to be");
    }
    match subject {
        "expressions" => expressions::run(row, report),
        "lists" => expressions::run_list(row, report),
        "delimiters" => expressions::run_delimited(row, report),
        "matches" => matches::run(row, Some(row.number(3)), report),
        "occurrences" => matches::run(row, None, report),
        "refusals" => refusals::run(row, report),
        "readings" => readings::run(row, report),
        "runs" => runs::run(row, report),
        "failing" => runs::run_failing(row, report),
        "cycles" => runs::run_cycle(row, report),
        "limits" => job::run_limits(row, report),
        "calls" => calls::run(row, report),
        "own_limits" => by_hosts::run_within_limits(row, report),
        "by_cycles" => by_hosts::run_by_cycles(row, report),
        _ => report.say("no rows are of this kind"),
    }
}

/// Runs a row of a table, and names it where it fails. Says whether it holds.
fn run_row(rt: &HostRuntime, subject: &str, name: &str, row: &SheetRow) -> bool {
    let mut report = Report::new(rt.alloc());
    run(subject, row, &mut report);
    let holds = report.is_empty();
    if !holds {
        let difference = str::from_utf8(report.bytes.as_slice()).unwrap_or("a difference");
        // a line that can't be written is missed where the output is compared
        let _ = println!(rt; "{name}:{}: {difference}", row.line);
    }
    holds
}

/// Runs the rows of a table, and writes how many of them fail. Gives that number.
fn run_table(rt: &HostRuntime, subject: &str, name: &str, table: &[SheetRow]) -> usize {
    let mut failed = 0usize;
    for row in table {
        if !run_row(rt, subject, name, row) {
            failed = failed.saturating_add(1);
        }
    }
    let _ = println!(rt; "{name}: {} rows, {failed} failed", table.len());
    failed
}

/// Runs all tables, and writes how many rows fail. Gives that number.
fn run_tables(rt: &HostRuntime) -> Result<usize> {
    let (mut rows, mut failed) = (0usize, 0usize);
    let tables = table_in(rt, "tables")?;
    for row in tables.as_slice() {
        let (subject, name) = (row.text(0), row.text(1));
        let table = table_in(rt, name)?;
        rows = rows.saturating_add(table.len());
        failed = failed.saturating_add(run_table(rt, subject, name, table.as_slice()));
    }
    let _ = println!(rt; "{rows} rows, {failed} failed");
    Ok(failed)
}

/// Runs all tables where the first word says so, and makes the calls that the others name. Gives how many rows fail.
fn run_words(rt: &HostRuntime, words: &[String]) -> Result<usize> {
    let (failed, calls) = match words.split_first() {
        Some((first, others)) if first.as_str() == "tables" => (run_tables(rt)?, others),
        _ => (0, words),
    };
    benches::make_all(rt, calls)?;
    Ok(failed)
}

fn main(rt: HostRuntime) -> Result<ExitCode> {
    let words: Vec<String> = env::args(&rt)?.skip(1).collect(rt.alloc())?;
    let failed = run_words(&rt, words.as_slice())?;
    Ok(ExitCode::from(u8::from(failed > 0)))
}
