//! Scripts run by the hosts of the crate `hosts`. The heads of the tables name their fields.

use crate::faults::put_end;
use crate::report::Report;
use crate::sheet::Sheet;
use crate::table::SheetRow;
use anyhow::Error;
use hosts::{by_cycles, own_limits};
use sedengine::Ended;

/// Runs a row within the limits of a host.
pub(crate) fn run_within_limits(row: &SheetRow, report: &mut Report) {
    match own_limits::run(row.alloc, row.field(0), row.field(1)) {
        Ok((written, end)) => compare(row, written.as_slice(), Some(end), report),
        Err(error) => compare_refusal(row, error, report),
    }
}

/// Runs a row a cycle at a time.
pub(crate) fn run_by_cycles(row: &SheetRow, report: &mut Report) {
    match by_cycles::run(row.alloc, row.field(0), row.field(1)) {
        Ok((written, end)) => compare(row, written.as_slice(), end, report),
        Err(error) => compare_refusal(row, error, report),
    }
}

/// Whether the host came to what the row says: what was written, and the end where it came to one.
fn compare(row: &SheetRow, written: &[u8], end: Option<Ended>, report: &mut Report) {
    let mut came = Sheet::new(row.alloc);
    match end {
        Some(end) => put_end(&mut came, end),
        None => came.put(b"none"),
    }
    report.compare("the output", written, row.field(2));
    report.compare_sheet("the end", &came, row.field(3));
}

/// Whether the host refuses the script as the row says.
fn compare_refusal(row: &SheetRow, error: Error, report: &mut Report) {
    let mut came = Sheet::new(row.alloc);
    came.put_text(error);
    report.compare("the output", b"", row.field(2));
    report.compare_sheet("the refusal", &came, row.field(3));
}
