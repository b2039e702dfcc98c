//! Scripts with a fault, and scripts without one. The heads of the tables name their fields.

use crate::faults::put_script_fault;
use crate::report::Report;
use crate::sheet::Sheet;
use crate::table::SheetRow;
use sededit::script;
use sedscript::{Reason, ScriptFault};

/// Runs a row.
pub(crate) fn run(row: &SheetRow, report: &mut Report) {
    let options = row.options(2);
    // the program's most nodes, where the row doesn't say
    let nodes = options.nodes_or(16384);
    match script(row.alloc, row.field(0), options.kind(), nodes) {
        Ok(script) => {
            script.close();
            report.compare("the fault", b"none", row.field(1));
        }
        Err(fault) => compare_fault(row, &fault, report),
    }
}

/// Whether the fault is the wanted one, and at its place.
fn compare_fault(row: &SheetRow, fault: &ScriptFault, report: &mut Report) {
    let mut came = Sheet::new(row.alloc);
    put_script_fault(&mut came, fault);
    report.compare_faults(&came, row.field(1));
    report.compare_numbers("the place", fault.place as u128, row.number(2));
    if let Some(place) = row.options(3).number(b"inside") {
        // the place of an expression's fault within it; of another, that in the script
        let inside = match fault.reason {
            Reason::Expression(inner) => inner.place,
            _ => fault.place,
        };
        report.compare_numbers("the place inside", inside as u128, place);
    }
}
