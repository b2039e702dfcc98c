//! Faults and ends as the program's messages and the rows write them.

use crate::sheet::Sheet;
use sedengine::Ended;
use sedre::ExprFault;
use sedscript::{Reason, ScriptFault};

/// The number and the name of an expression's fault, as `E5 OpenGroup`.
pub(crate) fn put_expression_fault(sheet: &mut Sheet, fault: &ExprFault) {
    let reason = fault.reason;
    sheet.put_text(format_args!("E{} {}", reason.number(), reason.name()));
}

/// The number and the name of a script's fault, as `S15 TrailingBytes`, of an expression's both.
pub(crate) fn put_script_fault(sheet: &mut Sheet, fault: &ScriptFault) {
    let reason = fault.reason;
    sheet.put_text(format_args!("S{} {}", reason.number(), reason.name()));
    if let Reason::Expression(inner) = reason {
        sheet.put(b": ");
        put_expression_fault(sheet, &inner);
    }
}

/// How a run ended, as `F1 line 2` or `F7 sink 0`.
pub(crate) fn put_end(sheet: &mut Sheet, end: Ended) {
    let (number, place) = match end {
        Ended::Done => (0, None),
        Ended::PatternFull(line) => (1, Some(line)),
        Ended::HoldFull(line) => (2, Some(line)),
        Ended::QueueFull(line) => (3, Some(line)),
        Ended::TurnsSpent => (4, None),
        Ended::NoPrevious(line) => (5, Some(line)),
        Ended::InputBroken => (6, None),
        Ended::OutputBroken(sink) => (7, Some(sink as u64)),
        Ended::OutputFull(sink) => (8, Some(sink as u64)),
    };
    sheet.put(&[b'F', b'0' + number]);
    if let Some(place) = place {
        sheet.put(if number < 7 { b" line " } else { b" sink " });
        sheet.put_text(place);
    }
}
