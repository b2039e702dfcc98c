//! Expressions: the nodes that they are written out as, or their fault; what their bracket expressions list; and where
//! one ends between its delimiters.
//!
//! The nodes are written in their order, each after its parts: a byte for itself, `.` other sets, `0` the null string, `B` and
//! `E` the anchors, `;` one after the other, `|` an alternation, `G` and its number a group, `*` and `?` the first of a
//! repetition, `s` and `o` its rest. Where there are many, `601 nodes` says only how many.

use crate::faults::put_expression_fault;
use crate::options::delimiter_in;
use crate::report::Report;
use crate::sheet::Sheet;
use crate::table::SheetRow;
use sedre::{Expr, ExprFault, Kind, Node, Steps, delimited, read};

/// The kind of a name.
pub(crate) fn kind_named(name: &[u8]) -> Kind {
    if name == b"basic".as_slice() {
        Kind::Basic
    } else {
        Kind::Extended
    }
}

/// Runs a row.
pub(crate) fn run(row: &SheetRow, report: &mut Report) {
    let options = row.options(4);
    let (kind, nodes) = (kind_named(row.field(0)), options.nodes_or(65536));
    match read(row.alloc, kind, row.field(1), options.delimiter(), nodes) {
        Ok(expr) => compare_expression(row, &expr, report),
        Err(fault) => compare_fault(row, &fault, report),
    }
}

/// Whether the expression is the wanted one.
fn compare_expression(row: &SheetRow, expr: &Expr, report: &mut Report) {
    let mut came = Sheet::new(row.alloc);
    put_nodes(&mut came, expr, row.field(2).ends_with(b" nodes"));
    report.compare_sheet("the nodes", &came, row.field(2));
    report.compare_numbers("the groups", expr.groups() as u128, row.number(3));
}

/// Whether the fault is the wanted one.
fn compare_fault(row: &SheetRow, fault: &ExprFault, report: &mut Report) {
    let mut came = Sheet::new(row.alloc);
    put_expression_fault(&mut came, fault);
    report.compare_faults(&came, row.field(2));
    report.compare_numbers("the place", fault.place as u128, row.number(3));
}

/// The nodes in their order, or how many there are.
fn put_nodes(sheet: &mut Sheet, expr: &Expr, is_count: bool) {
    if is_count {
        return sheet.put_text(format_args!("{} nodes", expr.nodes()));
    }
    for i in 0..expr.nodes() {
        put_node(sheet, expr.look(expr.id(i), &mut Steps::new()));
    }
}

/// What stands for a node.
fn put_node(sheet: &mut Sheet, node: Node) {
    match node {
        Node::Empty => sheet.put_byte(b'0'),
        Node::Set(set) => sheet.put_byte(set.sole().unwrap_or(b'.')),
        Node::Begin => sheet.put_byte(b'B'),
        Node::End => sheet.put_byte(b'E'),
        Node::Seq(_, _) => sheet.put_byte(b';'),
        Node::Alt(_, _) => sheet.put_byte(b'|'),
        // the last digit of a group's number
        Node::Group(number, _) => sheet.put_text(format_args!("G{}", number % 10)),
        Node::Star(_, is_first) => sheet.put_byte(if is_first { b'*' } else { b's' }),
        Node::Opt(_, is_first) => sheet.put_byte(if is_first { b'?' } else { b'o' }),
    }
}

/// Runs a row of lists: a bracket expression is read as a basic and as an extended expression, alone and with what follows.
pub(crate) fn run_list(row: &SheetRow, report: &mut Report) {
    let text = row.field(0);
    let end = row.number(1);
    if end > text.len() {
        return report.say("the place is past the text");
    }
    for kind in [Kind::Basic, Kind::Extended] {
        compare_list(row, kind, &text[..end], true, report);
        compare_list(row, kind, text, end == text.len(), report);
    }
}

/// Whether the list that the text begins with, and is where `is_alone`, has the wanted bytes.
fn compare_list(row: &SheetRow, kind: Kind, text: &[u8], is_alone: bool, report: &mut Report) {
    let Ok(expr) = read(row.alloc, kind, text, row.options(4).delimiter(), 100) else {
        return report.say("the text is no expression");
    };
    if expr.nodes() > 0 && (expr.nodes() == 1) == is_alone {
        compare_set(row, expr.look(expr.id(0), &mut Steps::new()), report);
    } else {
        report.say("the list ends at another place");
    }
}

/// Whether the set has the bytes that are listed, or those that are not.
fn compare_set(row: &SheetRow, node: Node, report: &mut Report) {
    let Node::Set(set) = node else {
        return report.say("the expression doesn't begin with a set");
    };
    for b in 0..=255u8 {
        let came = set.has(b);
        let wanted = row.field(3).contains(&b) != (row.field(2) == b"not".as_slice());
        if came != wanted {
            report.say(format_args!("whether it has the byte {b}: came {came}"));
        }
    }
}

/// Runs a row of delimiters.
pub(crate) fn run_delimited(row: &SheetRow, report: &mut Report) {
    let mut came = Sheet::new(row.alloc);
    if let Some(delimiter) = delimiter_in(row.field(2)) {
        match delimited(row.field(0), row.number(1), delimiter) {
            Some(place) => came.put_text(place),
            None => came.put(b"none"),
        }
    }
    report.compare_sheet("the end", &came, row.field(3));
}
