//! Expressions over texts: the match and its groups, or all occurrences, one after another, each with its groups. The heads
//! of the tables name their fields.
//!
//! By tables `is_match` has to answer the same as `find`, and from the text's beginning on the occurrences and their groups have
//! to: by tables of 1,537 states at most, of 64, of two, which are emptied again and again, and of none.

ghost use Rattle.std.specs.Prelude.{◌≡◌, ◌≤◌, ◌^◌, [], ◌∷◌, IfOk, IfSome, length};
ghost use Rattle.sedmatch.specs.Occurrences.{RoomFor};
ghost use Rattle.sedmatch.specs.SearchRoom.{FitInto};

use crate::expressions::kind_named;
use crate::options::Options;
use crate::report::{NO_MEMORY, Report};
use crate::sheet::Sheet;
use crate::table::SheetRow;
use sedmatch::{Occurrences, Scratch, TableMatcher, TableRoom, Text, find};
use sedre::{Expr, Steps, read};
use std::alloc::{AllocError, Global};
use std::slice;

/// The most states of the tables by which a text is searched.
const STATES: [usize; 4] = [1537, 64, 2, 0];

/// What going over occurrences comes to.
#[derive(Clone, Copy)]
struct Occurred {
    count: usize,
    steps: u128,
    group_steps: u128,
}

/// Runs a row: reads the expression, and seeks the match from a place on, or all occurrences where none is given.
pub(crate) fn run(row: &SheetRow, from: Option<usize>, report: &mut Report) {
    let kind = kind_named(row.field(0));
    match read(row.alloc, kind, row.field(1), None, 65536) {
        Ok(expr) => run_over(row, &expr, row.field(2), from, report),
        Err(_) => report.say("the expression has a fault"),
    }
}

/// Searches the text by an expression that is used once, where there is a place, and by tables of each size.
fn run_over(row: &SheetRow, expr: &Expr, text: &[u8], from: Option<usize>, report: &mut Report) {
    let nodes = expr.nodes();
    let place = from.unwrap_or(0);
    if nodes < 1 || nodes > 65536 || text.len() > 1 << 20 || place > text.len() {
        return report.say("the text is too long, or the search begins past it");
    }
    let Ok(mut scratch) = Scratch::new(row.alloc, text.len(), nodes) else {
        return report.say(NO_MEMORY);
    };
    if from.is_some() {
        run_once(row, expr, &Text::new(text), place, &mut scratch, report);
    }
    run_tables(row, expr, text, from, &mut scratch, report);
    scratch.close();
}

/// Whether the search for an expression that is used once answers what the row says.
fn run_once(
    row: &SheetRow,
    expr: &Expr,
    text: &Text,
    from: usize,
    scratch: &mut Scratch,
    report: &mut Report,
)
    requires from { from ≤ length text.now }
    requires fits { FitInto (length text.now) (length expr.now.nodes) scratch.old }
    ensures { scratch.new ≡ scratch.old }
{
    let mut steps = Steps::new();
    let found = find(expr, text, from, scratch, &mut steps);
    compare_steps("most", "least", steps.count(), row.options(5), report);
    let mut came = Sheet::new(row.alloc);
    match &found {
        Some(found) => put_spans(&mut came, &found.groups, expr.groups()),
        None => came.put(b"none"),
    }
    report.compare_sheet("the match", &came, row.field(4));
}

/// Searches by tables of each size.
fn run_tables(
    row: &SheetRow,
    expr: &Expr,
    text: &[u8],
    from: Option<usize>,
    scratch: &mut Scratch,
    report: &mut Report,
)
    requires from { IfSome from (λ place. place ≤ length text.now) }
    requires fits { FitInto (length text.now) (length expr.now.nodes) scratch.old }
    requires text { length text.now ≤ 2 ^ 20 }
    requires some { 1 ≤ length expr.now.nodes }
{
    'sizes: for states in STATES {
        run_table(row, expr, states, text, from, scratch, report);
    }
}

/// Searches by tables of at most so many states, where no difference was found before.
fn run_table(
    row: &SheetRow,
    expr: &Expr,
    states: usize,
    text: &[u8],
    from: Option<usize>,
    scratch: &mut Scratch,
    report: &mut Report,
)
    requires from { IfSome from (λ place. place ≤ length text.now) }
    requires fits { FitInto (length text.now) (length expr.now.nodes) scratch.old }
    requires text { length text.now ≤ 2 ^ 20 }
    requires some { 1 ≤ length expr.now.nodes }
    ensures { scratch.new ≡ scratch.old }
{
    if !report.is_empty() {
        return;
    }
    let bytes = states.saturating_mul(1 << 20);
    let room = TableRoom { states, bytes };
    let made = TableMatcher::new(row.alloc, expr, room, &mut Steps::new());
    let Ok(mut matcher) = made else {
        return report.say(NO_MEMORY);
    };
    if let Some(place) = from {
        let is_match = matcher.is_match(&Text::new(text), place, scratch, &mut Steps::new());
        if is_match == (row.field(4) == b"none".as_slice()) {
            report.say("is_match answers otherwise");
        }
    }
    if from.unwrap_or(0) == 0 {
        seek(row, expr, &mut matcher, text, from, scratch, report);
    }
    matcher.close();
    report.note(" by tables of at most so many states: ", states);
}

/// Room to seek occurrences of an expression in a text, by one matcher.
fn room_to_seek(
    alloc: Global,
    expr: &Expr,
    matcher: &TableMatcher,
    text: &[u8],
) -> Result<Occurrences, AllocError>
    requires matcher { matcher.now ≡ expr.now }
    requires text { length text.now ≤ 2 ^ 20 }
    requires some { 1 ≤ length expr.now.nodes }
    ensures { IfOk result (RoomFor (length text.now) (matcher.now ∷ [])) }
{
    Occurrences::new(alloc, text.len(), expr.nodes(), slice::from_ref(matcher))
}

/// Seeks the first occurrence, or all where no place is given.
fn seek(
    row: &SheetRow,
    expr: &Expr,
    matcher: &mut TableMatcher,
    text: &[u8],
    from: Option<usize>,
    scratch: &mut Scratch,
    report: &mut Report,
)
    requires matcher { matcher.old ≡ expr.now }
    requires fits { FitInto (length text.now) (length matcher.old.nodes) scratch.old }
    requires text { length text.now ≤ 2 ^ 20 }
    requires some { 1 ≤ length expr.now.nodes }
    ensures { scratch.new ≡ scratch.old }
{
    let most = if from.is_some() { 1 } else { text.len() + 2 };
    match room_to_seek(row.alloc, expr, matcher, text) {
        Ok(mut seeking) => {
            let text = Text::new(text);
            let mut came = Sheet::new(row.alloc);
            let all = all_of(
                &mut came,
                matcher,
                expr.groups(),
                &text,
                most,
                &mut seeking,
                scratch,
            );
            compare(row, from, came, &all, report);
            seeking.close();
        }
        Err(_) => report.say(NO_MEMORY),
    }
}

/// Goes over so many occurrences at most, and writes the spans of each.
fn all_of(
    sheet: &mut Sheet,
    matcher: &mut TableMatcher,
    groups: usize,
    text: &Text,
    most: usize,
    seeking: &mut Occurrences,
    scratch: &mut Scratch,
) -> Occurred
    requires fits { FitInto (length text.now) (length matcher.old.nodes) scratch.old }
    requires room { RoomFor (length text.now) (matcher.old ∷ []) seeking.old }
    ensures { scratch.new ≡ scratch.old }
{
    let mut steps = Steps::new();
    let mut group_steps = Steps::new();
    let mut last = None;
    let mut count = 0usize;
    seeking.begin(0);
    'occurrences: for _ in 0..most {
        let Some((start, end)) = matcher.next_occurrence(text, last, seeking, scratch, &mut steps)
        else {
            break;
        };
        let spans = matcher.groups_of(text, start, end, scratch, &mut group_steps);
        if count > 0 {
            sheet.put(b" ");
        }
        put_spans(sheet, &spans, groups);
        count = count.saturating_add(1);
        last = Some(end);
    }
    Occurred {
        count,
        steps: steps.count(),
        group_steps: group_steps.count(),
    }
}

/// Whether the first occurrence, where a place is given, or all of them are what the row says.
fn compare(
    row: &SheetRow,
    from: Option<usize>,
    mut came: Sheet,
    all: &Occurred,
    report: &mut Report,
) {
    if from.is_some() {
        let steps = all.steps.saturating_add(all.group_steps);
        compare_steps("most", "least", steps, row.options(5), report);
        if all.count == 0 {
            came.put(b"none");
        }
        return report.compare_sheet("the match", &came, row.field(4));
    }
    let (wanted, options) = (row.field(3), row.options(4));
    compare_steps("most", "least", all.steps, options, report);
    compare_steps(
        "groups_most",
        "groups_least",
        all.group_steps,
        options,
        report,
    );
    if wanted.ends_with(b" occurrences") {
        came.bytes.clear();
        came.put_text(format_args!("{} occurrences", all.count));
    }
    report.compare_sheet("the occurrences", &came, wanted);
}

/// Whether there are as many steps as the options of these names say.
fn compare_steps(most: &str, least: &str, steps: u128, options: Options<'_>, report: &mut Report) {
    let least = options.number_or(least.as_bytes(), 0);
    let most = options.number_or(most.as_bytes(), usize::MAX);
    if steps < least as u128 || (most as u128) < steps {
        report.say(format_args!("steps: came {steps}"));
    }
}

/// The spans of a match and of so many groups, of nine at most.
fn put_spans(sheet: &mut Sheet, spans: &[Option<(usize, usize)>; 10], groups: usize) {
    for span in &spans[..groups.min(9) + 1] {
        match *span {
            Some((start, end)) => sheet.put_text(format_args!("({start},{end})")),
            None => sheet.put(b"(?,?)"),
        }
    }
}
