//! The command `s` (XCU sed, "Editing Commands in sed"): which occurrences it replaces, and the text that it makes.
ghost use Rattle.std.specs.Prelude.{◌≡◌, ◌+◌, ◌-◌, ◌*◌, ◌<◌, ◌≤◌, [], ◌∷◌, length, true, Some, None};
ghost use Rattle.sedre.specs.Tree.{expression_tree};
ghost use Rattle.sedre.specs.Steps.{CostsWithin, Takes};
ghost use Rattle.sedmatch.specs.Following.{EndsWithin, LiesOn};
ghost use Rattle.sedmatch.specs.Occurrences.{KeepsRoom, ServesFrom, ServesOn, owed, owed_after};
ghost use Rattle.sedmatch.specs.SearchRoom.{FitInto};
ghost use Rattle.sedmatch.specs.Groups.{group_depth};
ghost use Rattle.sedmatch.specs.Matching.{reported_groups};
ghost use Rattle.sedmatch.specs.Spans.{Matches};
ghost use Rattle.sedscript.specs.Pieces.{PieceGroupsWithin, pieces_in};
ghost use Rattle.sedacts.specs.Substitute.{to_replace, each_occurrence, put_for, replaced_from};
ghost use Rattle.sedacts.specs.State.{search_for};
ghost use Rattle.sedacts.specs.SubstituteParts.{Appends, GroupsIn, GroupsOf, IsNextOccurrence, ReplacesThese, SeeksAsBefore};
ghost use Rattle.sedacts.specs.SubstituteParts.{ServesAfter, Skips, names_group, later_cost, owed_skipped, owed_groups};
ghost use Rattle.sedacts.specs.SubstituteParts.{owed_groups_after, pending, groups_cost, with_groups};

use sedmatch::{Occurrences, Scratch, TableMatcher, Text};
use sedre::Steps;
use sedscript::{ReplacementPart, Substitution};
use sedspace::{Full, Space};

/// The span of each group of an occurrence.
type GroupSpans = [Option<(usize, usize)>; 10];

/// What a substitution replaces with, and the text in which it does.
#[derive(Clone, Copy)]
struct Replacing<'a> {
    substitution: &'a Substitution,
    text: &'a [u8],
    // Whether the replacement has a group, so that groups are to be found.
    wanted: bool,
}

/// The groups of the last occurrence of substitutions, one after another, and the steps that occurrences took.
// A machine keeps one, since making it for each line costs as much as a short search.
#[derive(Drop)]
pub struct Findings {
    /// The groups of the last occurrence in which they were found, perhaps in an earlier text.
    groups: GroupSpans,
    /// The steps of the searches.
    steps: Steps,
    /// The steps of finding groups.
    group_steps: Steps,
}

impl Findings {
    /// Nothing was found yet.
    pub fn new() -> Self
        ensures { (result.steps ≡ 0) × (result.group_steps ≡ 0) }
    {
        Self {
            groups: [None; 10],
            steps: Steps::new(),
            group_steps: Steps::new(),
        }
    }
}

/// Writes into `build` the text with the occurrences that the substitution chooses replaced, and answers whether there are
/// any.
///
/// Its searches together take steps in proportion to the text. Groups are found within each occurrence that is replaced; their
/// steps, counted by themselves, are in proportion to the text together too.
pub fn build_text(
    substitution: &Substitution,
    text: &[u8],
    matcher: &mut TableMatcher,
    build: &mut Space,
    seeking: &mut Occurrences,
    scratch: &mut Scratch,
    findings: &mut Findings,
) -> Result<bool, Full>
    requires fits { FitInto (length text.now) (length matcher.old.nodes) scratch.old }
    requires short { length text.now ≤ build.old.limit }
    requires number { 1 ≤ substitution.now.number }
    requires serves { ServesFrom matcher.old text.now None seeking.old }
    ensures replaces { ReplacesThese text.now substitution.now.replacement
        (to_replace substitution.now.number substitution.now.global
        (each_occurrence (search_for matcher.old text.now) (length text.now)))
        build.old.limit build.new.bytes result }
    ensures limit { build.new.limit ≡ build.old.limit }
    ensures same { SeeksAsBefore matcher.old matcher.new scratch.old scratch.new }
    ensures kept { KeepsRoom matcher.old seeking.old seeking.new }
    ensures cost { Takes findings.old.steps findings.new.steps (416 * length matcher.old.nodes * (length text.now + 1)) }
    ensures group_cost { let m = length matcher.old.nodes in let n = length text.now in
        Takes findings.old.group_steps findings.new.group_steps (51 * m * m * (n + 1) * (n + 1)
        * length (to_replace substitution.now.number substitution.now.global
        (each_occurrence (search_for matcher.old text.now) n))) }
    ensures linear_group_cost { let m = length matcher.old.nodes in let n = length text.now in
        Takes findings.old.group_steps findings.new.group_steps (172 * m * (group_depth (expression_tree matcher.old) + 1) * (n + 1)) }
    ensures cost_together { let m = length matcher.old.nodes in let n = length text.now in
        findings.new.steps + findings.new.group_steps ≤ findings.old.steps + findings.old.group_steps
        + 588 * m * (group_depth (expression_tree matcher.old) + 1) * (n + 1) }
{
    let skipped = substitution.number - 1;
    let Some(last) = end_of_skipped(matcher, text, skipped, seeking, scratch, findings) else {
        return Ok(false);
    };
    let wanted = needs_groups(substitution.replacement.parts());
    let Some(first) = next_occurrence(matcher, text, last, wanted, seeking, scratch, findings)
    else {
        return Ok(false);
    };
    build.clear();
    append_replaced(
        Replacing {
            substitution,
            text,
            wanted,
        },
        matcher,
        first,
        build,
        seeking,
        scratch,
        findings,
    )?;
    Ok(true)
}

/// Where the last of the first `count` occurrences ended: `Some(None)` if `count` is 0, and None if there are fewer.
fn end_of_skipped(
    matcher: &mut TableMatcher,
    text: &[u8],
    count: u64,
    seeking: &mut Occurrences,
    scratch: &mut Scratch,
    findings: &mut Findings,
) -> Option<Option<usize>>
    requires fits { FitInto (length text.now) (length matcher.old.nodes) scratch.old }
    requires serves { ServesFrom matcher.old text.now None seeking.old }
    ensures skips { Skips matcher.old text.now count result }
    ensures same { SeeksAsBefore matcher.old matcher.new scratch.old scratch.new }
    ensures serves { ServesAfter matcher.old text.now result seeking.old seeking.new }
    ensures cost { let m = length matcher.old.nodes in let n = length text.now in
        CostsWithin findings.old.steps findings.new.steps (416 * m * (n + 1)) (owed_skipped m n result seeking.new) }
    ensures no_groups { findings.new.group_steps ≡ findings.old.group_steps }
{
    let mut last = None;
    'occurrences: for _ in 0..count {
        let (_, end) = next_occurrence(matcher, text, last, false, seeking, scratch, findings)?;
        last = Some(end);
    }
    Some(last)
}

/// Whether a replacement has a group of the match.
fn needs_groups(parts: &[ReplacementPart]) -> bool
    ensures { result ≡ names_group (pieces_in parts.now) }
{
    for part in parts {
        if let ReplacementPart::Group(_) = part {
            return true;
        }
    }
    false
}

/// The next occurrence, after the one that ended at `last`, if there was one. Its groups are found if they are `wanted`.
// Inlined, since on a line with many occurrences the cost of the call itself matters.
#[inline(always)]
fn next_occurrence(
    matcher: &mut TableMatcher,
    text: &[u8],
    last: Option<usize>,
    wanted: bool,
    seeking: &mut Occurrences,
    scratch: &mut Scratch,
    findings: &mut Findings,
) -> Option<(usize, usize)>
    requires last { EndsWithin (length text.now) last }
    requires fits { FitInto (length text.now) (length matcher.old.nodes) scratch.old }
    requires serves { ServesFrom matcher.old text.now last seeking.old }
    ensures next { IsNextOccurrence matcher.old text.now last result }
    ensures groups { GroupsOf matcher.old text.now wanted result findings.new.groups }
    ensures same { SeeksAsBefore matcher.old matcher.new scratch.old scratch.new }
    ensures serves { ServesOn matcher.old text.now result seeking.old seeking.new }
    ensures cost { let m = length matcher.old.nodes in let n = length text.now in
        CostsWithin findings.old.steps findings.new.steps (owed m n last seeking.old) (owed_after m n result seeking.new) }
    ensures group_cost { let m = length matcher.old.nodes in let n = length text.now in
        Takes findings.old.group_steps findings.new.group_steps (groups_cost result wanted (51 * m * m * (n + 1) * (n + 1))) }
    ensures linear_group_cost { let n = length text.now in
        CostsWithin findings.old.group_steps findings.new.group_steps (owed_groups matcher.old n last) (owed_groups_after matcher.old n result) }
{
    let steps = &mut findings.steps;
    let span = matcher.next_occurrence(&Text::new(text), last, seeking, scratch, steps)?;
    if wanted {
        decide_groups(matcher, text, span, scratch, findings);
    }
    Some(span)
}

/// Decides the groups of an occurrence, within its span alone.
// It is no part of its caller, which would clear the room for the groups at each call.
#[inline(never)]
fn decide_groups(
    matcher: &mut TableMatcher,
    text: &[u8],
    span: (usize, usize),
    scratch: &mut Scratch,
    findings: &mut Findings,
)
    requires text { length text.now ≤ scratch.old.text }
    requires nodes { length matcher.old.nodes ≤ scratch.old.nodes }
    requires lies { (span.0 ≤ span.1) × (span.1 ≤ length text.now) }
    requires spans { Matches (expression_tree matcher.old) text.now span.0 span.1 }
    ensures same { matcher.new ≡ matcher.old }
    ensures groups { findings.new.groups ≡ reported_groups (expression_tree matcher.old) text.now span.0 span.1 }
    ensures groups_in { GroupsIn (length text.now) findings.new.groups }
    ensures searches { findings.new.steps ≡ findings.old.steps }
    ensures scratch { scratch.new ≡ scratch.old }
    ensures cost { let m = length matcher.old.nodes in let n = length text.now in
        Takes findings.old.group_steps findings.new.group_steps (51 * m * m * (n + 1) * (n + 1)) }
    ensures linear_cost { let m = length matcher.old.nodes in
        Takes findings.old.group_steps findings.new.group_steps (172 * m * group_depth (expression_tree matcher.old) * (span.1 - span.0) + 2 * m) }
{
    let steps = &mut findings.group_steps;
    findings.groups = matcher.groups_of(&Text::new(text), span.0, span.1, scratch, steps);
}

/// Appends the text with the first occurrence and, with the flag `g`, all after it replaced.
fn append_replaced(
    replacing: Replacing,
    matcher: &mut TableMatcher,
    first: (usize, usize),
    build: &mut Space,
    seeking: &mut Occurrences,
    scratch: &mut Scratch,
    findings: &mut Findings,
) -> Result<(), Full>
    requires fits { FitInto (length replacing.text.now) (length matcher.old.nodes) scratch.old }
    requires lies { LiesOn (length replacing.text.now) None first }
    requires groups { GroupsOf matcher.old replacing.text.now (names_group replacing.substitution.now.replacement) (Some first)
        findings.old.groups }
    requires serves { ServesFrom matcher.old replacing.text.now (Some first.1) seeking.old }
    requires wanted { replacing.wanted ≡ names_group replacing.substitution.now.replacement }
    ensures appends { Appends build.old build.new
        (replaced_from replacing.entry.text.now replacing.entry.substitution.now.replacement 0
        (pending matcher.old replacing.entry.text.now replacing.entry.substitution.now.global (Some first))) result }
    ensures same { SeeksAsBefore matcher.old matcher.new scratch.old scratch.new }
    ensures kept { KeepsRoom matcher.old seeking.old seeking.new }
    ensures cost { let m = length matcher.old.nodes in let n = length replacing.entry.text.now in
        Takes findings.old.steps findings.new.steps (owed m n (Some first.1) seeking.old) }
    ensures group_cost { let m = length matcher.old.nodes in let n = length replacing.entry.text.now in
        Takes findings.old.group_steps findings.new.group_steps (later_cost (51 * m * m * (n + 1) * (n + 1))
        (pending matcher.old replacing.entry.text.now replacing.entry.substitution.now.global (Some first))) }
    ensures linear_group_cost { let n = length replacing.entry.text.now in
        Takes findings.old.group_steps findings.new.group_steps (owed_groups matcher.old n (Some first.1)) }
{
    let Replacing {
        substitution,
        text,
        wanted,
    } = replacing;
    let parts = substitution.replacement.parts();
    let mut copied = 0;
    let mut occurrence = Some(first);
    'occurrences: while let Some(span) = occurrence {
        build.append(&text[copied..span.0])?;
        put(parts, span, &findings.groups, text, build)?;
        copied = span.1;
        let last = Some(copied);
        occurrence = if substitution.global {
            next_occurrence(matcher, text, last, wanted, seeking, scratch, findings)
        } else {
            None
        };
    }
    build.append(&text[copied..])
}

/// Appends what stands for an occurrence.
fn put(
    parts: &[ReplacementPart],
    span: (usize, usize),
    groups: &GroupSpans,
    text: &[u8],
    build: &mut Space,
) -> Result<(), Full>
    requires within { PieceGroupsWithin 9 (pieces_in parts.now) }
    requires lies { LiesOn (length text.now) None span }
    requires groups_in { names_group (pieces_in parts.now) ≡ true → GroupsIn (length text.now) groups.now }
    ensures { Appends build.old build.new
        (put_for text.now (with_groups span groups.now) (pieces_in parts.now)) result }
{
    for part in parts {
        put_part(part, span, groups, text, build)?;
    }
    Ok(())
}

/// Appends what stands for a part of the replacement: nothing for a group without a match.
fn put_part(
    part: &ReplacementPart,
    span: (usize, usize),
    groups: &GroupSpans,
    text: &[u8],
    build: &mut Space,
) -> Result<(), Full>
    requires within { PieceGroupsWithin 9 (pieces_in (part.now ∷ [])) }
    requires lies { LiesOn (length text.now) None span }
    requires groups_in { names_group (pieces_in (part.now ∷ [])) ≡ true → GroupsIn (length text.now) groups.now }
    ensures { Appends build.old build.new
        (put_for text.now (with_groups span groups.now) (pieces_in (part.now ∷ []))) result }
{
    match part {
        ReplacementPart::Literal(bytes) => build.append(bytes),
        ReplacementPart::Whole => build.append(&text[span.0..span.1]),
        ReplacementPart::Group(k) => match groups[*k] {
            None => Ok(()),
            Some((start, end)) => build.append(&text[start..end]),
        },
    }
}
