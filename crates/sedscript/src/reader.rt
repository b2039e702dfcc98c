//! The reader of scripts.

ghost use Rattle.std.specs.Prelude.{◌≡◌, ◌≤◌, ◌⊎◌, [], IfOk, IfErr, OnOk, length};
ghost use Rattle.sedscript.specs.Script.{CutScript, IsEnd, Means, is_quiet};
ghost use Rattle.sedscript.specs.Parts.{program_of};
ghost use Rattle.sedscript.specs.Ranges.{IsWithinRanges};
ghost use Rattle.sedscript.specs.FirstFault.{Faulty};
ghost use Rattle.sedscript.specs.Answers.{IsJudged};
ghost use Rattle.sedscript.specs.Tables.{TargetsAre};
ghost use Rattle.sedscript.specs.declared.types.ScriptFault.{ScriptFault};

use crate::commands::{commands_of, is_quiet, target_fault};
use crate::files::{Files, files_of};
use crate::item_reader::item_at;
use crate::items::{ItemOrEnd, Source};
use crate::packed::Items;
use crate::script::{Named, Operands, Script};
use crate::targets::{Targets, targets_of};
use crate::types::{Command, Kind, NO_MEMORY, ScriptFault};
use sedre::Expr;
use sedre::laws::{fault_within, reads_as_one};
use std::alloc::Global;

/// Answers where the last item of a text ends, and cuts the text into its items and regular expressions.
fn cut_text(source: &Source, items: &mut Items, exprs: &mut Vec<Expr>) -> Result<usize, ScriptFault>
    requires empty { (items.old ≡ []) × (exprs.old.items ≡ []) }
    ensures cut { IfOk result (λ to.
        CutScript source.now.text.now source.now.kind source.now.max_nodes 0 0 items.new exprs.new.items to
        × IsEnd source.now.text.now to) }
    ensures fault { IfErr result (λ f.
        Faulty source.now.text.now source.now.kind source.now.max_nodes f ⊎ (f ≡ NO_MEMORY)) }
{
    let mut at = 0;
    'items: loop {
        match item_at(source, exprs, at)? {
            ItemOrEnd::Ends => return Ok(at),
            ItemOrEnd::Is(item, next) => {
                items.push(item)?;
                at = next;
            }
        }
    }
}

/// Answers where the labels and blocks of a text lead, and cuts the text into its items and regular expressions; or the
/// first fault of either.
fn judge<'a>(
    source: &Source<'a>,
    items: &mut Items,
    exprs: &mut Vec<Expr>,
) -> Result<Targets<'a>, ScriptFault>
    requires empty { (items.old ≡ []) × (exprs.old.items ≡ []) }
    ensures judged { OnOk result
        (IsJudged source.now.text.now source.now.kind source.now.max_nodes items.new exprs.new.items) }
    ensures targets { IfOk result (λ t.
        TargetsAre source.now.text.now items.new t.labels t.ends.items t.commands) }
    ensures fault { IfErr result (λ f.
        Faulty source.now.text.now source.now.kind source.now.max_nodes f ⊎ (f ≡ NO_MEMORY)) }
{
    cut_text(source, items, exprs)?;
    let targets = targets_of(source.alloc, source.text, items)?;
    match target_fault(source.text, items, &targets) {
        Some(fault) => Err(fault),
        None => Ok(targets),
    }
}

/// The script of these parts. Of the files it keeps the names.
fn with_files(
    source: &Source,
    commands: Vec<Command>,
    exprs: Vec<Expr>,
    operands: Operands,
    files: Files,
) -> Script
    requires { IsWithinRanges (program_of commands.items
        (record { exprs = exprs; operands = operands; rfiles = files.read.names; wfiles = files.written.names })
        (is_quiet source.now.text.now) source.now.max_nodes) }
    ensures { result ≡ program_of commands.items
        (record { exprs = exprs; operands = operands; rfiles = files.entry.read.names; wfiles = files.entry.written.names })
        (is_quiet source.now.text.now) source.now.max_nodes }
{
    let Files { read, written } = files;
    let named = Named {
        exprs,
        operands,
        rfiles: read.names,
        wfiles: written.names,
    };
    Script::of(commands, named, is_quiet(source.text), source.max_nodes)
}

/// The script that these items and regular expressions of a text become.
fn script_of<'a>(
    source: &Source<'a>,
    items: &Items,
    targets: &Targets<'a>,
    exprs: Vec<Expr>,
) -> Result<Script, ScriptFault>
    requires judged { IsJudged source.now.text.now source.now.kind source.now.max_nodes items.now exprs.items }
    requires targets { TargetsAre source.now.text.now items.now targets.now.labels targets.now.ends.items targets.now.commands }
    ensures means { IfOk result (Means source.now.text.now source.now.kind source.now.max_nodes) }
    ensures fault { IfErr result (λ f. f ≡ NO_MEMORY) }
{
    let files = files_of(source.alloc, source.text, items)?;
    let mut operands = Operands {
        texts: Vec::new(source.alloc),
        substitutions: Vec::new(source.alloc),
        tables: Vec::new(source.alloc),
    };
    match commands_of(
        source.alloc,
        source.text,
        items,
        targets,
        &files,
        &mut operands,
    ) {
        Err(_) => Err(NO_MEMORY),
        Ok(commands) => Ok(with_files(source, commands, exprs, operands, files)),
    }
}

/// Reads a text as a script, or answers its first fault.
/// `max_nodes` is the most nodes that a regular expression may have, 1 to 65,536.
/// The work and the memory grow with the text, and for its regular expressions with `max_nodes`.
///
/// # Errors
/// The first fault from left to right (S1 to S9, S12, S15 to S21 or S23, with its place). Where there is none, the
/// fault of labels and blocks with the least place (S10, S11, S13 or S14). S22 at 0 where a request for memory was
/// refused.
pub fn read(alloc: Global, text: &[u8], kind: Kind, max_nodes: usize) -> Result<Script, ScriptFault>
    requires nodes { (1 ≤ max_nodes) × (max_nodes ≤ 65536) }
    // What is answered is what the text means.
    ensures means { IfOk result (λ s. Means text.now kind max_nodes s) }
    // No fault is passed over.
    ensures no_fault { OnOk result ((f : ScriptFault) → Faulty text.now kind max_nodes f → ⊥) }
    // A fault is the first one of the text, or there was no memory.
    ensures fault { IfErr result (λ f. Faulty text.now kind max_nodes f ⊎ (f ≡ NO_MEMORY)) }
    // It is in the text or at its end.
    ensures within { IfErr result (λ f. f.place ≤ length text.now) }
{
    fault_within();
    reads_as_one();
    let mut items = Items::new(alloc);
    let mut exprs = Vec::new(alloc);
    let source = Source {
        alloc,
        text,
        kind,
        max_nodes,
    };
    match judge(&source, &mut items, &mut exprs) {
        Err(fault) => Err(fault),
        Ok(targets) => script_of(&source, &items, &targets, exprs),
    }
}
