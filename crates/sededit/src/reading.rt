//! The script that a command line gives, read from its parts.
ghost use Rattle.std.specs.Prelude.{◌≡◌, ◌≤◌, ◌∷◌, ℕ, List, [], IfOk};
ghost use Rattle.sededit.specs.Program.{GivesScript, MakesText, kind_with};
ghost use Rattle.sedfiles.specs.Files.{OnlyReadsScripts};
ghost use Rattle.sededit.specs.declared.reading.NoScript.TheVariants.{NoMemory};

use crate::script;
use sedfiles::{Inputs, Line, Part};
use sedscript::{Kind, Reason, Script, ScriptFault, add_part};
use std::alloc::{AllocError, Global};

/// Why there is no script to run.
#[derive(Clone, Copy)]
pub(crate) enum NoScript<'a> {
    /// No part was given.
    NotGiven,
    /// The file of this name, a word of -f, can't be read.
    Unreadable(&'a str),
    /// The text means no script; or a request for memory was refused.
    Faulty(ScriptFault),
    /// A request for memory was refused.
    NoMemory,
}

impl<'a> From<AllocError> for NoScript<'a> {
    ghost from_gives = { λ e r. r ≡ NoMemory };

    fn from(_error: AllocError) -> NoScript<'a> {
        NoScript::NoMemory
    }
}

/// The kind of a script's expressions: extended ones with the option -E, basic ones without it (XCU sed, "Options").
pub fn kind_with(extended: bool) -> Kind
    ensures { result ≡ kind_with extended }
{
    if extended {
        Kind::Extended
    } else {
        Kind::Basic
    }
}

/// Adds a part to the text of a script.
fn add<'a, I: Inputs>(
    alloc: Global,
    text: &mut Vec<u8>,
    part: &'a Part,
    inputs: &mut I,
) -> Result<(), NoScript<'a>>
    ensures text { IfOk result (λ _. (whole : List ℕ) (parts : _) → MakesText (I.text inputs.old) text.new.items parts whole →
        MakesText (I.text inputs.old) text.old.items (part.entry.now ∷ parts) whole) }
    ensures inputs { OnlyReadsScripts I.current I.ahead I.text I.refusals I.failures I.reference inputs.old inputs.new }
{
    match part {
        Part::Script(script) => add_part(text, script.as_bytes())?,
        Part::File(name) => {
            let Some(bytes) = inputs.whole(alloc, name.as_str())? else {
                return Err(NoScript::Unreadable(name.as_str()));
            };
            add_part(text, bytes.as_slice())?;
        }
    }
    Ok(())
}

/// The text that the parts make.
fn text_of<'a, I: Inputs>(
    alloc: Global,
    parts: &'a [Part],
    inputs: &mut I,
) -> Result<Vec<u8>, NoScript<'a>>
    ensures text { IfOk result (λ text. MakesText (I.text inputs.old) [] parts.entry.now text.items) }
    ensures inputs { OnlyReadsScripts I.current I.ahead I.text I.refusals I.failures I.reference inputs.old inputs.new }
{
    let mut text = Vec::new(alloc);
    for part in parts {
        add(alloc, &mut text, part, inputs)?;
    }
    Ok(text)
}

/// The script of a line, with its -n and -E.
pub(crate) fn read_script<'a, I: Inputs>(
    alloc: Global,
    line: &'a Line,
    nodes: usize,
    inputs: &mut I,
) -> Result<Script, NoScript<'a>>
    requires { (1 ≤ nodes) × (nodes ≤ 65536) }
    ensures gives { IfOk result (GivesScript (I.text inputs.old) line.entry.now nodes) }
    ensures inputs { OnlyReadsScripts I.current I.ahead I.text I.refusals I.failures I.reference inputs.old inputs.new }
{
    if line.parts.is_empty() {
        return Err(NoScript::NotGiven);
    }
    let text = text_of(alloc, line.parts.as_slice(), inputs)?;
    match script(alloc, text.as_slice(), kind_with(line.extended), nodes) {
        Ok(mut program) => {
            if line.quiet {
                program.set_quiet();
            }
            Ok(program)
        }
        Err(fault) => Err(NoScript::Faulty(fault)),
    }
}
