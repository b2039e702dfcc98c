//! The editor as a library: `script` reads a script, and `edit` runs it over the bytes of a stream.
ghost use Rattle.std.specs.Prelude.{◌≡◌, ◌<◌, ◌≤◌, ◌⊎◌, ℕ, List, Ok, Err, IfOk, OnOk, OnErr, IfErr, length};
ghost use Rattle.std.specs.Option.{ForSome};
ghost use Rattle.std.specs.Io.KnownBytes.{Keeps};
ghost use Rattle.sedscript.specs.Script.{Means};
ghost use Rattle.sedscript.specs.FirstFault.{Faulty};
ghost use Rattle.sedscript.specs.declared.types.ScriptFault.{ScriptFault};
ghost use Rattle.sedengine.specs.Ends.{SinksGain, GainedWithin, SourceAtEnd};
ghost use Rattle.sedengine.specs.DevicesAfter.{SameSinks, SinksAtEnd};
ghost use Rattle.sedengine.specs.State.{GivesFiles, setting_of};
ghost use Rattle.sededit.specs.Editing.{BeginsOutput, IsOutput, nothing_before, start_over};
ghost use Rattle.sededit.specs.EditEnds.{EditEnds};
ghost use Rattle.sededit.specs.Ahead.{EditEnded};

use sedengine::{Ended, Engine, Limits};
use sedscript::{Kind, NO_MEMORY, Script, ScriptFault};
use sedspace::{ByteSource, Lines, Outputs, Room, Texts};
use std::alloc::{AllocError, Global};

/// Reads the script that a text means (XCU sed, "Extended Description").
///
/// `kind` chooses basic or extended expressions, and `nodes` is the most nodes that one may have, with what it repeats
/// written out, 1 to 65,536. `own_limits.rt` of the crate `hosts` is an example.
///
/// # Errors
/// The first fault of the text, with the place of its byte, counted from 0; or `NO_MEMORY` where a request for memory was
/// refused.
pub fn script(alloc: Global, text: &[u8], kind: Kind, nodes: usize) -> Result<Script, ScriptFault>
    requires nodes { (1 ≤ nodes) × (nodes ≤ 65536) }
    // What is answered is what the text means.
    ensures means { IfOk result (λ s. Means text.now kind nodes s) }
    // No fault is passed over.
    ensures no_fault { OnOk result ((f : ScriptFault) → Faulty text.now kind nodes f → ⊥) }
    // A fault is the first one of the text, or there was no memory.
    ensures fault { IfErr result (λ f. Faulty text.now kind nodes f ⊎ (f ≡ NO_MEMORY)) }
    // It is in the text or at its end.
    ensures within { IfErr result (λ f. f.place ≤ length text.now) }
{
    // The reader of `sedscript`, named for what it reads, so that both calls of an edit are in this crate.
    sedscript::read(alloc, text, kind, nodes)
}

/// Runs a script over the source's bytes, to the end of the run, and answers how it ended (XCU sed, "Extended
/// Description").
///
/// Sink 0 is the standard output, sink 1 the first of the script's `wfiles` and so on: there is a sink for each. Text 0 is
/// the first of its `rfiles`. The script's expressions have at most `limits.nodes()` nodes, as where `script` read it with
/// that number.
///
/// What each sink gains stays within the limits, where the source's bytes are known; what the engine holds does so
/// for any source, as `Engine::held` says. What was written is never taken back, however the run ends. `own_limits.rt` of the crate `hosts`
/// is an example.
///
/// # Errors
/// `AllocError` where a request for memory was refused. Nothing was read or written then.
pub fn edit<R: ByteSource, O: Outputs, T: Texts>(
    alloc: Global,
    script: Script,
    limits: Limits,
    source: &mut R,
    outputs: &mut O,
    texts: &mut T,
) -> Result<Ended, AllocError>
    requires sinks { length script.wfiles < O.count outputs.old }
    requires nodes { script.max_nodes ≤ limits.nodes }
    // Each end has its cause, in whatever pieces the bytes came; no sink has gained more than the limit, where one is
    // set; and no more is read than the lines taken and what is read ahead. Where the source failed, what it gave after
    // the last line taken contains no newline.
    ensures ending { IfOk result (λ end. ForSome (R.remaining source.old) (λ bytes.
        (files : ℕ → List ℕ) → GivesFiles (T.text texts.old) files →
        (out : List (ℕ × ℕ))
        × GainedWithin limits.output nothing_before (O.contents outputs.old) (O.contents outputs.new) (Err end) out
        × EditEnds limits (setting_of script files) (start_over script bytes) out
        (R.remaining source.old) (R.remaining source.new) end)) }
    // What was written is a beginning of what the script writes, and at the ordinary end the whole.
    ensures output { OnOk result (ForSome (R.remaining source.old) (λ bytes.
        (files : ℕ → List ℕ) → GivesFiles (T.text texts.old) files →
        (out : List (ℕ × ℕ)) × SinksGain (O.contents outputs.old) (O.contents outputs.new) out
        × BeginsOutput (setting_of script files) (start_over script bytes) out)) }
    ensures whole { result ≡ Ok Ended.Done → ForSome (R.remaining source.old) (λ bytes.
        (files : ℕ → List ℕ) → GivesFiles (T.text texts.old) files →
        (out : List (ℕ × ℕ)) × SinksGain (O.contents outputs.old) (O.contents outputs.new) out
        × IsOutput (setting_of script files) (start_over script bytes) out) }
    // A device that the end names has failed, whether its bytes are known or not, and no other source or sink has; and a sink
    // is full only where the limits have one on the output.
    ensures input { IfOk result (SourceAtEnd (R.failures source.old) (R.failures source.new)) }
    ensures failed { IfOk result (λ end.
        SinksAtEnd limits.output (O.failures outputs.old) (O.failures outputs.new) (Err end)) }
    ensures same_sinks { SameSinks O.count O.names outputs.old outputs.new }
    ensures same_reference { R.reference source.new ≡ R.reference source.old }
    // The texts are only read.
    ensures same_texts { (k : ℕ) → Keeps (T.text texts.old k) (T.text texts.new k) }
    // Where a request for memory was refused, no device was touched.
    ensures untouched { OnErr result ((source.new ≡ source.old) × (outputs.new ≡ outputs.old)
        × (texts.new ≡ texts.old)) }
{
    match edit_ahead(alloc, script, limits, source, outputs, texts) {
        Ok(edited) => Ok(edited.end),
        Err(AllocError) => Err(AllocError),
    }
}

/// How an edit ended, and how many bytes were left ahead: they were taken from the source, and no line was made of them.
#[derive(Clone, Copy)]
pub(crate) struct Edited {
    pub(crate) end: Ended,
    pub(crate) ahead: usize,
}

/// What `edit` does, as its contract says; besides it reports what was left ahead.
pub(crate) fn edit_ahead<R: ByteSource, O: Outputs, T: Texts>(
    alloc: Global,
    script: Script,
    limits: Limits,
    source: &mut R,
    outputs: &mut O,
    texts: &mut T,
) -> Result<Edited, AllocError>
    requires sinks { length script.wfiles < O.count outputs.old }
    requires nodes { script.max_nodes ≤ limits.nodes }
    // So many bytes were left ahead, and with them still to come only the lines that were taken are gone.
    ensures edits { IfOk result (λ edited. ForSome (R.remaining source.old) (λ bytes.
        (files : ℕ → List ℕ) → GivesFiles (T.text texts.old) files →
        EditEnded limits (setting_of script files) (start_over script bytes) (R.remaining source.old) (R.remaining source.new)
        (O.contents outputs.old) (O.contents outputs.new) edited.ahead edited.end)) }
    ensures ahead { IfOk result (λ edited. edited.ahead ≤ limits.look) }
    ensures input { IfOk result (λ edited.
        SourceAtEnd (R.failures source.old) (R.failures source.new) edited.end) }
    ensures failed { IfOk result (λ edited.
        SinksAtEnd limits.output (O.failures outputs.old) (O.failures outputs.new) (Err edited.end)) }
    ensures same_sinks { SameSinks O.count O.names outputs.old outputs.new }
    ensures same_reference { R.reference source.new ≡ R.reference source.old }
    ensures same_texts { (k : ℕ) → Keeps (T.text texts.old k) (T.text texts.new k) }
    ensures untouched { OnErr result ((source.new ≡ source.old) × (outputs.new ≡ outputs.old)
        × (texts.new ≡ texts.old)) }
{
    let Ok(room) = Room::new(alloc, limits.look()) else {
        script.close();
        return Err(AllocError);
    };
    let mut engine = Engine::open(alloc, script, limits)?;
    let mut lines = Lines::over(&mut *source, room);
    let end = engine.run(&mut lines, outputs, texts);
    let ahead = lines.ahead_len();
    // The lines give the source back, and what became of it is known.
    let _source = lines.into_source();
    engine.close();
    Ok(Edited { end, ahead })
}
