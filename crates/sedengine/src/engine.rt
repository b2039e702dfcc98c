//! The engine: a machine and a meter, and the calls that run it.
ghost use Rattle.std.specs.Prelude.{◌≡◌, ◌<◌, ◌≤◌, ◌+◌, [], None, Some, Err, IfOk, IfSome, IsNone, length, replicate, ℕ, List};
ghost use Rattle.std.specs.Option.{ForSome};
ghost use Rattle.std.specs.Io.KnownBytes.{Keeps};
ghost use Rattle.sedspace.specs.Stream.{lines_left, ReadsOn};
ghost use Rattle.sedacts.specs.Move.{start};
ghost use Rattle.sedacts.specs.DevicesAfter.{SameSinks, SinksAtEnd};
ghost use Rattle.sedacts.specs.Ends.{SourceAtEnd};
ghost use Rattle.sedacts.specs.Held.{total_of, bound_of};
ghost use Rattle.sedacts.specs.Run.{as_moves_answer, Cycles, CameToEnd, SameRun, Sends, at_lines, end_answered, run_setting};
ghost use Rattle.sedacts.specs.Run.{input_of, FailedSource};
ghost use Rattle.sedacts.specs.State.{GivesFiles};

use crate::machine::Machine;
use sedacts::meter::{Meter, Metered};
use sedacts::{Ended, Held, Limits, Progress};
use sedscript::Script;
use sedspace::{ByteSource, Lines, Outputs, Texts};
use std::alloc::{AllocError, Global};
use std::marker::Model;

/// An editor that runs a script over the lines of a stream.
///
/// Contracts see it as a `RunState`: its script, its limits, its state without the lines, what its sinks have gained, and how
/// it ended.
#[derive(Drop)]
pub struct Engine {
    machine: Machine,
    meter: Meter,
    // How the run ended, where it has.
    ended: Option<Ended>,
}

impl Model for Engine {
    ghost use Rattle.std.specs.Prelude.{◌≡◌, ◌+◌, length};
    ghost use Rattle.sedacts.specs.Run.{RunState};

    ghost Value = { RunState };

    ghost view = { λ s. record s.machine { sent = s.meter.sent; ended = s.ended } };

    ghost invariant = { λ s. (s.meter.most ≡ s.machine.limits.output)
        × (length s.meter.sent ≡ length s.machine.script.wfiles + 1) };
}

/// For proofs: no more is read ahead than `look`.
#[inline(always)]
fn is_within_look<R: ByteSource>(lines: &Lines<R>)
    ensures { length lines.now.ahead ≤ lines.now.read_ahead }
{
    let _len = lines.ahead_len();
}

impl Engine {
    /// Makes an engine at the start of its run. All the memory that the run takes is reserved here, with a count for each
    /// sink that the script names.
    ///
    /// The script was read with at most `limits.nodes()` nodes for an expression.
    ///
    /// # Errors
    /// Where a request for memory was refused.
    pub fn open(alloc: Global, script: Script, limits: Limits) -> Result<Engine, AllocError>
        requires { script.max_nodes ≤ limits.nodes }
        ensures { IfOk result (λ e. e ≡ record {
          script = script;
          limits = limits;
          state = start script.commands [];
          sent = replicate (length script.wfiles + 1) 0;
          ended = None;
        }) }
    {
        match Meter::new(alloc, limits.output(), script.wfiles().len() + 1) {
            Ok(meter) => {
                match Machine::open(alloc, script, limits) {
                    Ok(machine) => Ok(Engine {
                        machine,
                        meter,
                        ended: None,
                    }),
                    Err(refused) => {
                        drop(meter);
                        Err(refused)
                    }
                }
            }
            Err(refused) => {
                script.close();
                Err(refused)
            }
        }
    }

    /// Runs one cycle (XCU sed, "Extended Description"): reads the next line, runs the script over it, and writes the
    /// pattern space, unless the option `-n` suppresses that. Answers whether a next cycle is due, or how the run ended.
    ///
    /// Where `D` ended the cycle before and left a part of the pattern space, the script runs over that part, and no line
    /// is read.
    ///
    /// All calls of a run get the same lines, outputs and texts. The lines read ahead as much as the limits say. Sink 0 is
    /// the standard output, and each file that the script writes has a sink, from sink 1 for the first of `wfiles` on; text
    /// 0 is the first of `rfiles`. An engine whose run has ended answers the same end again, and touches no device. The
    /// file `by_cycles.rt` of the crate `hosts` is an example.
    pub fn cycle<R: ByteSource, O: Outputs, T: Texts>(
        &mut self,
        lines: &mut Lines<R>,
        outputs: &mut O,
        texts: &mut T,
    ) -> Progress
        requires look { lines.old.read_ahead ≡ self.old.limits.look }
        requires sinks { length self.old.script.wfiles < O.count outputs.old }
        // The moves of one cycle were made, or the end came with its cause; this is what the sinks gained, within the
        // limit, and what was taken from the source.
        ensures cycles { IsNone self.old.ended → lines.old.fault ≡ None →
            ForSome (lines_left R.remaining lines.old) (λ ls.
            (files : ℕ → List ℕ) → GivesFiles (T.text texts.old) files →
            (out : List (ℕ × ℕ))
            × Sends self.old self.new (O.contents outputs.old) (O.contents outputs.new) (as_moves_answer result) out
            × Cycles self.old.limits (run_setting self.old files) (at_lines self.old ls) out
            (input_of R.remaining lines.old) (input_of R.remaining lines.new)
            self.new (lines_left R.remaining lines.new) result) }
        // A device that the end names has failed in this call, and no other source or sink has; where a next cycle is due
        // none has. A sink is full only where the limits have one on the output.
        ensures input { IsNone self.old.ended → lines.old.fault ≡ None →
            FailedSource (R.failures lines.old.source) (R.failures lines.new.source) (as_moves_answer result) }
        ensures output { IsNone self.old.ended →
            SinksAtEnd self.old.limits.output (O.failures outputs.old) (O.failures outputs.new) (as_moves_answer result) }
        ensures sound { result ≡ Progress.More → lines.old.fault ≡ None → lines.new.fault ≡ None }
        ensures ended { self.new.ended ≡ end_answered result }
        ensures again { IfSome self.old.ended (λ end. (result ≡ Progress.Ended end) × (self.new ≡ self.old)
            × (lines.new ≡ lines.old) × (outputs.new ≡ outputs.old) × (texts.new ≡ texts.old)) }
        ensures same_run { SameRun self.old self.new }
        ensures same_devices { ReadsOn R.reference lines.old lines.new
            × SameSinks O.count O.names outputs.old outputs.new }
        ensures same_texts { (k : ℕ) → Keeps (T.text texts.old k) (T.text texts.new k) }
    {
        if let Some(end) = self.ended {
            is_within_look(lines);
            return Progress::Ended(end);
        }
        let mut sinks = Metered {
            outputs: &mut *outputs,
            meter: &mut self.meter,
        };
        let progress = self.machine.cycle(lines, &mut sinks, texts);
        self.ended = progress.end();
        self.meter.is_within_limit();
        is_within_look(lines);
        progress
    }

    /// Runs all cycles that are left (XCU sed, "Extended Description"), and answers how the run ended. The devices are
    /// those of `cycle`.
    ///
    /// An engine whose run has ended answers the same end again, and touches no device.
    pub fn run<R: ByteSource, O: Outputs, T: Texts>(
        &mut self,
        lines: &mut Lines<R>,
        outputs: &mut O,
        texts: &mut T,
    ) -> Ended
        requires look { lines.old.read_ahead ≡ self.old.limits.look }
        requires sinks { length self.old.script.wfiles < O.count outputs.old }
        // The end has its cause after some moves, from the engine's state and the lines left; the sinks have gained
        // what these moves write, within the limit, and this was taken from the source.
        ensures ends { IsNone self.old.ended → lines.old.fault ≡ None →
            ForSome (lines_left R.remaining lines.old) (λ ls.
            (files : ℕ → List ℕ) → GivesFiles (T.text texts.old) files →
            (out : List (ℕ × ℕ))
            × Sends self.old self.new (O.contents outputs.old) (O.contents outputs.new) (Err result) out
            × CameToEnd self.old.limits (run_setting self.old files) (at_lines self.old ls) out
            (input_of R.remaining lines.old) (input_of R.remaining lines.new) self.new.state result) }
        // The device that the end names has failed in this run, and no other source or sink has. A sink is full only where
        // the limits have one on the output.
        ensures input { IsNone self.old.ended → lines.old.fault ≡ None →
            SourceAtEnd (R.failures lines.old.source) (R.failures lines.new.source) result }
        ensures output { IsNone self.old.ended →
            SinksAtEnd self.old.limits.output (O.failures outputs.old) (O.failures outputs.new) (Err result) }
        ensures ended { self.new.ended ≡ Some result }
        ensures again { IfSome self.old.ended (λ end. (result ≡ end) × (self.new ≡ self.old)
            × (lines.new ≡ lines.old) × (outputs.new ≡ outputs.old) × (texts.new ≡ texts.old)) }
        ensures same_run { SameRun self.old self.new }
        ensures same_devices { ReadsOn R.reference lines.old lines.new
            × SameSinks O.count O.names outputs.old outputs.new }
        ensures same_texts { (k : ℕ) → Keeps (T.text texts.old k) (T.text texts.new k) }
    {
        if let Some(end) = self.ended {
            is_within_look(lines);
            return end;
        }
        let mut sinks = Metered {
            outputs: &mut *outputs,
            meter: &mut self.meter,
        };
        let end = self.machine.run(lines, &mut sinks, texts);
        self.ended = Some(end);
        self.meter.is_within_limit();
        is_within_look(lines);
        end
    }

    /// How much the engine holds. Of the bytes read ahead it counts as many as there may be; the counts of what sinks have
    /// gained are left out.
    pub fn held(&self) -> Held
        ensures pattern { result.pattern ≡ length self.now.state.pattern }
        ensures hold { result.hold ≡ length self.now.state.hold }
        ensures build { result.build ≤ self.now.limits.space }
        ensures look { result.look ≡ self.now.limits.look }
        ensures queue { result.queue ≡ length self.now.state.queue }
        ensures bound { total_of result ≤ bound_of self.now.limits }
    {
        // The spaces and the queue are the machine's, which is private to the crate.
        self.machine.held()
    }

    /// Lets the engine go. By this call what it holds is proved to be let go of once, and not in each crate above.
    pub fn close(self) {
        let Engine { machine, meter, .. } = self;
        drop(meter);
        machine.close();
    }
}
