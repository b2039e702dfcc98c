//! Scripts as they are run.

ghost use Rattle.std.specs.Prelude.{◌≡◌, ◌≤◌, ◌<◌, Some, true, map, length, slice_get};

use crate::substitution::Substitution;
use crate::types::Command;
use sedre::Expr;
use std::marker::Model;

/// The texts, substitutions and tables that the commands of a script name by numbers.
#[derive(Drop)]
pub(crate) struct Operands {
    /// The texts of `a`, `i` and `c`.
    pub texts: Vec<Vec<u8>>,
    /// The substitutions of `s`.
    pub substitutions: Vec<Substitution>,
    /// The tables of `y`.
    pub tables: Vec<Vec<u8>>,
}

/// What the commands of a script name by numbers.
#[derive(Drop)]
pub(crate) struct Named {
    /// The regular expressions.
    pub exprs: Vec<Expr>,
    /// The texts, substitutions and tables.
    pub operands: Operands,
    /// The names of the files that `r` reads.
    pub rfiles: Vec<Vec<u8>>,
    /// The names of the files that `w` and the flag `w` write.
    pub wfiles: Vec<Vec<u8>>,
}

/// A script: its commands in order, and what they name by numbers.
#[derive(Drop)]
pub struct Script {
    commands: Vec<Command>,
    named: Named,
    quiet: bool,
    max_nodes: usize,
}

impl Model for Script {
    ghost use Rattle.sedscript.specs.Program.{Program};
    ghost use Rattle.sedscript.specs.Ranges.{IsWithinRanges};
    ghost use Rattle.sedscript.specs.Parts.{program_of};

    ghost Value = { Program };

    ghost view = { λ s. program_of s.commands.items s.named s.quiet s.max_nodes };

    ghost invariant = { λ s. IsWithinRanges (program_of s.commands.items s.named s.quiet s.max_nodes) };
}

impl Script {
    ghost use Rattle.sedscript.specs.Program.{Program};
    ghost use Rattle.sedscript.specs.Ranges.{IsWithinRanges, CommandWithin, SubstitutionWithin};
    ghost use Rattle.sedscript.specs.Parts.{program_of};

    /// A script of these parts.
    pub(crate) fn of(commands: Vec<Command>, named: Named, quiet: bool, max_nodes: usize) -> Script
        requires { IsWithinRanges (program_of commands.items named quiet max_nodes) }
        ensures { result ≡ program_of commands.items named quiet max_nodes }
    {
        Script {
            commands,
            named,
            quiet,
            max_nodes,
        }
    }

    /// How many commands there are.
    pub fn len(&self) -> usize
        ensures { result ≡ length self.now.commands }
    {
        self.commands.len()
    }

    /// The command of a number, counted from 0. What it names by numbers is in the script.
    pub fn command(&self, i: usize) -> &Command
        requires { i < length self.now.commands }
        ensures is { slice_get self.now.commands i ≡ Some result.now }
        ensures within { CommandWithin self.now result.now }
    {
        &self.commands[i]
    }

    /// The regular expression of a number, counted from 0.
    pub fn expr(&self, k: usize) -> &Expr
        requires { k < length self.now.expressions }
        ensures is { slice_get self.now.expressions k ≡ Some result.now }
        ensures nodes { length result.now.nodes ≤ self.now.max_nodes }
    {
        &self.named.exprs[k]
    }

    /// How many regular expressions it has.
    pub fn expressions(&self) -> usize
        ensures { result ≡ length self.now.expressions }
    {
        self.named.exprs.len()
    }

    /// How many substitutions there are.
    pub fn substitutions(&self) -> usize
        ensures { result ≡ length self.now.substitutions }
    {
        self.named.operands.substitutions.len()
    }

    /// The text of a number, counted from 0, without its last newline.
    pub fn text(&self, k: usize) -> &[u8]
        requires { k < length self.now.texts }
        ensures { slice_get self.now.texts k ≡ Some result.now }
    {
        &self.named.operands.texts[k]
    }

    /// The substitution of a number, counted from 0.
    pub fn substitution(&self, k: usize) -> &Substitution
        requires { k < length self.now.substitutions }
        ensures is { slice_get self.now.substitutions k ≡ Some result.now }
        ensures within { SubstitutionWithin self.now result.now }
    {
        &self.named.operands.substitutions[k]
    }

    /// The table of a number, counted from 0: for each byte the one that stands for it.
    pub fn table(&self, k: usize) -> &[u8]
        requires { k < length self.now.tables }
        ensures is { slice_get self.now.tables k ≡ Some result.now }
        ensures whole { length result.now ≡ 256 }
    {
        &self.named.operands.tables[k]
    }

    /// The names of the files that `r` reads: each once, in the order in which they first occur in the text.
    pub fn rfiles(&self) -> &[Vec<u8>]
        ensures { map (λ n. n.items) result.now ≡ self.now.rfiles }
    {
        &self.named.rfiles
    }

    /// The names of the files that `w` and the flag `w` write: each once, in the order in which they first occur in the
    /// text. `/dev/stdout` isn't among them, since it is the standard output.
    pub fn wfiles(&self) -> &[Vec<u8>]
        ensures { map (λ n. n.items) result.now ≡ self.now.wfiles }
    {
        &self.named.wfiles
    }

    /// Whether the default output is suppressed.
    pub fn quiet(&self) -> bool
        ensures { result ≡ self.now.quiet }
    {
        self.quiet
    }

    /// Suppresses the default output, as the option -n does (XCU sed, "Options").
    pub fn set_quiet(&mut self)
        ensures { self.new ≡ record self.old { quiet = true } }
    {
        self.quiet = true;
    }

    /// The most nodes that a regular expression of the script may have.
    pub fn max_nodes(&self) -> usize
        ensures { result ≡ self.now.max_nodes }
    {
        self.max_nodes
    }

    /// Lets the script go. By this call what it holds is proved to be let go of once, and not in each crate above.
    pub fn close(self) {
        drop(self);
    }
}
