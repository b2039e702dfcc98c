//! Readers of expressions and scripts, and what searches need.
ghost use Rattle.std.specs.Prelude.{◌≤◌, length};

use crate::given::{NODES, expression_of};
use crate::marks::{answer, answer_made, begin, end};
use anyhow::Result;
use sedmatch::{Occurrences, Scratch, TableMatcher, TableRoom};
use sedre::{Expr, ExprFault, Kind, Steps};
use sedscript::{Script, ScriptFault};
use std::slice;

/// The most bytes of a text that is searched.
const TEXT: usize = 100;

/// How many nodes an expression has.
fn nodes_of(read: Result<Expr, ExprFault>) -> Result<usize, ExprFault> {
    match read {
        Ok(expr) => Ok(expr.nodes()),
        Err(fault) => Err(fault),
    }
}

pub(crate) fn read(rt: &HostRuntime, text: &[u8]) -> Result<()> {
    begin(rt);
    let nodes = nodes_of(sedre::read(rt.alloc(), Kind::Basic, text, None, NODES));
    answer(rt, &nodes)
}

pub(crate) fn read_folded(rt: &HostRuntime, text: &[u8]) -> Result<()> {
    begin(rt);
    let nodes = nodes_of(sedre::read_folded(rt.alloc(), Kind::Basic, text, None, NODES));
    answer(rt, &nodes)
}

/// How many commands a script has.
fn commands_of(read: Result<Script, ScriptFault>) -> Result<usize, ScriptFault> {
    match read {
        Ok(script) => {
            let commands = script.len();
            script.close();
            Ok(commands)
        }
        Err(fault) => Err(fault),
    }
}

pub(crate) fn script(rt: &HostRuntime, text: &[u8]) -> Result<()> {
    begin(rt);
    let commands = commands_of(sedscript::read(rt.alloc(), text, Kind::Basic, NODES));
    answer(rt, &commands)
}

pub(crate) fn add_part(rt: &HostRuntime, part: &[u8]) -> Result<()> {
    let mut text = b"p\n".to_vec(rt.alloc())?;
    begin(rt);
    let added = sedscript::add_part(&mut text, part);
    end(rt);
    println!(rt; "{added:?}, {} bytes", text.len())?;
    Ok(())
}

pub(crate) fn scratch(rt: &HostRuntime) -> Result<()> {
    begin(rt);
    let made = Scratch::new(rt.alloc(), TEXT, NODES);
    answer_made(rt, made.map(Scratch::close))
}

/// Makes room to seek the occurrences of an expression, and writes whether it could be made.
fn occurrences_of(rt: &HostRuntime, matcher: &TableMatcher) -> Result<()>
    requires { length matcher.now.nodes ≤ 1000 }
{
    begin(rt);
    let made = Occurrences::new(rt.alloc(), TEXT, NODES, slice::from_ref(matcher));
    answer_made(rt, made.map(Occurrences::close))
}

pub(crate) fn occurrences(rt: &HostRuntime, text: &[u8]) -> Result<()> {
    let expr = expression_of(rt.alloc(), text)?;
    let room = TableRoom::ample();
    let matcher = TableMatcher::new(rt.alloc(), &expr, room, &mut Steps::new())?;
    let done = occurrences_of(rt, &matcher);
    matcher.close();
    done
}

pub(crate) fn matcher(rt: &HostRuntime, text: &[u8]) -> Result<()> {
    let expr = expression_of(rt.alloc(), text)?;
    begin(rt);
    let room = TableRoom::ample();
    let made = TableMatcher::new(rt.alloc(), &expr, room, &mut Steps::new());
    answer_made(rt, made.map(TableMatcher::close))
}
