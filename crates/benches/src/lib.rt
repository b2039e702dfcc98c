//! The calls that ask for memory, one after another. `bench/makers` refuses each of their requests in turn, and every one
//! of a run. It has no contract of its own to keep.
//!
//!     rows CALL TEXT [CALL TEXT].. > ANSWERS
//!
//! Writes for each call what it answered. Requests are refused between the marks that it writes on the standard error
//! (`marks`): what a call is given is made before, and what it answered is written after.
#![tactic(auto)]

mod editing;
mod given;
mod marks;
mod program;
mod reading;
mod spaces;

use anyhow::{Result, bail};

/// Makes the call of this name, over a text.
fn make(rt: &HostRuntime, name: &str, text: &str) -> Result<()> {
    print!(rt; "{name}: ")?;
    let bytes = text.as_bytes();
    match name {
        "read" => reading::read(rt, bytes),
        "read_folded" => reading::read_folded(rt, bytes),
        "script" => reading::script(rt, bytes),
        "add_part" => reading::add_part(rt, bytes),
        "Scratch::new" => reading::scratch(rt),
        "Occurrences::new" => reading::occurrences(rt, bytes),
        "TableMatcher::new" => reading::matcher(rt, bytes),
        "Engine::open" => editing::open(rt, bytes),
        "edit" => editing::run_edit(rt, bytes),
        "cycles" => editing::run_cycles(rt, bytes),
        "line" => program::read_line(rt, text),
        "joined" => program::join(rt),
        "MemorySinks::with_room" => program::make_sinks(rt),
        "command" => program::run_command(rt, text),
        _ => spaces::make(rt, name),
    }
}

/// Makes the calls that words name, each over the text after it.
pub fn make_all(rt: &HostRuntime, words: &[String]) -> Result<()> {
    let mut words = words.iter();
    while let Some(name) = words.next() {
        match words.next() {
            Some(text) => make(rt, name.as_str(), text.as_str())?,
            None => bail!("{name} has no text"),
        }
    }
    Ok(())
}
