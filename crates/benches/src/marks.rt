//! The marks on the standard error between which `bench/makers` refuses requests for memory.

use anyhow::Result;
use std::alloc::AllocError;
use std::fmt::Debug;

/// Requests are refused from here on. A mark that can't be written refuses none, which the bench sees.
pub(crate) fn begin(rt: &HostRuntime) {
    let _ = eprintln!(rt; "begin");
}

/// Requests are refused no more.
pub(crate) fn end(rt: &HostRuntime) {
    let _ = eprintln!(rt; "end");
}

/// Requests are refused no more, and what the call answered is written.
pub(crate) fn answer<T: Debug>(rt: &HostRuntime, answered: &T) -> Result<()> {
    end(rt);
    println!(rt; "{answered:?}")?;
    Ok(())
}

/// Lets go of what a call made, and writes whether it made it. It goes by a call: at the end of its scope it goes field by field.
pub(crate) fn answer_made<T: Drop>(rt: &HostRuntime, made: Result<T, AllocError>) -> Result<()> {
    let is_made = made.is_ok();
    drop(made);
    answer(rt, &is_made)
}
