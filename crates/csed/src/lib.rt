//! The editor for C: `sed_check` reads a script, and `sed_edit` runs it over bytes in memory. `include/csed.h` declares
//! both for a C compiler.
#![tactic(auto)]

mod asked;
mod calls;
mod input;
mod outcome;
mod running;
mod standard_output;

pub use asked::{SED_EXTENDED, SED_QUIET, SedLimits};
pub use calls::{sed_check, sed_edit};
pub use outcome::{
    SED_BAD_LIMITS, SED_DONE, SED_FAULT_WRITES_FILES, SED_NO_MEMORY, SED_REFUSED, SED_STOPPED,
    SedReport,
};
