//! What a command line asks for (XCU sed, "Options" and "Operands").
ghost use Rattle.std.specs.Prelude.{◌≡◌, ◌≢◌};
ghost use Rattle.clap.specs.Words.{kind_of};
ghost use Rattle.clap.specs.declared.error.kind.ErrorKind.TheVariants.{OutOfMemory};
ghost use Rattle.sedfiles.specs.declared.asked.Refused.TheVariants.{NoMemory, Words};

use clap::error::ErrorKind;
use std::alloc::AllocError;

/// What the words after the program's name ask for.
#[derive(Drop)]
pub struct Line {
    /// Whether `-n` was given, which suppresses default output.
    pub quiet: bool,
    /// Whether `-E` was given, which chooses extended expressions.
    pub extended: bool,
    /// The parts of the script, in the order of the words. There are none where no script was given.
    pub parts: Vec<Part>,
    /// The names of the input files, where `-` is the standard input. Where there are none, the standard input is read.
    pub operands: Vec<String>,
}

/// A part of a script.
#[derive(Drop)]
pub enum Part {
    /// The text of the part: a word of `-e`, or the first operand where there is neither `-e` nor `-f`.
    Script(String),
    /// The name of the file that contains the part: a word of `-f`.
    File(String),
}

/// Why a command line isn't run.
#[derive(Drop)]
pub enum Refused {
    /// What `clap` answers: the help, where that was asked for, or what is wrong with the words.
    Words(clap::Error),
    /// A request for memory was refused.
    NoMemory,
}

impl From<clap::Error> for Refused {
    ghost from_gives = { λ e r. (kind_of e ≡ OutOfMemory → r ≡ NoMemory)
        × (kind_of e ≢ OutOfMemory → r ≡ Words e) };

    fn from(error: clap::Error) -> Refused {
        match error.kind() {
            ErrorKind::OutOfMemory => Refused::NoMemory,
            _ => Refused::Words(error),
        }
    }
}

impl From<AllocError> for Refused {
    ghost from_gives = { λ e r. r ≡ NoMemory };

    fn from(_error: AllocError) -> Refused {
        Refused::NoMemory
    }
}
