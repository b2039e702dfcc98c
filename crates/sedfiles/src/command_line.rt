//! The command line, `sed [-n] [-E] [-e script].. [-f file].. [script] [file..]`, read with `clap` (XCU sed, "Synopsis").
//!
//! Options may be given more than once, in one word or several, before operands or after them; `--` ends the options;
//! -h and --help ask for help.
ghost use Rattle.std.specs.Prelude.{◌≡◌, Some, codes, false, true, map, IfOk, IfErr, OnOk};
ghost use Rattle.clap.specs.Words.{FailsBy, app_of, fault_of, found_of, kind_of, matches_of, new_app, new_rule, rows_of, rule_of, takes, with_rule};
ghost use Rattle.clap.specs.declared.builder.action.ArgAction.TheVariants.{Append, Count};
ghost use Rattle.sedfiles.specs.CommandLine.{IsCommandLine, IsLine, option_rule, sed_command};
ghost use Rattle.sedfiles.specs.Refusals.{IsRefusal};

use crate::asked::{Line, Refused};
use crate::help::{CODES, USAGE};
use crate::parts::{Uses, asked_of};
use clap::error::ErrorKind;
use clap::{Arg, ArgAction, ArgMatches, Command};
use std::alloc::{AllocError, Global};
use std::convert::AsStr;

/// Reads the words of a command line, those after the program's name.
///
/// # Errors
/// What `clap` answers where the words are wrong or ask for help; or that a request for memory was refused.
pub fn line<S: AsStr>(alloc: Global, words: &[S]) -> Result<Line, Refused>
    // The line is what `clap` makes of the words.
    ensures line { IfOk result (IsLine (matches_of sed_command (map S.text words.now))) }
    // Words are answered only where `clap` finds no fault in them, and refused for one that it finds.
    ensures sound { OnOk result (IsCommandLine (map S.text words.now)) }
    ensures refused { IfErr result (IsRefusal (map S.text words.now)) }
    // Words that `clap` takes are refused only where a request for memory was.
    ensures taken { IfErr result (λ r. takes sed_command (map S.text words.now) ≡ true → r ≡ Refused.NoMemory) }
{
    match read(alloc, words) {
        Ok(matches) => Ok(line_of(alloc, &matches)?),
        Err(error) => Err(Refused::from(error)),
    }
}

/// The line that the matches give.
fn line_of(alloc: Global, matches: &ArgMatches<'_>) -> Result<Line, AllocError>
    ensures { IfOk result (IsLine (rows_of (found_of matches.now))) }
{
    let scripts = Uses {
        words: matches.get_strs("expression").unwrap_or(&[]),
        places: matches.indices_of("expression").unwrap_or(&[]),
    };
    let files = Uses {
        words: matches.get_strs("file").unwrap_or(&[]),
        places: matches.indices_of("file").unwrap_or(&[]),
    };
    let operands = matches.get_strs("operand").unwrap_or(&[]);
    let asked = asked_of(alloc, scripts, files, operands)?;
    Ok(Line {
        quiet: matches.get_count("quiet") > 0,
        extended: matches.get_count("extended") > 0,
        parts: asked.parts,
        operands: asked.operands,
    })
}

/// The matches that `clap` gives for the words. Apart from `line`, so that a fault in the words and a refused request are one
/// error there.
fn read<'a, S: AsStr>(alloc: Global, words: &'a [S]) -> Result<ArgMatches<'a>, clap::Error>
    ensures rows { IfOk result (λ m. rows_of (found_of m) ≡ matches_of sed_command (map S.text words.entry.now)) }
    ensures taken { IfErr result (λ e. takes sed_command (map S.text words.entry.now) ≡ true
        → kind_of e ≡ ErrorKind.OutOfMemory) }
    ensures kinds { FailsBy (fault_of sed_command (map S.text words.entry.now)) result }
{
    command(alloc)?.try_get_matches_from(words)
}

/// An option, which may be given more than once.
fn repeated<'a>(
    alloc: Global,
    name: &'a str,
    letter: char,
    action: ArgAction,
    help: &'a str,
) -> Arg<'a>
    ensures rule { rule_of result ≡ option_rule name.entry.now letter action }
    ensures local { result.global ≡ false }
{
    Arg::new(alloc, name)
        .short(letter)
        .action(action)
        .help(help)
}

/// The operands.
fn operands<'a>(alloc: Global) -> Arg<'a>
    ensures rule { rule_of result ≡ record (new_rule (codes "operand")) { action = Some Append } }
    ensures local { result.global ≡ false }
{
    Arg::new(alloc, "operand").action(ArgAction::Append).help(
        "The script, where neither -e nor -f gives one, and the input files; - or none is the standard input",
    )
}

/// What `clap` is to read, without options and operands.
fn described<'a>(alloc: Global) -> Command<'a>
    ensures { app_of result
        ≡ record (new_app (codes "sed")) { top = record (new_app (codes "sed")).top { no_binary_name = true } } }
{
    Command::new(alloc, "sed")
        .no_binary_name(true)
        .about("Edits files line by line, and writes to the standard output")
        .override_usage(USAGE)
        .after_help(CODES)
}

/// Adds the options that are counted.
fn with_flags<'a>(alloc: Global, command: Command<'a>) -> Result<Command<'a>, AllocError>
    ensures { IfOk result (λ c. app_of c ≡ with_rule (with_rule (app_of command.entry)
        (option_rule (codes "quiet") 110 Count)) (option_rule (codes "extended") 69 Count)) }
{
    command
        .arg(repeated(
            alloc,
            "quiet",
            'n',
            ArgAction::Count,
            "Write no pattern space unless the script asks for it",
        ))?
        .arg(repeated(
            alloc,
            "extended",
            'E',
            ArgAction::Count,
            "Read extended regular expressions in the script",
        ))
}

/// Adds the options that give the script.
fn with_scripts<'a>(alloc: Global, command: Command<'a>) -> Result<Command<'a>, AllocError>
    ensures { IfOk result (λ c. app_of c ≡ with_rule (with_rule (app_of command.entry)
        (option_rule (codes "expression") 101 Append)) (option_rule (codes "file") 102 Append)) }
{
    command
        .arg(repeated(
            alloc,
            "expression",
            'e',
            ArgAction::Append,
            "Add these editing commands to the script",
        ))?
        .arg(repeated(
            alloc,
            "file",
            'f',
            ArgAction::Append,
            "Add the editing commands in this file to the script",
        ))
}

/// What `clap` is to read.
fn command<'a>(alloc: Global) -> Result<Command<'a>, AllocError>
    ensures shape { IfOk result (λ c. app_of c ≡ sed_command) }
{
    let flagged = with_flags(alloc, described(alloc))?;
    with_scripts(alloc, flagged)?.arg(operands(alloc))
}
