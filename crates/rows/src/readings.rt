//! Scripts as they are read: their commands, written out as the head of the table says.

ghost use Rattle.std.specs.Prelude.{◌<◌, length};

use crate::report::Report;
use crate::sheet::Sheet;
use crate::table::SheetRow;
use sededit::script;
use sedscript::types::{BranchUse, FileUse, Simple, TextUse};
use sedscript::{Action, Address, Command, ReplacementPart, Script, Substitution};

/// The most nodes of an expression.
const MOST_NODES: usize = 65536;

/// Runs a row.
pub(crate) fn run(row: &SheetRow, report: &mut Report) {
    match script(row.alloc, row.field(0), row.options(2).kind(), MOST_NODES) {
        Ok(script) => {
            compare(row, &script, report);
            script.close();
        }
        Err(_) => report.say("the script isn't accepted"),
    }
}

/// Whether the script is read as the row says.
fn compare(row: &SheetRow, script: &Script, report: &mut Report) {
    if script.quiet() != row.options(2).has(b"-n") {
        report.say("-n isn't as expected");
    }
    compare_files(row, script, report);
    let mut came = Sheet::new(row.alloc);
    put_commands(&mut came, script);
    report.compare_sheet("the commands", &came, row.field(1));
}

/// Whether the files of the script are those that the options name.
fn compare_files(row: &SheetRow, script: &Script, report: &mut Report) {
    let mut wanted = Sheet::new(row.alloc);
    for option in row.options(2).written {
        if !option.starts_with(b"-") {
            wanted.put(option.as_slice());
            wanted.put_byte(b'\n');
        }
    }
    let mut came = Sheet::new(row.alloc);
    put_files(&mut came, b"r:", script.rfiles());
    put_files(&mut came, b"w:", script.wfiles());
    report.compare_sheet("the files", &came, wanted.bytes.as_slice());
}

/// Files of a kind, each with the letter of its kind and a colon.
fn put_files(sheet: &mut Sheet, kind: &[u8], names: &[Vec<u8>]) {
    for name in names {
        sheet.put(kind);
        sheet.put(name.as_slice());
        sheet.put_byte(b'\n');
    }
}

/// The commands of a script.
fn put_commands(sheet: &mut Sheet, script: &Script) {
    for i in 0..script.len() {
        if i > 0 {
            sheet.put(b"; ");
        }
        put_addresses(sheet, script.command(i));
        put_action(sheet, script, i);
    }
}

/// What a command does.
fn put_action(sheet: &mut Sheet, script: &Script, i: usize)
    requires { i < length script.now.commands }
{
    match script.command(i).action {
        Action::Plain(simple) => sheet.put_byte(letter_of(simple)),
        Action::Block(k) => put_target(sheet, b'{', k),
        Action::Branch(BranchUse::Always, k) => put_target(sheet, b'b', k),
        Action::Branch(BranchUse::IfReplaced, k) => put_target(sheet, b't', k),
        Action::Text(TextUse::Append, k) => put_quoted(sheet, b'a', script.text(k)),
        Action::Text(TextUse::Change, k) => put_quoted(sheet, b'c', script.text(k)),
        Action::Text(TextUse::Insert, k) => put_quoted(sheet, b'i', script.text(k)),
        Action::File(FileUse::Read, k) => put_target(sheet, b'r', k),
        Action::File(FileUse::Write, k) => put_target(sheet, b'w', k),
        Action::Substitute(k) => put_substitution(sheet, script.substitution(k)),
        Action::Transliterate(k) => put_table(sheet, script.table(k)),
    }
}

/// A letter and a number.
fn put_target(sheet: &mut Sheet, letter: u8, k: usize) {
    sheet.put_byte(letter);
    sheet.put_text(k);
}

/// The addresses of a command, and its `!`.
fn put_addresses(sheet: &mut Sheet, command: &Command) {
    if let Some(first) = command.first {
        put_address(sheet, first);
    }
    if let Some(second) = command.second {
        sheet.put_byte(b',');
        put_address(sheet, second);
    }
    if command.negate {
        sheet.put_byte(b'!');
    }
}

/// An address.
fn put_address(sheet: &mut Sheet, address: Address) {
    match address {
        Address::Line(number) => sheet.put_text(number),
        Address::Last => sheet.put_byte(b'$'),
        Address::Match(expression) => put_expression(sheet, expression),
    }
}

/// An expression of the script.
fn put_expression(sheet: &mut Sheet, expression: Option<usize>) {
    sheet.put_byte(b'/');
    if let Some(k) = expression {
        sheet.put_text(k);
    }
    sheet.put_byte(b'/');
}

/// A letter, and a text in quotes.
fn put_quoted(sheet: &mut Sheet, letter: u8, text: &[u8]) {
    sheet.put_byte(letter);
    sheet.put_byte(b'"');
    sheet.put(text);
    sheet.put_byte(b'"');
}

/// An `s` and what it reads.
fn put_substitution(sheet: &mut Sheet, substitution: &Substitution) {
    sheet.put_byte(b's');
    put_expression(sheet, substitution.expression);
    for part in substitution.replacement.parts() {
        put_part(sheet, part);
    }
    sheet.put_byte(b' ');
    sheet.put_text(substitution.number);
    put_flags(sheet, substitution);
}

/// The flags of an `s`, without its number.
fn put_flags(sheet: &mut Sheet, substitution: &Substitution) {
    if substitution.global {
        sheet.put(b" g");
    }
    if substitution.print {
        sheet.put(b" p");
    }
    if let Some(sink) = substitution.file {
        sheet.put(b" ");
        put_target(sheet, b'w', sink);
    }
}

/// A blank and a part of a replacement.
fn put_part(sheet: &mut Sheet, part: &ReplacementPart) {
    match part {
        ReplacementPart::Literal(bytes) => put_quoted(sheet, b' ', bytes.as_slice()),
        ReplacementPart::Whole => sheet.put(b" &"),
        ReplacementPart::Group(k) => {
            sheet.put_byte(b' ');
            put_target(sheet, b'\\', *k);
        }
    }
}

/// A `y` and the bytes that its table changes.
fn put_table(sheet: &mut Sheet, table: &[u8]) {
    sheet.put_byte(b'y');
    let mut source = 0u8;
    for target in table {
        if source != *target {
            sheet.put(&[b' ', source, *target]);
        }
        source = source.wrapping_add(1);
    }
}

/// The letter of a command that is one letter.
fn letter_of(simple: Simple) -> u8 {
    match simple {
        Simple::AppendNext => b'N',
        Simple::CopyHold => b'g',
        Simple::AppendHold => b'G',
        Simple::Hold => b'h',
        Simple::HoldMore => b'H',
        Simple::Exchange => b'x',
        Simple::Delete => b'd',
        Simple::DeleteFirst => b'D',
        Simple::LineNumber => b'=',
        Simple::List => b'l',
        Simple::NextLine => b'n',
        Simple::Print => b'p',
        Simple::PrintFirst => b'P',
        Simple::Quit => b'q',
    }
}
