//! What running a row comes to.

use crate::sheet::Sheet;
use std::fmt::Display;

/// So many bytes of a field are shown at most.
const MOST_SHOWN: usize = 400;

/// What is written where a row can't be run.
pub(crate) type Message = &'static str;

/// What is made of a row, or why it can't be run.
pub(crate) type Made<T> = Result<T, Message>;

/// What is written where a request for memory was refused.
pub(crate) const NO_MEMORY: Message = "no memory";

/// What running a row comes to: nothing where the row holds, else the first thing that came in place of what it says.
pub(crate) type Report = Sheet;

impl Report {
    /// Adds to the difference, where there is one, how the row was run. The greatest number stands for any.
    pub(crate) fn note(&mut self, what: &str, number: usize) {
        if self.is_empty() {
            return;
        }
        self.put(what.as_bytes());
        if number == usize::MAX {
            self.put(b"any");
        } else {
            self.put_text(number);
        }
    }

    /// Writes this difference, where there was none before.
    pub(crate) fn say<D: Display + Drop>(&mut self, text: D) {
        if self.is_empty() {
            self.put_text(text);
        }
    }

    /// Notes where what came isn't what the row says.
    pub(crate) fn compare(&mut self, what: &str, came: &[u8], wanted: &[u8]) {
        if came != wanted && self.is_empty() {
            self.put_text(format_args!("{what}: came "));
            show(came, self);
            self.put(b", expected ");
            show(wanted, self);
        }
    }

    /// Notes where what was written isn't what the row says.
    pub(crate) fn compare_sheet(&mut self, what: &str, came: &Sheet, wanted: &[u8]) {
        self.compare(what, came.bytes.as_slice(), wanted);
        if !came.is_whole {
            self.say(NO_MEMORY);
        }
    }

    /// Notes where a number isn't the one that the row says.
    pub(crate) fn compare_numbers(&mut self, what: &str, came: u128, wanted: usize) {
        if came != wanted as u128 {
            self.say(format_args!("{what}: came {came}, expected {wanted}"));
        }
    }

    /// Whether a fault is the wanted one: a row says its number and name, or the number alone.
    pub(crate) fn compare_faults(&mut self, came: &Sheet, wanted: &[u8]) {
        let rest = came.bytes.strip_prefix(wanted);
        if !matches!(rest, Some([] | [b' ' | b':', ..])) {
            self.compare_sheet("the fault", came, wanted);
        }
    }
}

/// Writes bytes in the escapes of the tables, the first ones of many.
fn show(bytes: &[u8], sheet: &mut Sheet) {
    if bytes.is_empty() {
        sheet.put(b"%e");
    }
    for b in &bytes[..bytes.len().min(MOST_SHOWN)] {
        match *b {
            b'\n' => sheet.put(b"%n"),
            b'\t' => sheet.put(b"%t"),
            b'%' => sheet.put(b"%%"),
            b' '..=b'~' => sheet.put_byte(*b),
            _ => sheet.put_text(format_args!("%x{b:02x}")),
        }
    }
    if bytes.len() > MOST_SHOWN {
        sheet.put_text(format_args!(" .. ({} bytes)", bytes.len()));
    }
}
