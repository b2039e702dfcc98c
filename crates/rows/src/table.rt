//! Tables as they are written.
//!
//! A row is a line. Its fields are parted by two blanks or more, so one may have single blanks; `decoder` says
//! what stands for the bytes of a field. Lines that are empty, or begin with `#` and a blank, are no rows.
//! A row begins with the fields that its subject asks for; options follow, as `-n` or `space=3`.

use crate::decoder::decoded;
use crate::options::Options;
use crate::shape::number_in;
use std::alloc::Global;
use std::str;

/// A row of a table.
#[derive(Drop)]
pub(crate) struct SheetRow {
    /// Its line in the file, counted from 1.
    pub line: usize,
    /// Where its run takes memory from.
    pub alloc: Global,
    pub fields: Vec<Vec<u8>>,
}

impl SheetRow {
    /// The field of a number, counted from 0. What follows gives one that is missing, or isn't as it has to be, as empty or 0.
    pub(crate) fn field(&self, k: usize) -> &[u8] {
        match self.fields.get(k) {
            Some(field) => field.as_slice(),
            None => b"",
        }
    }

    /// The field of a number as a text, empty where it is none.
    pub(crate) fn text(&self, k: usize) -> &str {
        str::from_utf8(self.field(k)).unwrap_or("")
    }

    /// The field of a number as a number.
    pub(crate) fn number(&self, k: usize) -> usize {
        number_in(self.field(k)).unwrap_or(0)
    }

    /// The fields from a number on.
    pub(crate) fn options(&self, from: usize) -> Options<'_> {
        Options {
            written: &self.fields[from.min(self.fields.len())..],
        }
    }
}

/// The rows of a table's text, or the line of one that can't be read: an escape means nothing or isn't closed, or there is no
/// memory.
pub(crate) fn rows_of(alloc: Global, text: &str) -> Result<Vec<SheetRow>, usize> {
    let mut rows = Vec::new(alloc);
    let mut line = 0usize;
    for content in text.lines() {
        line = line.saturating_add(1);
        if !content.is_empty() && content != "#" && !content.starts_with("# ") {
            add_row(&mut rows, line, content).ok_or(line)?;
        }
    }
    Ok(rows)
}

/// Adds the row of a line.
fn add_row(rows: &mut Vec<SheetRow>, line: usize, content: &str) -> Option<()> {
    let alloc = *rows.allocator();
    let fields = fields_of(alloc, content)?;
    rows.push(SheetRow {
        line,
        alloc,
        fields,
    })
    .ok()
}

/// The fields of a row.
fn fields_of(alloc: Global, line: &str) -> Option<Vec<Vec<u8>>> {
    let mut fields = Vec::new(alloc);
    for part in line.split("  ") {
        let written = part.trim_matches(' ');
        if !written.is_empty() {
            fields.push(decoded(alloc, written.as_bytes())?).ok()?;
        }
    }
    Some(fields)
}

/// Adds a copy of the bytes. None for want of memory.
pub(crate) fn add_copy(list: &mut Vec<Vec<u8>>, bytes: &[u8]) -> Option<()> {
    match bytes.to_vec(*list.allocator()) {
        Ok(copy) => list.push(copy).ok(),
        Err(_) => None,
    }
}
