//! Bytes that are being written.

use std::alloc::Global;
use std::fmt::Display;

/// Bytes that are being written. What can't be added for want of memory is left out, and `is_whole` is false then: so a
/// writer needs no test at each byte.
#[derive(Drop)]
pub(crate) struct Sheet {
    pub bytes: Vec<u8>,
    pub is_whole: bool,
}

impl Sheet {
    /// No bytes yet.
    pub(crate) fn new(alloc: Global) -> Sheet {
        Sheet {
            bytes: Vec::new(alloc),
            is_whole: true,
        }
    }

    /// Whether nothing was written or left out.
    pub(crate) fn is_empty(&self) -> bool {
        self.is_whole && self.bytes.is_empty()
    }

    /// Writes a byte.
    pub(crate) fn put_byte(&mut self, b: u8) {
        self.put(&[b]);
    }

    /// Writes bytes.
    pub(crate) fn put(&mut self, bytes: &[u8]) {
        if self.bytes.extend_from_slice(bytes).is_err() {
            self.is_whole = false;
        }
    }

    /// Writes a text, or a number in decimal digits.
    pub(crate) fn put_text<D: Display + Drop>(&mut self, text: D) {
        match format!(in *self.bytes.allocator(); "{text}") {
            Ok(text) => self.put(text.as_bytes()),
            Err(_) => self.is_whole = false,
        }
    }
}
