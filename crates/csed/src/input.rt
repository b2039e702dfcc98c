//! The input of a call.
ghost use Rattle.std.specs.Prelude.{◌≡◌, Some, None, []};

use sedspace::{Broken, ByteSource};

/// Bytes that the caller lends. No read of them fails.
#[derive(Drop)]
pub(crate) struct LentBytes<'a> {
    left: &'a [u8],
}

impl<'a> LentBytes<'a> {
    /// The bytes as an input.
    pub(crate) fn new(bytes: &'a [u8]) -> LentBytes<'a>
        ensures { result ≡ record { left = bytes.entry } }
    {
        LentBytes { left: bytes }
    }
}

impl<'a> ByteSource for LentBytes<'a> {
    ghost remaining = { λ s. Some s.left.now };

    ghost failures = { λ _. 0 };

    ghost reads = { λ _. None };

    ghost reference = { λ _. [] };

    fn read(&mut self, buf: &mut [u8]) -> Result<usize, Broken> {
        let count = self.left.len().min(buf.len());
        let (first, rest) = self.left.split_at(count);
        buf[..count].copy_from_slice(first);
        self.left = rest;
        Ok(count)
    }
}
