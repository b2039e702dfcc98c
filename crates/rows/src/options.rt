//! The options of a row: the fields after those that its subject asks for.
//!
//! An option is a word, as `-n`, or a name and what it is set to, as `space=3` or `w:NAME=TEXT`.

ghost use Rattle.std.specs.Prelude.{◌≢◌, ◌≤◌, Some};

use crate::shape::number_in;
use sedre::Kind;

/// The options of a row.
#[derive(Clone, Copy)]
pub(crate) struct Options<'a> {
    pub written: &'a [Vec<u8>],
}

impl<'a> Options<'a> {
    /// What a name is set to, the last time that it occurs.
    pub(crate) fn value(self, wanted: &[u8]) -> Option<&'a [u8]> {
        let mut value = None;
        for option in self.written {
            let (name, text) = name_and_value(option.as_slice());
            if name == wanted {
                value = Some(text);
            }
        }
        value
    }

    /// Whether the word is among them.
    pub(crate) fn has(self, word: &[u8]) -> bool {
        self.value(word).is_some()
    }

    /// The number that a name is set to.
    pub(crate) fn number(self, name: &[u8]) -> Option<usize> {
        number_in(self.value(name)?)
    }

    /// The number that a name is set to, or this one.
    pub(crate) fn number_or(self, name: &[u8], other: usize) -> usize {
        self.number(name).unwrap_or(other)
    }

    /// `-E`: the kind of expressions.
    pub(crate) fn kind(self) -> Kind {
        if self.has(b"-E") {
            Kind::Extended
        } else {
            Kind::Basic
        }
    }

    /// `delimiter=/`: the delimiter.
    pub(crate) fn delimiter(self) -> Option<u8>
        ensures not_backslash { result ≢ Some 92 }
        ensures not_newline { result ≢ Some 10 }
    {
        delimiter_in(self.value(b"delimiter").unwrap_or(b""))
    }

    /// `nodes=9`: the most nodes of an expression, or this many.
    pub(crate) fn nodes_or(self, other: usize) -> usize
        ensures some { 1 ≤ result }
        ensures most { result ≤ 65536 }
    {
        self.number_or(b"nodes", other).clamp(1, 65536)
    }

    /// `F1 line 2`: the end of a run.
    pub(crate) fn end(self) -> &'a [u8] {
        for option in self.written {
            if option.starts_with(b"F") {
                return option.as_slice();
            }
        }
        b"F0"
    }

    /// How many options begin so, as `w:NAME=TEXT` with `w:`.
    pub(crate) fn files(self, kind: &[u8]) -> usize {
        let mut count = 0usize;
        for option in self.written {
            if option.starts_with(kind) {
                count = count.saturating_add(1);
            }
        }
        count
    }

    /// The name and the text of the file of a kind that has this number, counted from 0.
    pub(crate) fn file(self, kind: &[u8], number: usize) -> Option<(&'a [u8], &'a [u8])> {
        let mut left = number;
        for option in self.written {
            if let Some(file) = option.as_slice().strip_prefix(kind) {
                if left == 0 {
                    return Some(name_and_value(file));
                }
                left -= 1;
            }
        }
        None
    }

    /// The text of the file `r:NAME=TEXT` of a name; one that isn't given is empty.
    pub(crate) fn text_read(self, wanted: &[u8]) -> &'a [u8] {
        for option in self.written {
            if let Some(file) = option.as_slice().strip_prefix(b"r:")
                && let (name, text) = name_and_value(file)
                && name == wanted
            {
                return text;
            }
        }
        b""
    }
}

/// The name of an option, and what follows its `=`.
pub(crate) fn name_and_value(option: &[u8]) -> (&[u8], &[u8]) {
    parted(option, b'=').unwrap_or((option, b""))
}

/// The bytes before the first such byte, and those after it.
pub(crate) fn parted(bytes: &[u8], wanted: u8) -> Option<(&[u8], &[u8])> {
    for place in 0..bytes.len() {
        if bytes[place] == wanted {
            return Some((&bytes[..place], &bytes[place + 1..]));
        }
    }
    None
}

/// The delimiter that the bytes are, if they are one.
pub(crate) fn delimiter_in(bytes: &[u8]) -> Option<u8>
    ensures not_backslash { result ≢ Some 92 }
    ensures not_newline { result ≢ Some 10 }
{
    match bytes {
        [b'\\' | b'\n'] => None,
        [b] => Some(*b),
        _ => None,
    }
}
