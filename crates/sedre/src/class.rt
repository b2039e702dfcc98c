//! The character classes of the POSIX locale (XBD 7.3.1).
ghost use Rattle.std.specs.Prelude.{◌≡◌, nat_eq};
ghost use Rattle.std.specs.Cmp.Lexicographic.{pointwise};
ghost use Rattle.sedre.specs.Sets.{in_class, class_named};

/// A character class. Bytes from 128 on are in none.
#[derive(Clone, Copy)]
pub enum Class {
    Alnum,
    Alpha,
    Blank,
    Cntrl,
    Digit,
    Graph,
    Lower,
    Print,
    Punct,
    Space,
    Upper,
    Xdigit,
}

/// Whether the bytes are this word.
fn is(bytes: &[u8], word: &str) -> bool
    ensures { result ≡ pointwise nat_eq bytes.now word.now }
{
    bytes == word.as_bytes()
}

impl Class {
    /// The class of this name, which is between `[:` and `:]`, if there is one.
    pub fn named(name: &[u8]) -> Option<Class>
        ensures { result ≡ class_named name.now }
    {
        if is(name, "alnum") {
            Some(Class::Alnum)
        } else if is(name, "alpha") {
            Some(Class::Alpha)
        } else if is(name, "blank") {
            Some(Class::Blank)
        } else if is(name, "cntrl") {
            Some(Class::Cntrl)
        } else if is(name, "digit") {
            Some(Class::Digit)
        } else if is(name, "graph") {
            Some(Class::Graph)
        } else if is(name, "lower") {
            Some(Class::Lower)
        } else if is(name, "print") {
            Some(Class::Print)
        } else if is(name, "punct") {
            Some(Class::Punct)
        } else if is(name, "space") {
            Some(Class::Space)
        } else if is(name, "upper") {
            Some(Class::Upper)
        } else if is(name, "xdigit") {
            Some(Class::Xdigit)
        } else {
            None
        }
    }

    /// Whether the byte is in the class.
    pub fn has(self, b: u8) -> bool
        ensures { result ≡ in_class self b }
    {
        match self {
            Class::Alnum => b.is_ascii_alphanumeric(),
            Class::Alpha => b.is_ascii_alphabetic(),
            Class::Blank => b == b'\t' || b == b' ',
            Class::Cntrl => b.is_ascii_control(),
            Class::Digit => b.is_ascii_digit(),
            Class::Graph => b.is_ascii_graphic(),
            Class::Lower => b.is_ascii_lowercase(),
            Class::Print => b == b' ' || b.is_ascii_graphic(),
            Class::Punct => b.is_ascii_punctuation(),
            // A vertical tab is a space here, and no whitespace of Rust's.
            Class::Space => b == 11 || b.is_ascii_whitespace(),
            Class::Upper => b.is_ascii_uppercase(),
            Class::Xdigit => b.is_ascii_hexdigit(),
        }
    }
}
