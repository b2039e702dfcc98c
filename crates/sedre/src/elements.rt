//! The elements of a bracket expression (XBD 9.3.5).
ghost use Rattle.std.specs.Prelude.{◌≡◌, ◌<◌, ◌≤◌, ◌+◌, ◌^◌, length, drop, IfSome};
ghost use Rattle.sedre.specs.Brackets.{before_closing, content, front_form, form_of, front_element};

use crate::class::Class;
use crate::types::ExprReason;

/// An element of a bracket expression.
#[derive(Clone, Copy)]
pub enum Element {
    /// A byte that stands for itself.
    Plain(u8),
    /// A backslash and the delimiter: the delimiter as a literal.
    Delimiter(u8),
    /// A character class, `[:name:]`.
    OfClass(Class),
    /// An equivalence class, `[=x=]`.
    Equivalent(u8),
    /// A collating symbol, `[.x.]`.
    Collating(u8),
    /// A form that names no class, or that contains more than one byte.
    Wrong(ExprReason),
    /// A form that isn't closed. Nothing follows it.
    Unclosed,
}

/// How many bytes come before the first `closing` that a `]` follows, if there is one.
fn before_closing(closing: u8, bytes: &[u8]) -> Option<usize>
    ensures is { result ≡ before_closing closing bytes.now }
    ensures within { IfSome result (λ n. n + 1 < length bytes.now) }
{
    let mut at = 0;
    while at + 1 < bytes.len() {
        if bytes[at] == closing && bytes[at + 1] == b']' {
            return Some(at);
        }
        at += 1;
    }
    None
}

/// The element of a form of this kind, `:`, `=` or `.`, that contains these bytes.
fn form_of(kind: u8, held: &[u8]) -> Element
    ensures { result ≡ form_of kind held.now }
{
    match (kind, held) {
        (b':', _) => match Class::named(held) {
            Some(class) => Element::OfClass(class),
            None => Element::Wrong(ExprReason::UnknownClass),
        },
        (b'=', [b]) => Element::Equivalent(*b),
        (_, [b]) => Element::Collating(*b),
        _ => Element::Wrong(ExprReason::LongCollating),
    }
}

/// The element of the form of this kind whose opening these bytes follow, and how many bytes the form has.
fn form(kind: u8, bytes: &[u8]) -> (Element, usize)
    requires { length bytes.now + 2 < 2 ^ 64 }
    ensures is { result ≡ front_form kind (length bytes.now + 2) (content kind bytes.now) }
    ensures width { (0 < result.1) × (result.1 ≤ length bytes.now + 2) }
{
    let [_, rest @ ..] = bytes else {
        return (Element::Unclosed, 2);
    };
    match before_closing(kind, rest) {
        None => (Element::Unclosed, bytes.len() + 2),
        Some(more) => (form_of(kind, &bytes[..more + 1]), more + 5),
    }
}

/// The element of a list at `at`, and how many bytes it has.
pub fn element_at(delimiter: Option<u8>, text: &[u8], at: usize) -> (Element, usize)
    requires { at < length text.now }
    ensures is { result ≡ front_element delimiter (drop at text.now) }
    ensures width { (0 < result.1) × (at + result.1 ≤ length text.now) }
{
    match &text[at..] {
        [b'\\', c, ..] if delimiter == Some(*c) => (Element::Delimiter(*c), 2),
        [b'[', kind @ (b':' | b'=' | b'.'), ..] => form(*kind, &text[at + 2..]),
        [b, ..] => (Element::Plain(*b), 1),
        [] => (Element::Unclosed, 0),
    }
}
