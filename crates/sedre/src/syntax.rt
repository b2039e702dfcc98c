//! Symbols and tokens: what the bytes of a text are cut into.
use crate::byte_set::ByteSet;
use crate::types::{ExprFault, ExprReason};

/// What one or two bytes mean, wherever they occur.
#[derive(Clone, Copy)]
pub enum Symbol {
    Literal(u8),
    AnyByte,
    Opening,
    Closing,
    Parting,
    Star,
    Plus,
    Question,
    Interval,
    IntervalEnd,
    BracketOpening,
    Caret,
    Dollar,
    Unknown(ExprReason),
}

/// A token of a text.
#[derive(Clone, Copy)]
pub enum Token {
    /// one byte of a set
    Byte(ByteSet),
    /// opens a group
    Open,
    /// closes a group
    Close,
    /// parts two alternatives
    Bar,
    /// repeats the piece before it: at least, and at most, this many times
    Repeat(u8, Option<u8>),
    /// the anchor `^`
    AtBegin,
    /// the anchor `$`
    AtEnd,
}

/// What is at a place of a text.
#[derive(Clone, Copy)]
pub enum NextToken {
    /// a token, and the place after it
    Is(Token, usize),
    /// nothing: the text ends
    Ends,
    /// a fault
    Bad(ExprFault),
}
