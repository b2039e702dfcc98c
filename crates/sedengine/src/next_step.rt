//! Where the engine is between its moves.

/// What is to be done next.
#[derive(Clone, Copy)]
pub(crate) enum NextStep {
    /// A cycle starts.
    Begin,
    /// A cycle starts with the pattern space as it is.
    Rebegin,
    /// The command of this number is reached, or the end of the script.
    Do(usize),
    /// The pattern space and the queue are written for the last time.
    WriteLast,
    /// Nothing: the run is over.
    Ended,
}
