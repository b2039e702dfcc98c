//! A match, as a search answers it.
ghost use Rattle.std.specs.Prelude.{◌≡◌, ◌≤◌, length};
ghost use Rattle.sedtext.specs.Answer.{SpanIn};
ghost use Rattle.sedtext.specs.Groups.{span_of, part_of};

/// A match, and which part of the text each group reports.
#[derive(Clone, Copy)]
pub struct Found {
    /// Where the match begins.
    pub start: usize,
    /// Where it ends: the place after its last byte.
    pub end: usize,
    /// Entry 0 is the whole match, and entry `k` the span of group `k`, or `None` where the group has no match.
    pub groups: [Option<(usize, usize)>; 10],
}

impl Found {
    /// The bytes of group `k` in the text, and of the whole match for 0; empty where the group has no match.
    /// Conditions: `k` is at most 9, and the text is the one in which the match was found.
    pub fn part<'a>(&self, text: &'a [u8], k: usize) -> &'a [u8]
        requires group { k ≤ 9 }
        requires lies { SpanIn (length text.now) (span_of self.now.groups k) }
        ensures { result.now ≡ part_of text.now (span_of self.now.groups k) }
    {
        match self.groups[k] {
            None => &[],
            Some((start, end)) => &text[start..end],
        }
    }
}
