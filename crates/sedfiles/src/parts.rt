//! The parts of a script and the operands, in the order of the words.
ghost use Rattle.std.specs.Prelude.{[], ◌≡◌, ◌<◌, Some, drop, length, map, slice_get, string_bytes, take, IfOk};
ghost use Rattle.sedfiles.specs.CommandLine.{AreParts, AsksParts};
ghost use Rattle.sedfiles.specs.CommandLineParts.{precedes, given, in_order, word_place, texts_in};

use crate::asked::Part;
use std::alloc::{AllocError, Global};

/// The uses of an option: its words, and their places among all words.
#[derive(Clone, Copy)]
pub(crate) struct Uses<'m, 'a> {
    pub(crate) words: &'m [&'a str],
    pub(crate) places: &'m [usize],
}

/// What words ask for besides -n and -E.
#[derive(Drop)]
pub(crate) struct Asked {
    /// The parts of the script.
    pub(crate) parts: Vec<Part>,
    /// The names of the input files.
    pub(crate) operands: Vec<String>,
}

impl<'m, 'a> Uses<'m, 'a> {
    /// The word of this number.
    fn word(&self, number: usize) -> &'a str
        requires { number < length self.now.words.now }
        ensures { slice_get (texts_in self.now) number ≡ Some result.now }
    {
        self.words[number]
    }

    /// The place of the word of this number.
    fn place(&self, number: usize) -> usize
        ensures { result ≡ word_place self.now.places.now number }
    {
        self.places.get(number).copied().unwrap_or(0)
    }

    /// Whether the word of this number comes before that one of the others.
    fn comes_first(&self, number: usize, others: &Uses<'_, '_>, other: usize) -> bool
        ensures { result ≡ precedes (texts_in self.now) self.now.places.now number
            (texts_in others.now) others.now.places.now other }
    {
        number < self.words.len()
            && (other >= others.words.len() || self.place(number) < others.place(other))
    }
}

/// The parts that -e and -f give, in the order of the words.
fn parts_in_order(
    alloc: Global,
    scripts: Uses<'_, '_>,
    files: Uses<'_, '_>,
) -> Result<Vec<Part>, AllocError>
    ensures order { IfOk result (λ parts. map given parts.items
        ≡ in_order (texts_in scripts.entry) scripts.entry.places.now (texts_in files.entry) files.entry.places.now) }
    ensures all { IfOk result (λ parts. AreParts parts.items (texts_in scripts.entry) (texts_in files.entry)) }
{
    let mut parts = Vec::with_capacity(alloc, scripts.words.len() + files.words.len())?;
    let mut scripted = 0;
    let mut filed = 0;
    while scripted < scripts.words.len() || filed < files.words.len() {
        if scripts.comes_first(scripted, &files, filed) {
            parts.push_reserved(Part::Script(String::from_str(alloc, scripts.word(scripted))?));
            scripted += 1;
        } else {
            parts.push_reserved(Part::File(String::from_str(alloc, files.word(filed))?));
            filed += 1;
        }
    }
    Ok(parts)
}

/// The words as strings.
fn strings(alloc: Global, words: &[&str]) -> Result<Vec<String>, AllocError>
    ensures { IfOk result (λ strings. map string_bytes strings.items ≡ map (λ s. s.now) words.now) }
{
    let mut strings = Vec::with_capacity(alloc, words.len())?;
    for word in words {
        strings.push_reserved(String::from_str(alloc, word)?);
    }
    Ok(strings)
}

/// The words after the first.
fn after_first<'m, 'a>(words: &'m [&'a str]) -> &'m [&'a str]
    ensures { result.now ≡ drop 1 words.entry.now }
{
    &words[words.len().min(1)..]
}

/// The first word as a script.
fn first_as_script(alloc: Global, words: &[&str]) -> Result<Vec<Part>, AllocError>
    ensures { IfOk result (λ parts. AreParts parts.items (take 1 (map (λ s. s.now) words.now)) []) }
{
    let mut parts = Vec::new(alloc);
    if let Some(script) = words.first() {
        parts.push(Part::Script(String::from_str(alloc, script)?))?;
    }
    Ok(parts)
}

/// What the scripts of -e, the files of -f and the operands ask for.
pub(crate) fn asked_of(
    alloc: Global,
    scripts: Uses<'_, '_>,
    files: Uses<'_, '_>,
    operands: &[&str],
) -> Result<Asked, AllocError>
    ensures { IfOk result (λ a. AsksParts (texts_in scripts.entry) (texts_in files.entry) (map (λ s. s.now) operands.now)
        a.parts.items (map string_bytes a.operands.items)) }
{
    if scripts.words.is_empty() && files.words.is_empty() {
        return Ok(Asked {
            parts: first_as_script(alloc, operands)?,
            operands: strings(alloc, after_first(operands))?,
        });
    }
    Ok(Asked {
        parts: parts_in_order(alloc, scripts, files)?,
        operands: strings(alloc, operands)?,
    })
}
