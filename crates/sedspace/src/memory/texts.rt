//! Texts over memory.
ghost use Rattle.std.specs.Prelude.{◌≡◌, ◌≢◌, ◌-◌, ◌<◌, ◌≤◌, ℕ, Some, length, take, min};
ghost use Rattle.sedspace.specs.Reading.{ReadsAt};
ghost use Rattle.sedspace.specs.Memory.{text_bytes};

use crate::Texts;

/// Texts in memory, numbered from 0.
#[derive(Drop)]
pub struct MemoryTexts {
    held: Vec<Vec<u8>>,
}

impl MemoryTexts {
    /// Makes texts of a list, in its order.
    pub fn new(texts: Vec<Vec<u8>>) -> MemoryTexts
        ensures { result.held ≡ texts }
    {
        MemoryTexts { held: texts }
    }

    /// Makes reads of the text fail from this place on, so that it ends there; with 0 it can't be read at all.
    pub fn fail_at(&mut self, number: usize, place: usize)
        requires { number < length self.old.held.items }
        ensures failed { text_bytes self.new.held.items number ≡ take place (text_bytes self.old.held.items number) }
        ensures others { (j : ℕ) → j ≢ number
            → text_bytes self.new.held.items j ≡ text_bytes self.old.held.items j }
        ensures count { length self.new.held.items ≡ length self.old.held.items }
    {
        self.held[number].truncate(place);
    }
}

impl Texts for MemoryTexts {
    ghost text = { λ t k. Some (text_bytes t.held.items k) };

    fn read_at(&mut self, number: usize, offset: u64, buf: &mut [u8]) -> usize
        ensures bound { result ≤ length buf.new }
        ensures bytes { ReadsAt (Some (text_bytes self.old.held.items number)) offset result buf.new }
        ensures count { result ≡ min (length (text_bytes self.old.held.items number) - offset) (length buf.new) }
        ensures kept { self.new ≡ self.old }
    {
        if number >= self.held.len() {
            return 0;
        }
        let text = self.held[number].as_slice();
        let start = (offset as usize).min(text.len());
        let count = (text.len() - start).min(buf.len());
        buf[..count].copy_from_slice(&text[start..start + count]);
        count
    }
}
