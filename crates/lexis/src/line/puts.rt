// Writing into a line, and copying it out.
ghost use Rattle.std.specs.Prelude.{◌≡◌, [], ◌∷◌, length};
ghost use Rattle.lexis.specs.Numeral.{numeral};
ghost use Rattle.lexis.specs.Shown.{shown, Adds, past, placed};

use super::Line;
use crate::numbers::glyph_of;
use arrayvec::ArrayVec;

impl Line {
    // An empty line.
    pub fn new() -> Line
        ensures { shown result ≡ [] }
    {
        Line {
            text: ArrayVec::new(),
        }
    }

    pub fn len(&self) -> usize
        ensures { result ≡ length (shown self.now) }
    {
        self.text.len()
    }

    // Puts one byte, if there is room.
    pub fn push(&mut self, b: u8)
        ensures { Adds self.old (b ∷ []) self.new }
    {
        if !self.text.is_full() {
            self.text.push(b);
        }
    }

    // Puts a text, as much of it as there is room for.
    pub fn put(&mut self, text: &[u8])
        ensures { Adds self.old text.now self.new }
    {
        let n = text.len().min(self.text.remaining_capacity());
        let _ = self.text.try_extend_from_slice(&text[..n]);
    }

    // Puts a number in hexadecimal, without leading zeros. Not `write!` with `{n:x}`, since no clause says
    // that it answers Ok, and only then does it promise its text.
    pub fn hex(&mut self, n: u64)
        ensures { Adds self.old (numeral 16 n) self.new }
    {
        if n >= 16 {
            self.hex(n / 16);
        }
        self.push(glyph_of(n % 16));
    }

    // Copies the line into `buffer` from `at` on, if it fits there whole, and answers where it ends.
    pub fn copy_to(&self, buffer: &mut [u8], at: usize) -> Option<usize>
        ensures answer { result ≡ past (shown self.now) at buffer.old }
        ensures after { buffer.new ≡ placed (shown self.now) at buffer.old }
    {
        let text = self.text.as_slice();
        if text.len() > buffer.len() || at > buffer.len() - text.len() {
            return None;
        }
        let end = at + text.len();
        buffer[at..end].copy_from_slice(text);
        Some(end)
    }
}
