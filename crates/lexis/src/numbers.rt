// Hexadecimal numbers in a line.
ghost use Rattle.std.specs.Prelude.{◌≡◌, ℕ, ◌+◌, ◌^◌, ◌<◌, ◌≤◌, length, MatchOption, ◌≢◌};
ghost use Rattle.lexis.specs.Numeral.{glyph, Number, Extends, Leads};
ghost use Rattle.lexis.specs.Moving.{rest_of, column_of};
ghost use Rattle.lexis.specs.Reading.{Reading};

use crate::lost::Lost;
use crate::reader::Reader;
use crate::tokens::{Divider, Token, next_token};

// The digit that a byte shows. Not `to_digit`, which takes the upper case too.
fn digit(b: u8) -> Option<u64>
    ensures { MatchOption result ((d : ℕ) → d < 16 → b ≢ glyph d) (λ d. (d < 16) × (b ≡ glyph d)) }
{
    match char::from(b) {
        '0'..='9' => Some(u64::from(b - b'0')),
        'a'..='f' => Some(u64::from(b - b'a' + 10)),
        _ => None,
    }
}

// The byte that shows a digit. Not `from_digit`, whose answer is an Option of a char. The casts lose
// nothing, since a digit is below 16.
pub(crate) fn glyph_of(d: u64) -> u8
    requires { d < 16 }
    ensures { result ≡ glyph d }
{
    if d < 10 {
        b'0' + d as u8
    } else {
        b'a' + (d - 10) as u8
    }
}

// The number that the digits at the front of a text write, and how many digits they are.
#[derive(Clone, Copy)]
struct Front {
    value: u64,
    digits: usize,
}

impl Front {
    // The number up to `most` that one more byte makes.
    fn extended(self, b: u8, most: u64) -> Option<u64>
        ensures { MatchOption result ((n : ℕ) → Extends 16 most self.digits self.value b n → ⊥) (λ n. Extends 16 most self.digits self.value b n) }
    {
        let d = digit(b)?;
        if self.digits > 0 && self.value == 0 {
            return None;
        }
        let next = self.value.checked_mul(16)?.checked_add(d)?;
        if next > most {
            return None;
        }
        Some(next)
    }
}

// The longest front of `text` that begins a number up to `most`.
fn leading(text: &[u8], most: u64) -> Front
    ensures { Leads 16 most text.now result.value result.digits }
{
    let mut value = 0;
    for (digits, b) in text.iter().enumerate() {
        let front = Front { value, digits };
        let Some(next) = front.extended(*b, most) else {
            return front;
        };
        value = next;
    }
    Front {
        value,
        digits: text.len(),
    }
}

// A number up to `most` at the front of what a reader has left, and the divider after it: its value and
// the rest, or the column at which they fail.
pub(crate) fn number_at<'a>(
    reader: &Reader<'a>,
    most: u64,
    end: Divider,
) -> Result<(u64, &'a [u8]), Lost>
    ensures { Reading (Number 16 most end) (rest_of reader.now) (column_of reader.now) result }
{
    let column = reader.column();
    let (token, after) = next_token(reader.rest(), column);
    let Token::Word(text, at) = token else {
        return Err(Lost { column });
    };
    let front = leading(text, most);
    let stopped = at + front.digits;
    if front.digits < text.len() {
        return Err(Lost { column: stopped });
    }
    let stop = end.byte();
    match after {
        [c, tail @ ..] if *c == stop => Ok((front.value, tail)),
        _ => Err(Lost { column: stopped }),
    }
}
