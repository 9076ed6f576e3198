ghost use Rattle.std.specs.Prelude.{◌≡◌, ℕ, ◌+◌, ◌^◌, ◌<◌, ◌≤◌, length, Some, IfSome, ◌==◌, position};
ghost use Rattle.ancestry.specs.Ids.{num, num_if};
ghost use Rattle.ancestry.specs.Numbers.{letters, reading, part, from_hex, hex};

use crate::id::Id;
use std::{fmt, str};

/// The sixteen letters of hexadecimal digits.
const LETTERS: [u8; 16] = *b"0123456789abcdef";

impl Id {
    /// The id that forty hexadecimal digits spell, a to f small, or none.
    pub fn from_hex(text: &[u8]) -> Option<Id>
        ensures { num_if result ≡ from_hex text.now }
    {
        if text.len() != 40 {
            return None;
        }
        // Five words of eight letters, written out: there are no more.
        let first = word(text, 0)?;
        let second = word(text, 8)?;
        let third = word(text, 16)?;
        let fourth = word(text, 24)?;
        let fifth = word(text, 32)?;
        Some(Id {
            first,
            second,
            third,
            fourth,
            fifth,
        })
    }

    /// The forty hexadecimal digits of the id, a to f small.
    pub fn to_hex(self) -> [u8; 40]
        ensures letters { result ≡ hex (num self) }
        ensures back { from_hex result ≡ Some (num self) }
        ensures bits { num self < 2 ^ 160 }
    {
        let bytes = self.to_bytes();
        // Two letters for each byte, at twice its number.
        let mut text = [0; 40];
        for (i, byte) in bytes.iter().enumerate() {
            text[2 * i] = LETTERS[(byte / 16) as usize];
            text[2 * i + 1] = LETTERS[(byte % 16) as usize];
        }
        text
    }
}

// The word that eight letters from `at` on spell.
fn word(text: &[u8], at: usize) -> Option<u32>
    requires { at + 8 ≤ length text.now }
    ensures { result ≡ reading (part text.now at 8) }
{
    let a = byte(text, at)?;
    let b = byte(text, at + 2)?;
    let c = byte(text, at + 4)?;
    let d = byte(text, at + 6)?;
    Some(((a * 256 + b) * 256 + c) * 256 + d)
}

// The byte that two letters from `at` on spell.
fn byte(text: &[u8], at: usize) -> Option<u32>
    requires { at + 2 ≤ length text.now }
    ensures value { result ≡ reading (part text.now at 2) }
    ensures small { IfSome result (λ b. b < 256) }
{
    let high = digit(text[at])?;
    let low = digit(text[at + 1])?;
    Some((high * 16 + low) as u32)
}

// The value of a letter, which is its place in the table.
#[tactic(auto, unfolding(crate::specs::Numbers::letters))]
fn digit(letter: u8) -> Option<usize>
    ensures value { result ≡ position (λ l. l == letter) letters }
    ensures small { IfSome result (λ d. d < 16) }
{
    LETTERS.iter().position(|other| *other == letter)
}

impl fmt::Display for Id {
    ghost output = { λ i. Some (hex (num i)) };

    fn fmt<W: fmt::Write>(&self, f: &mut fmt::Formatter<W>) -> fmt::Result {
        let letters = self.to_hex();
        // All letters at once: a formatter takes each piece that it is given on its own.
        f.write_str(str::from_utf8(&letters).unwrap())
    }
}
