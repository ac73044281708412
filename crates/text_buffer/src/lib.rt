#![tactic(auto)]

// Printed bytes in fixed memory. The contracts speak of a buffer by the bytes that stand in it.
ghost use Rattle.std.specs.Prelude.{◌≡◌, ℕ, ◌-◌, ◌≤◌, List, [], ◌∷◌, length, take, drop, replicate, decimal};
ghost use Rattle.text_buffer.specs.TextBuffer.{places, put_behind};

use itoa::Buffer;
use std::marker::Model;

/// How many bytes there is room for.
pub const ROOM: usize = 2048;

// As many bytes as most texts have: for those a count that is known is cleared faster.
const SHORT: usize = 64;

/// Printed bytes: a count, and a place of 2048 bytes, 0 after the count.
#[derive(Drop)]
pub struct TextBuffer {
    count: usize,
    bytes: [u8; ROOM],
}

impl Model for TextBuffer {
    ghost use Rattle.std.specs.Prelude.{◌≡◌, ℕ, ◌-◌, ◌≤◌, List, take, drop, replicate};
    ghost use Rattle.text_buffer.specs.declared.TheConstants.{ROOM};

    ghost Value = { List ℕ };

    ghost view = { λ p. take p.count p.bytes };

    ghost invariant = { λ p. (p.count ≤ ROOM)
        × (drop p.count p.bytes ≡ replicate (ROOM - p.count) 0) };
}

impl TextBuffer {
    /// Nothing is printed yet.
    pub fn new() -> TextBuffer
        ensures { result ≡ [] }
    {
        TextBuffer {
            count: 0,
            bytes: [0; ROOM],
        }
    }

    /// How many bytes are printed.
    pub fn count(&self) -> usize
        ensures counted { result ≡ length self.now }
        ensures fits { result ≤ ROOM }
    {
        self.text().len()
    }

    /// All 2048 places: the printed bytes, and 0 after them.
    pub fn bytes(&self) -> &[u8]
        ensures shown { result.now ≡ places self.now }
        ensures all { length result.now ≡ 2048 }
    {
        &self.bytes[..]
    }

    /// The printed bytes.
    pub fn text(&self) -> &[u8]
        ensures shown { result.now ≡ self.now }
        ensures fits { length result.now ≤ ROOM }
    {
        &self.bytes[..self.count]
    }

    /// Begins anew, with nothing printed.
    pub fn clear(&mut self)
        ensures { self.new ≡ [] }
    {
        if self.count <= SHORT {
            self.bytes[..SHORT].fill(0);
        } else {
            self.bytes[..self.count].fill(0);
        }
        self.count = 0;
    }

    /// Puts a byte behind the others. If there is no room it is dropped.
    pub fn put(&mut self, byte: u8)
        ensures { self.new ≡ put_behind self.old (byte ∷ []) }
    {
        if self.count < ROOM {
            self.bytes[self.count] = byte;
            self.count += 1;
        }
    }

    /// Puts bytes behind the others. Those for which there is no room are dropped.
    pub fn put_all(&mut self, more: &[u8])
        ensures { self.new ≡ put_behind self.old more.now }
    {
        let fitting = (ROOM - self.count).min(more.len());
        self.bytes[self.count..self.count + fitting].copy_from_slice(&more[..fitting]);
        self.count += fitting;
    }

    /// Puts the decimal digits of a number behind the others, without leading zeros. Those for
    /// which there is no room are dropped.
    pub fn put_number(&mut self, number: u32)
        ensures { self.new ≡ put_behind self.old (decimal number) }
    {
        let mut digits = Buffer::new();
        self.put_all(digits.format(number).as_bytes());
    }
}
