//! A text that grows at its end.

ghost use Rattle.std.specs.Prelude.{◌≡◌, ◌++◌, ◌∷◌, [], OnOk, decimal, replicate};
ghost use Rattle.std.specs.Fmt.{signed_decimal};
ghost use Rattle.ame_page.specs.Columns.{column, padded};

use ame_term::NoMemory;
use itoa::Buffer;
use std::alloc::Global;
use std::marker::Model;

/// The bytes so far. If a call fails for memory, a part of what it was to append may be there.
#[derive(Drop)]
pub struct Page {
    bytes: Vec<u8>,
}

impl Model for Page {
    ghost use Rattle.std.specs.Prelude.{List, ℕ};

    ghost Value = { List ℕ };

    ghost view = { λ a. a.bytes.items };
}

impl Page {
    /// Returns an empty page. It takes no memory.
    pub fn new(alloc: Global) -> Page
        ensures { result ≡ [] }
    {
        Page {
            bytes: Vec::new(alloc),
        }
    }

    /// Returns the bytes.
    pub fn as_slice(&self) -> &[u8]
        ensures { result.now ≡ self.now }
    {
        self.bytes.as_slice()
    }

    /// Returns the bytes, without a copy.
    pub fn into_bytes(self) -> Vec<u8>
        ensures { result.items ≡ self }
    {
        self.bytes
    }

    /// Returns a page that begins with these bytes, without a copy.
    pub fn from_bytes(bytes: Vec<u8>) -> Page
        ensures { result ≡ bytes.items }
    {
        Page { bytes }
    }

    /// Returns the allocator that the page grows by.
    pub fn allocator(&self) -> Global {
        *self.bytes.allocator()
    }

    /// Appends bytes.
    pub fn add(&mut self, bytes: &[u8]) -> Result<(), NoMemory>
        ensures { OnOk result (self.new ≡ self.old ++ bytes.now) }
    {
        self.bytes.extend_from_slice(bytes)?;
        Ok(())
    }

    /// Appends one byte.
    pub fn add_byte(&mut self, byte: u8) -> Result<(), NoMemory>
        ensures { OnOk result (self.new ≡ self.old ++ byte ∷ []) }
    {
        self.bytes.push(byte)?;
        Ok(())
    }

    /// Appends a number in decimal.
    pub fn add_number(&mut self, number: u64) -> Result<(), NoMemory>
        ensures { OnOk result (self.new ≡ self.old ++ decimal number) }
    {
        let mut buffer = Buffer::new();
        self.add(buffer.format(number).as_bytes())
    }

    /// Appends an integer in decimal, with a minus if it is negative.
    pub fn add_integer(&mut self, integer: i64) -> Result<(), NoMemory>
        ensures { OnOk result (self.new ≡ self.old ++ signed_decimal integer) }
    {
        let mut buffer = Buffer::new();
        self.add(buffer.format(integer).as_bytes())
    }

    /// Appends spaces.
    pub fn add_spaces(&mut self, count: usize) -> Result<(), NoMemory>
        ensures { OnOk result (self.new ≡ self.old ++ replicate count 32) }
    {
        for _ in 0..count {
            self.add_byte(b' ')?;
        }
        Ok(())
    }

    /// Appends a number at the right of a column, and a space.
    pub fn add_column(&mut self, width: usize, number: u64) -> Result<(), NoMemory>
        ensures { OnOk result (self.new ≡ self.old ++ column width number) }
    {
        let mut buffer = Buffer::new();
        let digits = buffer.format(number).as_bytes();
        self.add_spaces(width.saturating_sub(digits.len()))?;
        self.add(digits)?;
        self.add(b" ")
    }

    /// Appends words at the left of a column.
    pub fn add_padded(&mut self, width: usize, words: &[u8]) -> Result<(), NoMemory>
        ensures { OnOk result (self.new ≡ self.old ++ padded width words.now) }
    {
        self.add(words)?;
        self.add_spaces(width.saturating_sub(words.len()))
    }

    /// Appends words and an integer after them.
    pub fn add_labelled(&mut self, words: &[u8], integer: i64) -> Result<(), NoMemory>
        ensures { OnOk result (self.new ≡ self.old ++ (words.now ++ signed_decimal integer)) }
    {
        self.add(words)?;
        self.add_integer(integer)
    }
}
