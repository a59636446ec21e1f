//! Text in which nothing is read as a mark of XML: what would be is written by its number.

use crate::page::Page;
use ame_term::NoMemory;

impl Page {
    ghost use Rattle.std.specs.Prelude.{◌≡◌, ◌++◌, ◌∷◌, ℕ, List, OnOk};
    ghost use Rattle.ame_page.specs.Escapes.{escaped, escaped_byte, HasNoMark};

    /// Appends a text in which nothing is read as a mark. Before a `<` only one text can have given it.
    pub fn add_escaped(&mut self, text: &[u8]) -> Result<(), NoMemory>
        ensures page { OnOk result (self.new ≡ self.old ++ escaped text.now) }
        ensures bare { HasNoMark (escaped text.now) }
        ensures one { (other after rest : List ℕ) → escaped text.now ++ 60 ∷ after ≡ escaped other ++ 60 ∷ rest
            → (text.now ≡ other) × (after ≡ rest) }
    {
        for byte in text {
            self.add_escaped_byte(*byte)?;
        }
        Ok(())
    }

    fn add_escaped_byte(&mut self, byte: u8) -> Result<(), NoMemory>
        ensures { OnOk result (self.new ≡ self.old ++ escaped_byte byte) }
    {
        if !is_mark(byte) {
            return self.add_byte(byte);
        }
        self.add(b"&#")?;
        self.add_number(u64::from(byte))?;
        self.add(b";")
    }
}

ghost use Rattle.std.specs.Prelude.{◌≡◌};
ghost use Rattle.ame_page.specs.Escapes as spec;

/// Returns whether a byte would be read as a mark.
fn is_mark(byte: u8) -> bool
    ensures { result ≡ spec.is_mark byte }
{
    matches!(byte, b'&' | b'<' | b'>' | b'"')
}
