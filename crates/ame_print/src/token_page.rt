//! A page to which tokens are added.

ghost use Rattle.std.specs.Prelude.{◌≡◌, ◌∷◌, [], OnOk, decimal};
ghost use Rattle.ame_print.specs.Layout.{open_token, close_token, word as word_token, number_token, symbol as symbol_token};
ghost use Rattle.ame_print.specs.Printer.{with_token};

use ame_page::Page;
use ame_term::NoMemory;
use std::alloc::Global;
use std::marker::Model;

/// The text so far, and whether it is empty or ends with an opening parenthesis.
#[derive(Drop)]
pub struct TokenPage {
    page: Page,
    is_first: bool,
}

impl Model for TokenPage {
    ghost use Rattle.ame_print.specs.Printer.{Page as Printed};

    ghost Value = { Printed };

    ghost view = { λ a. record { text = a.page; is_first = a.is_first } };
}

impl TokenPage {
    ghost use Rattle.std.specs.Prelude.{◌++◌, if◌then◌else◌};
    ghost use Rattle.ame_print.specs.Printer.{blank};

    /// Returns an empty page. It takes no memory.
    pub fn new(alloc: Global) -> TokenPage
        ensures { result ≡ blank }
    {
        TokenPage {
            page: Page::new(alloc),
            is_first: true,
        }
    }

    /// Returns the text.
    pub fn into_text(self) -> Vec<u8>
        ensures { result.items ≡ self.text }
    {
        self.page.into_bytes()
    }

    fn bytes(&mut self, bytes: &[u8]) -> Result<(), NoMemory>
        ensures { OnOk result (self.new ≡ record self.old { text = self.old.text ++ bytes.now }) }
    {
        self.page.add(bytes)
    }

    /// Appends a space, but for the first token of the text or of a form.
    fn gap(&mut self) -> Result<(), NoMemory>
        ensures { OnOk result (self.new ≡ record self.old { text = self.old.text ++ (if self.old.is_first then [] else 32 ∷ []) }) }
    {
        if self.is_first {
            Ok(())
        } else {
            self.bytes(b" ")
        }
    }

    pub fn open(&mut self) -> Result<(), NoMemory>
        ensures { OnOk result (self.new ≡ with_token self.old open_token) }
    {
        self.gap()?;
        self.bytes(b"(")?;
        self.is_first = true;
        Ok(())
    }

    /// Appends an opening parenthesis and the word of a form.
    pub fn begin(&mut self, head: &[u8]) -> Result<(), NoMemory>
        ensures { OnOk result (self.new ≡ with_token (with_token self.old open_token) (word_token head.now)) }
    {
        self.open()?;
        self.word(head)
    }

    pub fn close(&mut self) -> Result<(), NoMemory>
        ensures { OnOk result (self.new ≡ with_token self.old close_token) }
    {
        self.bytes(b")")?;
        self.is_first = false;
        Ok(())
    }

    pub fn word(&mut self, bytes: &[u8]) -> Result<(), NoMemory>
        ensures { OnOk result (self.new ≡ with_token self.old (word_token bytes.now)) }
    {
        self.gap()?;
        self.bytes(bytes)?;
        self.is_first = false;
        Ok(())
    }

    pub fn number(&mut self, value: i64) -> Result<(), NoMemory>
        ensures { OnOk result (self.new ≡ with_token self.old (number_token value)) }
    {
        self.gap()?;
        self.page.add_integer(value)?;
        self.is_first = false;
        Ok(())
    }

    pub fn symbol(&mut self, byte: u8) -> Result<(), NoMemory>
        ensures { OnOk result (self.new ≡ with_token self.old (symbol_token byte)) }
    {
        self.word(&[byte])
    }

    /// Appends a word of one byte and a number.
    pub fn numbered(&mut self, byte: u8, number: u32) -> Result<(), NoMemory>
        ensures { OnOk result (self.new ≡ with_token self.old (word_token (byte ∷ decimal number))) }
    {
        self.gap()?;
        self.page.add_byte(byte)?;
        self.page.add_number(u64::from(number))?;
        self.is_first = false;
        Ok(())
    }
}
