//! Texts of any length.

ghost use Rattle.std.specs.Prelude.{◌≡◌, [], IfOk, string_bytes};
ghost use Rattle.ss_names.specs.Names.{itself};

use ss_names::Named;
use ss_value::NoMemory;
use std::alloc::Global;
use std::marker::Model;

/// A text of any length: a SQL text, what is written where a name is meant, or the way to a fault.
///
/// Contracts see its UTF-8 bytes. It takes the memory of these and of three machine words.
#[derive(Drop)]
pub struct Word {
    text: String,
}

impl Model for Word {
    ghost use Rattle.std.specs.Prelude.{List, ℕ, string_bytes};

    ghost Value = { List ℕ };

    ghost view = { λ w. string_bytes w.text };
}

impl Word {
    /// The text of no bytes. Takes no memory.
    pub fn empty(alloc: Global) -> Word
        ensures { result ≡ [] }
    {
        Word {
            text: String::new(alloc),
        }
    }

    /// A copy of a text.
    pub fn of(alloc: Global, text: &str) -> Result<Word, NoMemory>
        ensures { IfOk result (λ word. word ≡ text.now) }
    {
        let text = String::from_str(alloc, text)?;
        Ok(Word { text })
    }

    /// The text of a `String`, which is moved and not copied.
    pub fn from_string(text: String) -> Word
        ensures { result ≡ string_bytes text }
    {
        Word { text }
    }

    /// The text, at no cost.
    pub fn as_str(&self) -> &str
        ensures { result.now ≡ self.now }
    {
        self.text.as_str()
    }

    /// Its bytes, at no cost.
    pub fn as_slice(&self) -> &[u8]
        ensures { result.now ≡ self.now }
    {
        self.text.as_bytes()
    }
}

impl Named for Word {
    ghost name = { itself };

    fn name(&self) -> &[u8] {
        self.as_slice()
    }

    fn text(&self) -> &str {
        self.as_str()
    }
}
