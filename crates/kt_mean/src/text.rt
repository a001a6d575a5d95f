//! Texts of the language.
ghost use Rattle.std.specs.Prelude.{◌≡◌, IfOk};

use sqlite_items::Items;
use std::alloc::{AllocError, Global};
use std::marker::Model;

/// A text, by its bytes, which clauses see. These are UTF-8 where the source is.
#[derive(Drop)]
pub struct Text {
    bytes: Items<u8>,
}

impl Model for Text {
    ghost use Rattle.std.specs.Prelude.{ℕ, List};

    ghost Value = { List ℕ };

    ghost view = { λ t. t.bytes };
}

impl Text {
    /// The text with these bytes.
    pub fn new(bytes: Items<u8>) -> Text
        ensures { result ≡ bytes }
    {
        Text { bytes }
    }

    /// Its bytes.
    pub fn bytes(&self) -> &[u8]
        ensures { result.now ≡ self.now }
    {
        self.bytes.as_slice()
    }

    /// The same text once more; an error where there is no memory for it.
    pub fn copied(&self, alloc: Global) -> Result<Text, AllocError>
        ensures { IfOk result (λ text. text ≡ self.now) }
    {
        let bytes = Items::from_slice(alloc, self.bytes.as_slice())?;
        Ok(Text { bytes })
    }
}
