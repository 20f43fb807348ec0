//! A list of texts.
ghost use Rattle.std.specs.Prelude.{◌≡◌, ◌++◌, [], ◌∷◌, length, map, option_map, OnOk, OnErr};
ghost use Rattle.std.specs.List.{slice_get};

use kmip_ttlv::Text;
use std::alloc::{AllocError, Global};
use std::marker::Model;

/// Some texts in an order. A contract sees the list of them.
#[derive(Drop)]
pub struct Texts {
    items: Vec<Text>,
}

impl Model for Texts {
    ghost use Rattle.std.specs.Prelude.{ℕ, List};

    ghost Value = { List (List ℕ) };

    ghost view = { λ t. t.items.items };
}

impl Texts {
    /// No texts.
    pub fn new(alloc: Global) -> Self
        ensures { result ≡ [] }
    {
        Texts {
            items: Vec::new(alloc),
        }
    }

    /// The texts of a vector, which is moved: no memory is taken.
    pub fn from_vec(items: Vec<Text>) -> Self
        ensures { result ≡ items.items }
    {
        Texts { items }
    }

    /// The texts as a vector again: no memory is taken.
    pub fn into_vec(self) -> Vec<Text>
        ensures { result.items ≡ self }
    {
        self.items
    }

    /// The texts.
    pub fn as_slice(&self) -> &[Text]
        ensures { result.now ≡ self.now }
    {
        self.items.as_slice()
    }

    /// Puts one more text at the end.
    ///
    /// # Errors
    /// Where there is no memory for it.
    pub fn push(&mut self, text: Text) -> Result<(), AllocError>
        // The text stands after those that were there.
        ensures ok { OnOk result (self.new ≡ self.old ++ text ∷ []) }
        // At want of memory the texts are as they were.
        ensures err { OnErr result (self.new ≡ self.old) }
    {
        self.items.push(text)?;
        Ok(())
    }
}
