//! A script, word by word.
ghost use Rattle.std.specs.Prelude.{◌≡◌};
ghost use Rattle.kmip_scripted.specs.Words.{crashes, prolongings};

use crate::word::Word;
use crate::words::{is_crash, is_prolong};
use std::marker::Model;

/// What a link is to do, in order. A contract sees the list of its words.
#[derive(Drop)]
pub struct Script {
    words: Vec<Word>,
}

impl Model for Script {
    ghost use Rattle.std.specs.Prelude.{List};
    ghost use Rattle.kmip_scripted.specs.declared.word.Word.{Word as WordLem};

    ghost Value = { List WordLem };

    ghost view = { λ s. s.words.items };
}

impl Script {
    /// A script of these words. Takes no memory.
    pub fn new(words: Vec<Word>) -> Self
        ensures { result ≡ words.items }
    {
        Script { words }
    }

    /// Its words, in order.
    pub fn words(&self) -> &[Word]
        ensures { result.now ≡ self.now }
    {
        self.words.as_slice()
    }

    /// How many words `prolong` it has. Takes no memory.
    pub fn prolongings(&self) -> usize
        ensures { result ≡ prolongings self.now }
    {
        self.words.iter().filter(|word| is_prolong(**word)).count()
    }

    /// How many words `crash` it has. Takes no memory.
    pub fn crashes(&self) -> usize
        ensures { result ≡ crashes self.now }
    {
        self.words.iter().filter(|word| is_crash(**word)).count()
    }

    /// Its words as a vector. Takes no memory.
    pub fn into_words(self) -> Vec<Word>
        ensures { result.items ≡ self }
    {
        self.words
    }
}
