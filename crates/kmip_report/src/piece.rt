//! A piece of a line.
ghost use Rattle.std.specs.Prelude.{◌≡◌, map, option_map};
ghost use Rattle.kmip_report.specs.Members.{data_of, text_of};
ghost use Rattle.kmip_report.specs.PieceViews.{piece_of};
ghost use Rattle.kmip_report.specs.Pieces.{
  absent,
  listed,
  mask,
  number,
  number_or,
  shown,
  shown_or,
  signed,
  signed_or,
  told,
  told_if,
  truth,
  word,
  word_or,
  words,
};

use crate::datum::Datum;
use crate::member::Member;

/// A piece of a line: what it adds to the text, and which member it adds to the document.
#[derive(Clone, Copy)]
pub enum Piece<'a> {
    /// A value in both forms. In text its front is before it; in JSON it is this member.
    Told(&'static str, Member<'a>),
    /// Words in text alone.
    Said(&'a str),
    /// Bytes in text alone, which may not be UTF-8.
    Raw(&'a [u8]),
    /// A member in JSON alone.
    Noted(Member<'a>),
}

impl<'a> Piece<'a> {
    /// A text, which is printed as it is.
    pub fn word(front: &'static str, name: &'static str, text: &'a str) -> Self
        ensures { piece_of result ≡ word front.now name.now text.now }
    {
        Piece::told(front, name, Datum::Text(text))
    }

    /// A text that came from elsewhere: in plain characters in text, and as it is in JSON.
    pub fn shown(front: &'static str, name: &'static str, text: &'a str) -> Self
        ensures { piece_of result ≡ shown front.now name.now text.now }
    {
        Piece::told(front, name, Datum::Shown(text))
    }

    /// A text, which is printed as it is. If there is none, these words in text and null in JSON.
    pub fn word_or(
        front: &'static str,
        name: &'static str,
        words: &'static str,
        text: Option<&'a str>,
    ) -> Self
        ensures { piece_of result
            ≡ word_or front.now name.now words.now (option_map (λ text. text.now) text.entry) }
    {
        match text {
            Some(text) => Piece::word(front, name, text),
            None => Piece::absent(name, words),
        }
    }

    /// A text that came from elsewhere. If there is none, these words in text and null in JSON.
    pub fn shown_or(
        front: &'static str,
        name: &'static str,
        words: &'static str,
        text: Option<&'a str>,
    ) -> Self
        ensures { piece_of result
            ≡ shown_or front.now name.now words.now (option_map (λ text. text.now) text.entry) }
    {
        match text {
            Some(text) => Piece::shown(front, name, text),
            None => Piece::absent(name, words),
        }
    }

    /// A number from 0.
    pub fn number(front: &'static str, name: &'static str, n: u64) -> Self
        ensures { piece_of result ≡ number front.now name.now n }
    {
        Piece::told(front, name, Datum::Number(n))
    }

    /// A number from 0. If there is none, these words in text and null in JSON.
    pub fn number_or(
        front: &'static str,
        name: &'static str,
        words: &'static str,
        n: Option<usize>,
    ) -> Self
        ensures { piece_of result ≡ number_or front.now name.now words.now n }
    {
        match n {
            Some(n) => Piece::number(front, name, n as u64),
            None => Piece::absent(name, words),
        }
    }

    /// An Integer of KMIP: in text with its sign, in JSON its 32 bits as a number from 0.
    pub fn signed(front: &'static str, name: &'static str, n: i32) -> Self
        ensures { piece_of result ≡ signed front.now name.now n }
    {
        Piece::told(front, name, Datum::Signed(n))
    }

    /// An Integer of KMIP. If there is none, these words in text and null in JSON.
    pub fn signed_or(
        front: &'static str,
        name: &'static str,
        words: &'static str,
        n: Option<i32>,
    ) -> Self
        ensures { piece_of result ≡ signed_or front.now name.now words.now n }
    {
        match n {
            Some(n) => Piece::signed(front, name, n),
            None => Piece::absent(name, words),
        }
    }

    /// A usage mask: in text eight hexadecimal digits, in JSON a number.
    pub fn mask(front: &'static str, name: &'static str, n: u32) -> Self
        ensures { piece_of result ≡ mask front.now name.now n }
    {
        Piece::told(front, name, Datum::Mask(n))
    }

    /// True or false.
    pub fn truth(front: &'static str, name: &'static str, is_so: bool) -> Self
        ensures { piece_of result ≡ truth front.now name.now is_so }
    {
        Piece::told(front, name, Datum::Truth(is_so))
    }

    /// Texts: in text each one after a space, in JSON an array.
    pub fn words(front: &'static str, name: &'static str, texts: &'a [&'a str]) -> Self
        ensures { piece_of result
            ≡ words front.now name.now (map (λ text. text.now) texts.now) }
    {
        Piece::told(front, name, Datum::Words(texts))
    }

    /// Lines: in text each one after a line feed, in JSON an array.
    pub fn lines(front: &'static str, name: &'static str, texts: &'a [&'a str]) -> Self
        ensures { piece_of result
            ≡ listed front.now name.now (map (λ text. text.now) texts.now) }
    {
        Piece::told(front, name, Datum::Lines(texts))
    }

    /// The piece if it is to be told in text, else its member in JSON alone.
    pub fn told_if(self, is_told: bool) -> Self
        ensures { piece_of result ≡ told_if is_told (piece_of self.entry) }
    {
        if is_told {
            return self;
        }
        match self {
            Piece::Told(_, member) => Piece::Noted(member),
            Piece::Said(_) => Piece::Said(""),
            Piece::Raw(_) => Piece::Said(""),
            Piece::Noted(member) => Piece::Noted(member),
        }
    }

    /// No value: these words in text, and null in JSON.
    fn absent(name: &'static str, words: &'static str) -> Self
        ensures { piece_of result ≡ absent name.now words.now }
    {
        Piece::told("", name, Datum::Null(words))
    }

    /// A value in both forms.
    fn told(front: &'static str, name: &'static str, value: Datum<'a>) -> Self
        ensures { piece_of result
            ≡ told front.now name.now (text_of value.entry) (data_of value.entry) }
    {
        let member = Member { name, value };
        Piece::Told(front, member)
    }
}
