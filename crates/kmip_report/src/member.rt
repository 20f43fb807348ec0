//! A member of a document.
ghost use Rattle.std.specs.Prelude.{◌≡◌, map, option_map};
ghost use Rattle.serde_json.specs.Data.{boolean, null, string};
ghost use Rattle.kmip_report.specs.Documents.{count, count_or_null, numbers_of, text_or_null, words_of};
ghost use Rattle.kmip_report.specs.Members.{pair_of};

use crate::datum::Datum;

/// A name and its value.
#[derive(Clone, Copy)]
pub struct Member<'a> {
    /// The name. A document should have one member of a name: of several, a reader keeps the last.
    pub name: &'static str,
    /// The value of that name.
    pub value: Datum<'a>,
}

impl<'a> Member<'a> {
    /// A member that is true or false.
    pub fn truth(name: &'static str, is_so: bool) -> Self
        ensures { pair_of result ≡ (name.now, boolean is_so) }
    {
        let value = Datum::Truth(is_so);
        Member { name, value }
    }

    /// A member that is a number from 0.
    pub fn count(name: &'static str, number: u64) -> Self
        ensures { pair_of result ≡ (name.now, count number) }
    {
        let value = Datum::Number(number);
        Member { name, value }
    }

    /// A member that is a number from 0, or null if there is none.
    pub fn count_or_null(name: &'static str, number: Option<usize>) -> Self
        ensures { pair_of result ≡ (name.now, count_or_null number) }
    {
        match number {
            Some(number) => Member::count(name, number as u64),
            None => Member::null(name),
        }
    }

    /// A member that is a text.
    pub fn text(name: &'static str, word: &'a str) -> Self
        ensures { pair_of result ≡ (name.now, string word.now) }
    {
        let value = Datum::Text(word);
        Member { name, value }
    }

    /// A member that is a text, or null if there is none.
    pub fn text_or_null(name: &'static str, word: Option<&'a str>) -> Self
        ensures { pair_of result
            ≡ (name.now, text_or_null (option_map (λ word. word.now) word.entry)) }
    {
        match word {
            Some(word) => Member::text(name, word),
            None => Member::null(name),
        }
    }

    /// A member that is an array of texts.
    pub fn words(name: &'static str, words: &'a [&'a str]) -> Self
        ensures { pair_of result ≡ (name.now, words_of (map (λ word. word.now) words.now)) }
    {
        let value = Datum::Words(words);
        Member { name, value }
    }

    /// A member that is an array of numbers from 0.
    pub fn numbers(name: &'static str, numbers: &'a [u32]) -> Self
        ensures { pair_of result ≡ (name.now, numbers_of numbers.now) }
    {
        let value = Datum::Numbers(numbers);
        Member { name, value }
    }

    /// A member that is null.
    fn null(name: &'static str) -> Self
        ensures { pair_of result ≡ (name.now, null) }
    {
        let value = Datum::Null("");
        Member { name, value }
    }
}
