//! The line of a key.
ghost use Rattle.std.specs.Prelude.{◌≡◌, ◌++◌, OnOk, option_map, string_bytes};
ghost use Rattle.kmip_report.specs.PieceViews.{pieces_of};
ghost use Rattle.kmip_report.specs.Pieces.{line_in};
ghost use Rattle.kmip_look_command.specs.LookReport.{bits_of, is_other_type, look_line};
ghost use Rattle.kmip_look_command.specs.Private.{AreWordsOf};

use crate::line_words::{LineWords, numbers_told};
use crate::standing::Standing;
use kmip_client::Knowledge;
use kmip_look::Looked;
use kmip_objects::standard::OBJECT_TYPE_SYMMETRIC_KEY;
use kmip_plan::Key;
use kmip_report::{Form, Member, Piece, push_line};
use kmip_ttlv::NoMemory;
use std::alloc::Global;

/// Appends the line of a key.
pub(crate) fn push_key(
    alloc: Global,
    form: Form,
    key: &Key,
    looked: &Looked,
    text: &mut Vec<u8>,
) -> Result<(), NoMemory>
    ensures { OnOk result (text.new.items
        ≡ text.old.items ++ line_in form (look_line key.now looked.now)) }
{
    let words = LineWords::of(alloc, key, looked)?;
    push_line(alloc, form, &pieces_of_key(key, looked, &words), text)
}

/// The line of a key, given its words.
fn pieces_of_key<'a>(key: &'a Key, looked: &'a Looked, words: &'a LineWords) -> [Piece<'a>; 13]
    requires { AreWordsOf words.now key.now looked.now }
    ensures { pieces_of result ≡ look_line key.now looked.now }
{
    let standing = Standing::of(key, looked);
    let told = numbers_told(&looked.shown);
    let has_state = standing.has_state();
    let is_shown = standing.has_attributes(&looked.shown);
    [
        Piece::word("", "key", key.attrs.name.as_str()),
        Piece::word(" ", "target", key.target.word()),
        Piece::shown_or(" ", "identifier", " -", identifier_of(&looked.known)),
        Piece::word_or(" ", "state", " no state", text_in(&words.state)).told_if(has_state),
        Piece::Noted(Member::text("verdict", looked.known.verdict(key).word())),
        Piece::Said(standing.words()),
        Piece::words("", "to_do", words.to_do.as_slice()),
        Piece::number_or(" type ", "type", " type -", number_in(told.object_type))
            .told_if(is_other_type(told.object_type))
            .told_if(is_shown),
        Piece::word_or(" ", "algorithm", " -", text_in(&words.algorithm)).told_if(is_shown),
        Piece::signed_or(" ", "length", " -", told.length).told_if(is_shown),
        Piece::Said(words.usage.as_str()).told_if(is_shown),
        Piece::Noted(Member::count_or_null("usage", bits_told(told.usage))),
        Piece::word_or("", "not_told", "", text_in(&words.why)),
    ]
}

/// The identifier of a key's object, if it is known.
fn identifier_of(known: &Knowledge) -> Option<&str>
    ensures { option_map (λ uid. uid.now) result ≡ known.now.identifier }
{
    match &known.identifier {
        Some(uid) => Some(uid.as_str()),
        None => None,
    }
}

/// The text, if there is one.
fn text_in(text: &Option<String>) -> Option<&str>
    ensures { option_map (λ word. word.now) result ≡ option_map string_bytes text.now }
{
    match text {
        Some(text) => Some(text.as_str()),
        None => None,
    }
}

/// The number, if there is one.
fn number_in(number: Option<u32>) -> Option<usize>
    ensures { result ≡ number }
{
    match number {
        Some(number) => Some(number as usize),
        None => None,
    }
}

/// True unless the type that was told is that of a symmetric key.
fn is_other_type(object_type: Option<u32>) -> bool
    ensures { result ≡ is_other_type object_type }
{
    match object_type {
        Some(number) => number != OBJECT_TYPE_SYMMETRIC_KEY,
        None => true,
    }
}

/// The bits of the Integer that was told, if one was, as a number from 0.
fn bits_told(integer: Option<i32>) -> Option<usize>
    ensures { result ≡ option_map bits_of integer }
{
    match integer {
        Some(integer) => Some(integer.cast_unsigned() as usize),
        None => None,
    }
}
