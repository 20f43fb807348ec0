//! The writers of lines.
ghost use Rattle.std.specs.Prelude.{◌≡◌, ◌∷◌, ◌++◌, ℕ, List, OnOk, true};
ghost use Rattle.serde_json.specs.Data.{Data};
ghost use Rattle.serde_json.specs.Written.{members_text};
ghost use Rattle.kmip_report.specs.Documents.{members};
ghost use Rattle.kmip_report.specs.Members.{pair_of, text_of};
ghost use Rattle.kmip_report.specs.PieceViews.{piece_of, pieces_of};
ghost use Rattle.kmip_report.specs.Pieces.{json_line, line_in, piece_members, piece_texts, text_line};

use crate::bytes::push_text;
use crate::document::push_member;
use crate::form::Form;
use crate::member::Member;
use crate::piece::Piece;
use crate::shown::push_shown;
use kmip_ttlv::NoMemory;
use std::alloc::Global;

/// How each document begins: the brace, and the version of the documents.
const OPENING: &[u8] = b"{\"version\":1";

/// Appends the line of these pieces in this form, with its line feed.
///
/// # Errors
/// If memory runs out. A part of the line may have been appended then.
pub fn push_line(
    alloc: Global,
    form: Form,
    pieces: &[Piece<'_>],
    text: &mut Vec<u8>,
) -> Result<(), NoMemory>
    // What is appended is exactly the line of these pieces.
    ensures { OnOk result (text.new.items
        ≡ text.old.items ++ line_in form (pieces_of pieces.now)) }
{
    match form {
        Form::Text => push_text_line(alloc, pieces, text),
        Form::Json => push_json_line(alloc, pieces, text),
    }
}

/// Appends the line of these pieces in text.
fn push_text_line(alloc: Global, pieces: &[Piece<'_>], text: &mut Vec<u8>) -> Result<(), NoMemory>
    ensures { OnOk result (text.new.items
        ≡ text.old.items ++ text_line (pieces_of pieces.now)) }
{
    push_texts(alloc, pieces, text)?;
    push_text(b"\n", text)
}

/// Appends the texts of pieces.
fn push_texts(alloc: Global, pieces: &[Piece<'_>], text: &mut Vec<u8>) -> Result<(), NoMemory>
    ensures { OnOk result (text.new.items
        ≡ text.old.items ++ piece_texts (pieces_of pieces.now)) }
{
    for piece in pieces {
        push_piece(alloc, piece, text)?;
    }
    Ok(())
}

/// Appends the text of a piece.
fn push_piece(alloc: Global, piece: &Piece<'_>, text: &mut Vec<u8>) -> Result<(), NoMemory>
    ensures { OnOk result (text.new.items ≡ text.old.items ++ (piece_of piece.now).text) }
{
    match piece {
        Piece::Told(front, member) => push_told(alloc, front, member, text),
        Piece::Said(words) => push_text(words.as_bytes(), text),
        Piece::Raw(bytes) => push_text(bytes, text),
        Piece::Noted(_) => push_text(b"", text),
    }
}

/// Appends a front and the value of a member.
fn push_told(
    alloc: Global,
    front: &str,
    member: &Member<'_>,
    text: &mut Vec<u8>,
) -> Result<(), NoMemory>
    ensures { OnOk result (text.new.items
        ≡ text.old.items ++ (front.now ++ text_of member.now.value)) }
{
    push_text(front.as_bytes(), text)?;
    push_shown(alloc, &member.value, text)
}

/// Appends the line of these pieces in JSON: the version of the documents, and then their members.
fn push_json_line(alloc: Global, pieces: &[Piece<'_>], text: &mut Vec<u8>) -> Result<(), NoMemory>
    ensures { OnOk result (text.new.items
        ≡ text.old.items ++ json_line (pieces_of pieces.now)) }
{
    push_text(OPENING, text)?;
    push_piece_members(alloc, pieces, text)?;
    push_text(b"\n", text)
}

/// Appends the members of pieces, a comma before each, and the brace that closes them.
fn push_piece_members(
    alloc: Global,
    pieces: &[Piece<'_>],
    text: &mut Vec<u8>,
) -> Result<(), NoMemory>
    ensures { OnOk result (text.new.items
        ≡ text.old.items ++ members_text true (members (piece_members (pieces_of pieces.now)))) }
{
    for piece in pieces {
        push_noted(alloc, piece, text)?;
    }
    push_text(b"}", text)
}

/// Appends the member of a piece, if it has one, after a comma.
fn push_noted(alloc: Global, piece: &Piece<'_>, text: &mut Vec<u8>) -> Result<(), NoMemory>
    // Whatever members follow, the piece's member comes before them.
    ensures { OnOk result ((rest : List (List ℕ × Data))
        → text.new.items ++ members_text true (members rest) ≡ text.old.items
        ++ members_text true (members ((piece_of piece.now).members ++ rest))) }
{
    match piece {
        Piece::Told(_, member) => push_next(alloc, member, text),
        Piece::Said(_) => Ok(()),
        Piece::Raw(_) => Ok(()),
        Piece::Noted(member) => push_next(alloc, member, text),
    }
}

/// Appends a comma and a member.
fn push_next(alloc: Global, member: &Member<'_>, text: &mut Vec<u8>) -> Result<(), NoMemory>
    ensures { OnOk result ((rest : List (List ℕ × Data))
        → text.new.items ++ members_text true (members rest) ≡ text.old.items
        ++ members_text true (members (pair_of member.now ∷ rest))) }
{
    push_text(b",", text)?;
    push_member(alloc, member, text)
}
