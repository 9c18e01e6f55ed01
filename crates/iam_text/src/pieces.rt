// The pieces of a draft, made of its text.
ghost use Rattle.std.specs.Prelude.{◌≡◌, ◌++◌, IfOk, OnOk, map};
ghost use Rattle.std.specs.Str.{chars};
ghost use Rattle.iam_glob.specs.Glob.{sign_of};
ghost use Rattle.iam_text.specs.Draft.{plain_draft};
ghost use Rattle.iam_text.specs.Stretches.{piece_of};

use crate::OutOfMemory;
use crate::draft::Piece;
use crate::form::Form;
use crate::stretches::Stretches;
use crate::text::Text;
use iam_glob::sign_of;
use std::alloc::Global;

/// The pieces of what is left of a draft, in order.
pub fn pieces_of(alloc: Global, whole: Stretches<'_>) -> Result<Vec<Piece>, OutOfMemory>
    ensures { IfOk result (λ pieces. pieces.items ≡ whole.entry.pieces) }
{
    let mut left = whole;
    let mut pieces = Vec::new(alloc);
    while let Some((front, form, behind)) = left.first_form() {
        add_plain(&mut pieces, front, left.is_wild())?;
        pieces.push(read_piece(alloc, form)?)?;
        left = behind;
    }
    add_plain(&mut pieces, left.text(), left.is_wild())?;
    Ok(pieces)
}

/// Adds the characters of plain text, each of which is a piece.
fn add_plain(pieces: &mut Vec<Piece>, text: &str, wild: bool) -> Result<(), OutOfMemory>
    ensures { OnOk result (pieces.new.items ≡ pieces.old.items ++ plain_draft (map (sign_of wild) (chars text.now))) }
{
    for character in text.chars() {
        pieces.push(Piece::Plain(sign_of(character, wild)))?;
    }
    Ok(())
}

/// The piece of a form, with copies of its texts.
fn read_piece(alloc: Global, form: Form<'_>) -> Result<Piece, OutOfMemory>
    ensures { IfOk result (λ piece. piece ≡ piece_of form.entry) }
{
    let piece = match form {
        Form::Literal(character) => Piece::Escaped(character),
        Form::Named(key, None) => Piece::Variable(Text::read(alloc, key)?, None),
        Form::Named(key, Some(default)) => {
            let key = Text::read(alloc, key)?;
            Piece::Variable(key, Some(Text::read(alloc, default)?))
        }
    };
    Ok(piece)
}
