// Variables as they stand in a text: `${key}`, and with a default.
ghost use Rattle.std.specs.Prelude.{◌≡◌, ◌≢◌, ◌≤◌, ◌<◌, ℕ, List, [], ◌∷◌, ◌++◌, IsTrue, true, false, length, replicate, slice_index, take, MatchOption};
ghost use Rattle.std.specs.List.{list_all};
ghost use Rattle.iam_text.specs.declared.draft.Piece.{Piece};
ghost use Rattle.iam_text.specs.Draft.{is_key_character};
ghost use Rattle.iam_text.specs.Code.Forms.{BeginsAt, HasForm, HasLiteral, IsCutKey, IsFirstForm, IsQuoted};
ghost use Rattle.iam_text.specs.Stretches.{IsCutAtForm, NoneBegins, piece_of};
ghost use Rattle.iam_text.specs.Variables.{is_draft, is_draft_from, opened};

/// What a `${` begins in a text of version 2012-10-17.
///
/// AWS IAM User Guide, "IAM policy elements: Variables and tags".
#[derive(Clone, Copy)]
pub enum Form<'a> {
    /// `${*}`, `${?}` or `${$}`, by the character that it stands for.
    Literal(char),
    /// A variable by its key and its default.
    Named(&'a str, Option<&'a str>),
}

/// What stands before the first `${` of the text, and what behind it.
pub fn cut_form(text: &str) -> Option<(&str, &str)>
    ensures cut { MatchOption result (NoneBegins text.entry.now []) (λ p. IsCutAtForm text.entry.now p.0.now p.1.now) }
    ensures grammar { MatchOption result (is_draft text.entry.now ≡ true) (λ p. is_draft text.entry.now ≡ is_draft_from opened p.1.now) }
{
    let i = form_place(text.as_bytes())?;
    Some((&text[..i], &text[i + 2..]))
}

/// Where the first `${` of the text stands.
fn form_place(text: &[u8]) -> Option<usize>
    ensures { MatchOption result ((k : ℕ) → ¬ BeginsAt text.now k) (IsFirstForm text.now) }
{
    let mut i = 0;
    while text.len() - i > 1 {
        if text[i] == b'$' && text[i + 1] == b'{' {
            return Some(i);
        }
        i += 1;
    }
    None
}

/// The form whose `${` stands before the text, and what is left behind its `}`.
pub fn form_behind(text: &str) -> Option<(Form<'_>, &str)>
    ensures { MatchOption result ((piece : Piece) (rest : List ℕ) → ¬ HasForm piece text.entry.now rest)
        (λ p. HasForm (piece_of p.0) text.entry.now p.1.now) }
{
    let (key, behind) = cut_key(text);
    if key.is_empty() {
        let (character, rest) = literal(text)?;
        return Some((Form::Literal(character), rest));
    }
    if let Some(rest) = behind.strip_prefix('}') {
        return Some((Form::Named(key, None), rest));
    }
    let (default, rest) = quoted(behind.strip_prefix(',')?)?;
    Some((Form::Named(key, Some(default)), rest))
}

/// The character of `${*}`, `${?}` or `${$}`, whose `${` stands before the text, and what is left behind its `}`.
fn literal(text: &str) -> Option<(char, &str)>
    ensures { MatchOption result ((c : ℕ) (rest : List ℕ) → ¬ HasLiteral c text.entry.now rest) (λ p. HasLiteral p.0 text.entry.now p.1.now) }
{
    let (inside, rest) = text.split_once('}')?;
    match inside {
        "*" => Some(('*', rest)),
        "?" => Some(('?', rest)),
        "$" => Some(('$', rest)),
        _ => None,
    }
}

/// The default in quotes, behind spaces, and what is left behind the `}`.
fn quoted(text: &str) -> Option<(&str, &str)>
    ensures { MatchOption result ((default rest : List ℕ) → ¬ IsQuoted text.entry.now default rest) (λ p. IsQuoted text.entry.now p.0.now p.1.now) }
{
    let inside = without_spaces(text).strip_prefix('\'')?;
    let (default, behind) = inside.split_once('\'')?;
    let rest = behind.strip_prefix('}')?;
    Some((default, rest))
}

fn without_spaces(text: &str) -> &str
    ensures spaces { (n : ℕ) × (text.entry.now ≡ replicate n 32 ++ result.now) }
    ensures none { (rest : List ℕ) → result.now ≢ 32 ∷ rest }
{
    let mut rest = text;
    while let Some(behind) = rest.strip_prefix(' ') {
        rest = behind;
    }
    rest
}

/// The characters of a key that the text begins with, and what is left behind them.
fn cut_key(text: &str) -> (&str, &str)
    ensures { IsCutKey text.entry.now result.0.now result.1.now }
{
    let len = key_len(text.as_bytes());
    (&text[..len], &text[len..])
}

/// How many characters of a key the text begins with.
fn key_len(text: &[u8]) -> usize
    ensures within { result ≤ length text.now }
    ensures all { IsTrue (list_all is_key_character (take result text.now)) }
    ensures end { result < length text.now → is_key_character (slice_index text.now result) ≡ false }
{
    for (i, character) in text.iter().enumerate() {
        if !is_key_character(*character) {
            return i;
        }
    }
    text.len()
}

fn is_key_character(character: u8) -> bool
    ensures { result ≡ is_key_character character }
{
    !matches!(character, b'$' | b'{' | b'}' | b',' | b'\'' | b'*' | b'?')
}
