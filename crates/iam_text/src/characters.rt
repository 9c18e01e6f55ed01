// Tests on the characters of names and accounts.
ghost use Rattle.std.specs.Prelude.{◌≡◌, ◌||◌, ◌==◌};
ghost use Rattle.std.specs.List.{list_all};
ghost use Rattle.std.specs.Char.{is_ascii_alphanumeric, is_ascii_digit};
ghost use Rattle.iam_text.specs.Characters.{is_account, is_label, is_label_character};

/// Whether the text is one or more ASCII letters, digits or `-`, as a partition and the prefix of an action are.
pub fn is_label(text: &str) -> bool
    ensures { result ≡ is_label text.now }
{
    !text.is_empty() && all_label_characters(text.as_bytes())
}

fn all_label_characters(text: &[u8]) -> bool
    ensures { result ≡ list_all is_label_character text.now }
{
    text.iter().all(|&c| c.is_ascii_alphanumeric() || c == b'-')
}

/// Whether the text is an account's id: twelve ASCII digits.
pub fn is_account(text: &str) -> bool
    ensures { result ≡ is_account text.now }
{
    text.len() == 12 && all_digits(text.as_bytes())
}

fn all_digits(text: &[u8]) -> bool
    ensures { result ≡ list_all is_ascii_digit text.now }
{
    text.iter().all(|c| c.is_ascii_digit())
}
