// Patterns of actions.
ghost use Rattle.std.specs.Prelude.{◌≡◌};
ghost use Rattle.std.specs.List.{list_all};
ghost use Rattle.iam_element.specs.ActionPattern.{is_action_pattern, is_name_character, is_prefix_character, is_wildcard};
ghost use Rattle.iam_text.specs.Characters.{is_run};

/// Whether a text is an action pattern: `*`, or a service prefix, a colon and a name, in which wildcards may stand.
///
/// AWS IAM User Guide, "IAM JSON policy elements: Action".
pub fn is_action_pattern(text: &str) -> bool
    ensures { result ≡ is_action_pattern text.now }
{
    if text == "*" {
        return true;
    }
    match text.split_once(':') {
        Some((prefix, name)) => is_prefix(prefix) && is_name(name),
        None => false,
    }
}

fn is_prefix(text: &str) -> bool
    ensures { result ≡ is_run is_prefix_character text.now }
{
    !text.is_empty() && all_prefix_characters(text.as_bytes())
}

fn all_prefix_characters(text: &[u8]) -> bool
    ensures { result ≡ list_all is_prefix_character text.now }
{
    text.iter().all(|&character| is_prefix_character(character))
}

fn is_name(text: &str) -> bool
    ensures { result ≡ is_run is_name_character text.now }
{
    !text.is_empty() && all_name_characters(text.as_bytes())
}

fn all_name_characters(text: &[u8]) -> bool
    ensures { result ≡ list_all is_name_character text.now }
{
    text.iter().all(|&character| is_name_character(character))
}

/// Whether a character is `*` or `?`.
pub fn is_wildcard(character: u8) -> bool
    ensures { result ≡ is_wildcard character }
{
    character == b'*' || character == b'?'
}

fn is_prefix_character(character: u8) -> bool
    ensures { result ≡ is_prefix_character character }
{
    character.is_ascii_alphanumeric() || character == b'-' || is_wildcard(character)
}

fn is_name_character(character: u8) -> bool
    ensures { result ≡ is_name_character character }
{
    is_prefix_character(character) || character == b'_' || character == b'.'
}
