// The grammar of the texts that are asked about, read from the left.
ghost use Rattle.std.specs.Prelude.{◌≡◌, ◌<◌, if◌then◌else◌};
ghost use Rattle.iam_kinds.specs.Code.{first_stage, is_last_stage, next_stage, part_number, stage_at, stage_number};
ghost use Rattle.iam_kinds.specs.Kinds.{folded_grammar, is_any_in, is_folded, is_name_character, is_name_in, is_service_character, is_service_in};

/// Which texts are asked about.
#[derive(Clone, Copy, Debug)]
pub enum Grammar {
    /// Every text.
    AnyText,
    /// Actions: one or more ASCII letters, digits or `-`, a colon, one or more ASCII letters, digits, `-`, `_` or `.`.
    Action,
    /// Every text without the letters A to Z.
    FoldedText,
    /// Actions without the letters A to Z.
    FoldedAction,
}

/// How far a text of the grammar is read, and whether it is to be without the letters A to Z.
#[derive(Clone, Copy, Debug)]
pub struct Stage {
    pub part: Part,
    pub fold: bool,
}

#[derive(Clone, Copy, Debug)]
pub enum Part {
    /// Anywhere in a text of any characters.
    Anywhere,
    /// Before an action.
    Start,
    /// Behind a character of its service prefix.
    Service,
    /// Behind its colon.
    Colon,
    /// Behind a character of its name.
    Name,
}

impl Grammar {
    /// The stage before any character.
    pub fn first(self) -> Stage
        ensures { result ≡ first_stage self }
    {
        match self {
            Grammar::AnyText => Stage::at(Part::Anywhere, false),
            Grammar::Action => Stage::at(Part::Start, false),
            Grammar::FoldedText => Stage::at(Part::Anywhere, true),
            Grammar::FoldedAction => Stage::at(Part::Start, true),
        }
    }

    /// The same without the letters A to Z.
    pub fn folded(self) -> Grammar
        ensures { result ≡ folded_grammar self }
    {
        match self {
            Grammar::AnyText | Grammar::FoldedText => Grammar::FoldedText,
            Grammar::Action | Grammar::FoldedAction => Grammar::FoldedAction,
        }
    }
}

impl Part {
    fn number(self) -> usize
        ensures number { result ≡ part_number self }
        ensures few { result < 5 }
    {
        match self {
            Part::Anywhere => 0,
            Part::Start => 1,
            Part::Service => 2,
            Part::Colon => 3,
            Part::Name => 4,
        }
    }
}

impl Stage {
    fn at(part: Part, fold: bool) -> Stage
        ensures { result ≡ stage_at part fold }
    {
        Stage { part, fold }
    }

    /// The stage behind one more character; `None` where no text of the grammar goes on with it.
    pub fn next(self, character: char) -> Option<Stage>
        ensures { result ≡ next_stage self character }
    {
        match self.part {
            Part::Anywhere => self.part_if(is_any_in(self.fold, character), Part::Anywhere),
            Part::Start => self.part_if(is_service_in(self.fold, character), Part::Service),
            Part::Service => {
                if is_service_in(self.fold, character) {
                    Some(Stage::at(Part::Service, self.fold))
                } else {
                    self.part_if(character == ':', Part::Colon)
                }
            }
            Part::Colon | Part::Name => self.part_if(is_name_in(self.fold, character), Part::Name),
        }
    }

    /// The stage at this part where the test holds.
    fn part_if(self, test: bool, part: Part) -> Option<Stage>
        ensures { result ≡ (if test then Some (stage_at part self.fold) else None) }
    {
        if test {
            Some(Stage::at(part, self.fold))
        } else {
            None
        }
    }

    /// Its number.
    pub fn number(self) -> usize
        ensures { result ≡ stage_number self }
    {
        if self.fold {
            self.part.number() + 5
        } else {
            self.part.number()
        }
    }

    /// Whether the text is whole here.
    pub fn is_last(self) -> bool
        ensures { result ≡ is_last_stage self }
    {
        match self.part {
            Part::Anywhere | Part::Name => true,
            Part::Start | Part::Service | Part::Colon => false,
        }
    }
}

/// Whether folding leaves the character.
fn is_folded(character: char) -> bool
    ensures { result ≡ is_folded character }
{
    character.to_ascii_lowercase() == character
}

fn is_any_in(fold: bool, character: char) -> bool
    ensures { result ≡ is_any_in fold character }
{
    if fold { is_folded(character) } else { true }
}

fn is_service_in(fold: bool, character: char) -> bool
    ensures { result ≡ is_service_in fold character }
{
    if fold {
        is_service_character(character) && is_folded(character)
    } else {
        is_service_character(character)
    }
}

fn is_name_in(fold: bool, character: char) -> bool
    ensures { result ≡ is_name_in fold character }
{
    if fold {
        is_name_character(character) && is_folded(character)
    } else {
        is_name_character(character)
    }
}

fn is_service_character(character: char) -> bool
    ensures { result ≡ is_service_character character }
{
    character.is_ascii_alphanumeric() || character == '-'
}

fn is_name_character(character: char) -> bool
    ensures { result ≡ is_name_character character }
{
    is_service_character(character) || character == '_' || character == '.'
}
