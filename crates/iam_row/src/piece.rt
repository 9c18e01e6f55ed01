// What stands before, between and after rows.
ghost use Rattle.std.specs.Prelude.{◌≡◌};
ghost use Rattle.iam_row.specs.Piece.{closing_text, comma_before, opening_text};

use crate::quoted::Format;

/// What stands before all rows: the line of the header, or `[`.
#[tactic(auto, unfolding(csv::specs::Writing::fields_text, csv::specs::Writing::is_blank))]
pub fn opening(format: Format, brief: bool) -> &'static str
    ensures { result.now ≡ opening_text format brief }
{
    match (format, brief) {
        (Format::Csv, true) => "cell,principal,action,resource,decision\n",
        (Format::Csv, false) => "cell,principal,action,resource,decision,statements,lacks\n",
        (Format::Json, _) => "[",
    }
}

/// What stands after all rows: nothing, or `]` and a line feed.
pub fn closing(format: Format) -> &'static str
    ensures { result.now ≡ closing_text format }
{
    match format {
        Format::Csv => "",
        Format::Json => "]\n",
    }
}

/// The comma that stands before the object of a cell, unless it is the first.
pub fn comma_before(cell: u64) -> &'static str
    ensures { result.now ≡ comma_before cell }
{
    if cell == 0 { "" } else { "," }
}
