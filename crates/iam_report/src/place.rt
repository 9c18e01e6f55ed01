// Where a row of some cells stands: the position of its cell, and the comma before its object.
ghost use Rattle.std.specs.Prelude.{◌≡◌};
ghost use Rattle.iam_report.specs.Code.Place.{comma_of, position_in};

use iam_row::{Position, Quoted};

/// The position of a cell, by how many texts there are.
pub fn position_in(quoted: &Quoted, cell: u64) -> Position
    ensures { result ≡ position_in quoted.now cell }
{
    let actions = (quoted.actions.as_slice().len() as u64).max(1);
    let resources = (quoted.resources.as_slice().len() as u64).max(1);
    let row = cell / resources;
    Position {
        cell,
        principal: row / actions,
        action: row % actions,
        resource: cell % resources,
    }
}

/// The comma that stands before the object of a cell, unless it is the first.
pub fn comma_of(lead: u64, cell: u64) -> &'static str
    ensures { result.now ≡ comma_of lead cell }
{
    if cell == lead { "" } else { "," }
}
