// Which cells of a world a search asks about.
ghost use Rattle.std.specs.Prelude.{◌≡◌, ◌↔◌, ⊤, ℕ, IsTrue, false};
ghost use Rattle.iam_layers.specs.Cell.{IsCell};

use iam_layers::World;
use iam_row::Position;

/// Which cells of a world a search asks about. A world alone asks about all of its own.
pub trait Asks {
    ghost use Rattle.iam_world.specs.World.{WorldValue};

    // The world.
    ghost world: { Self → WorldValue };

    // The cell is asked about.
    ghost asked: { Self → ℕ → Type 0 };

    /// Whether a request of a cell's principal for its action may be asked about, whatever the resource.
    fn asks_row(&self, at: Position) -> bool
        requires { IsCell (world self.now) at.cell at.principal at.action at.resource }
        ensures { result ≡ false → (cell r : ℕ) → IsCell (world self.now) cell at.principal at.action r → ¬ asked self.now cell };

    /// Whether a cell is asked about.
    fn asks(&self, at: Position) -> bool
        requires { IsCell (world self.now) at.cell at.principal at.action at.resource }
        ensures { IsTrue result ↔ asked self.now at.cell };
}

impl Asks for World {
    ghost world = { λ world. world };

    ghost asked = { λ _ _. ⊤ };

    #[inline(always)]
    fn asks_row(&self, _at: Position) -> bool {
        true
    }

    #[inline(always)]
    fn asks(&self, _at: Position) -> bool {
        true
    }
}
