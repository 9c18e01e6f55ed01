// A cell with its principal, action and resource, and the next one.
ghost use Rattle.std.specs.Prelude.{◌≡◌, ◌+◌, ◌<◌, ◌^◌};
ghost use Rattle.iam_layers.specs.Cell.{IsCell};
ghost use Rattle.iam_world.specs.World.{world_cells};
ghost use Rattle.iam_row.specs.Piece.{first_position, next_of};

use iam_layers::World;

/// A cell of a matrix: its number, and those of its principal, its action and its resource.
#[derive(Clone, Copy, Debug, PartialEq, Eq)]
pub struct Position {
    pub cell: u64,
    pub principal: u64,
    pub action: u64,
    pub resource: u64,
}

impl Position {
    /// The first cell.
    pub fn first() -> Position
        ensures { result ≡ first_position }
    {
        Position {
            cell: 0,
            principal: 0,
            action: 0,
            resource: 0,
        }
    }

    /// The cell of a world of this number; where there is none, only the number is right.
    pub fn of(world: &World, cell: u64) -> Position
        ensures cell { result.cell ≡ cell }
        ensures is { cell < world_cells world.now → IsCell world.now result.cell result.principal result.action result.resource }
    {
        if cell >= world.cells() {
            return Position {
                cell,
                ..Position::first()
            };
        }
        let (principal, action, resource) = world.triple(cell);
        Position {
            cell,
            principal,
            action,
            resource,
        }
    }

    /// The cell behind this one, which has to be one of this world; behind the last only the number is right.
    #[inline]
    pub fn next_in(self, world: &World) -> Position
        requires is { IsCell world.now self.cell self.principal self.action self.resource }
        requires inside { self.cell < world_cells world.now }
        ensures cell { result.cell ≡ self.cell + 1 }
        ensures is { self.cell + 1 < world_cells world.now → IsCell world.now result.cell result.principal result.action result.resource }
    {
        // A world has at most 16,777,216 cells, so the numbers fit.
        let _cells = world.cells();
        let _principals = world.principals();
        self.next(world.actions(), world.resources())
    }

    /// The cell behind this one, where there are so many actions and resources: resources are counted up first, then
    /// actions, then principals. The numbers have to be below the greatest.
    #[inline]
    pub fn next(self, actions: u64, resources: u64) -> Position
        requires cell { self.cell + 1 < 2 ^ 64 }
        requires principal { self.principal + 1 < 2 ^ 64 }
        requires action { self.action + 1 < 2 ^ 64 }
        requires resource { self.resource + 1 < 2 ^ 64 }
        ensures { result ≡ next_of actions resources self }
    {
        let cell = self.cell + 1;
        if self.resource + 1 < resources {
            let resource = self.resource + 1;
            return Position {
                cell,
                resource,
                ..self
            };
        }
        let resource = 0;
        if self.action + 1 < actions {
            let action = self.action + 1;
            return Position {
                cell,
                action,
                resource,
                ..self
            };
        }
        Position {
            cell,
            principal: self.principal + 1,
            action: 0,
            resource,
        }
    }
}
