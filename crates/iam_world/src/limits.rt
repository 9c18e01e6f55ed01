// How many cells and statements a world has, and may have.
ghost use Rattle.std.specs.Prelude.{◌≡◌, ◌≤◌, ◌<◌, ◌+◌, ◌*◌, MatchOption, ℕ};
ghost use Rattle.iam_shape.specs.LentWorld.{world_of};
ghost use Rattle.iam_world.specs.Code.Documents.{Leaves};
ghost use Rattle.iam_world.specs.WorldFault.{IsOverLimits, cell_count, documents, statement_total};

use iam_shape::WorldView;

/// How many cells a world may have.
const MOST_CELLS: u64 = 16_777_216;

/// How many statements a world may have.
const MOST_STATEMENTS: usize = 4096;

/// The number of cells; `None` where it is over the limit.
fn cell_count(principals: usize, actions: usize, resources: usize) -> Option<u64>
    ensures { MatchOption result (16777216 < principals * actions * resources)
        (λ n. (n ≡ principals * actions * resources) × (n ≤ 16777216)) }
{
    if principals == 0 || actions == 0 || resources == 0 {
        return Some(0);
    }
    let pairs = (principals as u64).checked_mul(actions as u64)?;
    let cells = pairs.checked_mul(resources as u64)?;
    if cells > MOST_CELLS {
        return None;
    }
    Some(cells)
}

/// How many statements may still come; `None` once they are too many.
#[derive(Clone, Copy)]
pub struct Budget {
    left: Option<usize>,
}

impl Budget {
    /// Nothing was counted.
    pub fn new() -> Budget
        ensures { Leaves result 0 }
    {
        Budget {
            left: Some(MOST_STATEMENTS),
        }
    }

    /// Counts so many statements.
    pub fn count(&mut self, statements: usize)
        ensures { (total : ℕ) → Leaves self.old total → Leaves self.new (total + statements) }
    {
        self.left = match self.left {
            Some(left) => left.checked_sub(statements),
            None => None,
        };
    }

    /// How many were counted; `None` where they are too many.
    pub fn counted(&self) -> Option<usize>
        ensures { (total : ℕ) → Leaves self.now total → MatchOption result (4096 < total) (λ n. (n ≡ total) × (n ≤ 4096)) }
    {
        MOST_STATEMENTS.checked_sub(self.left?)
    }
}

/// The numbers of cells and of statements; `None` where one is over its limit.
pub fn sizes(world: &WorldView<'_>, budget: &Budget) -> Option<(u64, usize)>
    requires { Leaves budget.now (statement_total (documents (world_of world.now))) }
    ensures { MatchOption result (IsOverLimits (world_of world.now))
        (λ sizes. (sizes.0 ≡ cell_count (world_of world.now))
        × (sizes.1 ≡ statement_total (documents (world_of world.now))) × (¬ IsOverLimits (world_of world.now))) }
{
    let cells = cell_count(
        world.principals.len(),
        world.actions.len(),
        world.resources.len(),
    )?;
    let statements = budget.counted()?;
    Some((cells, statements))
}
