// What two worlds have of a request.
ghost use Rattle.std.specs.Prelude.{◌≡◌, ◌≤◌};
ghost use Rattle.iam_open.specs.InQuestion.{last_moment};
ghost use Rattle.iam_open_changes.specs.InBoth.{IsThere};
ghost use Rattle.iam_open_changes.specs.Sides.{IsSideAt, OfSide};

use crate::numbers::Numbers;
use iam_context::Part;
use iam_layers::World;
use iam_open::Scene;

/// Who asks for what, and for which action.
#[derive(Clone, Copy)]
pub struct Request<'a, 's> {
    pub scene: Scene<'a, 's>,
    pub action: &'s str,
}

/// What a world has of a request of two worlds.
#[derive(Clone, Copy)]
pub enum Side<'a, 's> {
    /// The request.
    Has(Request<'a, 's>),
    /// Nothing: it is no request of this world.
    Lacks(&'a World),
}

/// A request of two worlds: what each of them has of it.
#[derive(Clone, Copy)]
pub struct Sides<'a, 's> {
    pub before: Side<'a, 's>,
    pub after: Side<'a, 's>,
}

impl<'a: 's, 's> Side<'a, 's> {
    /// What the world has of the request that has these numbers there, if it has it.
    pub fn of(world: &'a World, at: Option<Numbers>, none: &'s Part) -> Side<'a, 's>
        requires { IsThere world.now at }
        ensures { IsSideAt result world.entry.now at }
    {
        match at {
            Some(it) => Side::Has(Request {
                scene: Scene::named(world, it.principal, it.resource, none),
                action: world.action_text(it.action),
            }),
            None => Side::Lacks(world),
        }
    }

    /// The moment of the world.
    pub fn moment(self) -> u64
        ensures is { OfSide self.entry (λ other at. result ≡ other.moment) }
        ensures most { result ≤ last_moment }
    {
        match self {
            Side::Has(request) => request.scene.world.moment(),
            Side::Lacks(world) => world.moment(),
        }
    }
}
