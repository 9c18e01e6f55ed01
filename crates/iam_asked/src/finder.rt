// The numbers of principals, actions and resources by their texts.
ghost use Rattle.std.specs.Prelude.{◌≡◌, ◌≢◌, IfErr, IfOk, map};
ghost use Rattle.iam_asked.specs.Code.Found.{HasNumbers, HasPlaces, IsPlaceOf, IsSaidFault};
ghost use Rattle.iam_asked.specs.Code.Lent.{said_of};
ghost use Rattle.iam_asked.specs.Texts.{IsActionAt, IsNoAction, folded};
ghost use Rattle.iam_asked.specs.declared.fault.LineFault.TheVariants as l;
ghost use Rattle.iam_world.specs.World.{WorldValue};

use crate::asked::Asked;
use crate::fault::LineFault;
use crate::places::{
    Place, action_places, folded, folded_places, only_place, principal_places, resource_places,
};
use crate::said::Said;
use iam_layers::World;
use iam_text::OutOfMemory;
use std::alloc::Global;
use std::collections::HashMap;
use std::marker::Model;

/// Finds what lines name in a world, whose texts were gone through once. A contract sees the world.
#[derive(Drop)]
pub struct Finder<'a> {
    world: &'a World,
    principals: HashMap<&'a str, Place>,
    actions: HashMap<&'a str, Place>,
    // Without regard to case.
    folded: HashMap<String, Place>,
    resources: HashMap<&'a str, Place>,
}

impl<'a> Model for Finder<'a> {
    ghost Value = { WorldValue };

    ghost view = { λ finder. finder.world.now };

    ghost invariant = { λ finder. HasPlaces finder.world.now finder.principals finder.actions finder.folded finder.resources };
}

impl<'a> Finder<'a> {
    /// Goes through the texts of a world. `OutOfMemory` comes where there is no memory for it.
    pub fn of(alloc: Global, world: &'a World) -> Result<Finder<'a>, OutOfMemory>
        ensures { IfOk result (λ finder. finder ≡ world.entry.now) }
    {
        Ok(Finder {
            world,
            principals: principal_places(alloc, world)?,
            actions: action_places(alloc, world)?,
            folded: folded_places(alloc, world)?,
            resources: resource_places(alloc, world)?,
        })
    }

    /// The world.
    pub fn world(&self) -> &'a World
        ensures { result.now ≡ self.now }
    {
        self.world
    }

    /// The place of a text among the actions without regard to case.
    fn folded_place(&self, alloc: Global, text: &str) -> Result<Option<Place>, OutOfMemory>
        ensures { IfOk result (IsPlaceOf (map folded self.now.actions) (folded text.now)) }
    {
        let folded = folded(alloc, text)?;
        Ok(self.folded.get(folded.as_str()).copied())
    }

    /// The action that a text names, letter by letter, or else without regard to case.
    fn find_action(&self, alloc: Global, text: &str) -> Result<u64, LineFault>
        ensures ok { IfOk result (IsActionAt self.now.actions text.now) }
        ensures fault { IfErr result (λ fault. fault ≢ l.OutOfMemory → (fault ≡ l.NoAction) × IsNoAction self.now.actions text.now) }
    {
        if let Some(place) = self.actions.get(text) {
            return Ok(place.first);
        }
        match self.folded_place(alloc, text)? {
            Some(place) => Ok(place.first),
            None => Err(LineFault::NoAction),
        }
    }

    /// The numbers of what a line says, or its least fault: of its principal, else of its action, else of its resource.
    pub fn find(&self, alloc: Global, said: &Said<'_>) -> Result<Asked, LineFault>
        ensures ok { IfOk result (HasNumbers self.now (said_of said.now)) }
        ensures fault { IfErr result (λ fault. fault ≢ l.OutOfMemory → IsSaidFault self.now (said_of said.now) fault) }
    {
        let principal = only_place(
            self.principals.get(said.principal),
            LineFault::NoPrincipal,
            LineFault::SeveralPrincipals,
        )?;
        let action = self.find_action(alloc, said.action)?;
        let resource = only_place(
            self.resources.get(said.resource),
            LineFault::NoResource,
            LineFault::SeveralResources,
        )?;
        Ok(Asked {
            principal,
            action,
            resource,
        })
    }
}
