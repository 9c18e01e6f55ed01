// What searches for examples found, kept from request to request: of the requests of a pair on whose actions the same statements act, the
// same is found. Nothing is claimed of it, since an example is one only where the decision is made again in its context (`example.rt`).
use crate::example::Example;
use crate::pair::Pair;
use crate::trials::part_of;
use iam_context::Part;
use iam_layers::OutOfMemory;
use iam_match::action_matches;
use std::alloc::Global;

/// So many statements of a pair are told apart.
const BITS: usize = 64;

/// So many finds are kept of a pair.
const FINDS: usize = 16;

/// What was found where these of a pair's statements act: keys and a moment, or nothing.
#[derive(Drop)]
struct Find {
    acting: u64,
    own: Option<(Part, u64)>,
}

/// What was found for a principal and a resource.
#[derive(Drop)]
struct Pairs {
    principal: u64,
    resource: u64,
    finds: Vec<Find>,
}

/// What was found, by the places of pairs.
#[derive(Drop)]
pub struct Finds {
    pairs: Vec<Pairs>,
    // How many may still be kept.
    left: u64,
}

/// What is known of a search that was made: it is not, nothing was found, or these keys and this moment.
#[derive(Drop)]
pub enum Again {
    Unknown,
    Nothing,
    Found(Part, u64),
}

/// Which of the statements of a pair act on an action; `None` where there are too many.
pub fn acting_on(pair: &Pair<'_>, action: &str) -> Option<u64> {
    let mut acting = 0;
    let mut bit = 1;
    if pair.chances.len() > BITS {
        return None;
    }
    for chance in pair.chances.as_slice() {
        if action_matches(chance.statement.action(), action) {
            acting |= bit;
        }
        bit = u64::wrapping_mul(bit, 2);
    }
    Some(acting)
}

impl Finds {
    /// None yet, and room for so many.
    pub fn new(alloc: Global, room: u64) -> Finds {
        Finds {
            pairs: Vec::new(alloc),
            left: room,
        }
    }

    /// What was found for the pair of this place, where these statements act.
    pub fn again(
        &self,
        alloc: Global,
        place: usize,
        principal: u64,
        resource: u64,
        acting: u64,
    ) -> Result<Again, OutOfMemory> {
        let Some(kept) = self.pairs.get(place) else {
            return Ok(Again::Unknown);
        };
        if !kept.is_of(principal, resource) {
            return Ok(Again::Unknown);
        }
        for find in kept.finds.as_slice() {
            if find.acting == acting {
                return find.copied(alloc);
            }
        }
        Ok(Again::Unknown)
    }

    /// Keeps what was found, where there is room for it.
    pub fn keep(
        &mut self,
        alloc: Global,
        place: usize,
        principal: u64,
        resource: u64,
        acting: u64,
        found: &Option<Example>,
    ) -> Result<(), OutOfMemory> {
        if self.left == 0 {
            return Ok(());
        }
        for _ in self.pairs.len()..place.saturating_add(1) {
            self.pairs.push(Pairs::of(alloc, principal, resource))?;
        }
        let find = Find::of(alloc, acting, found)?;
        let Some(kept) = self.pairs.get_mut(place) else {
            return Ok(());
        };
        if !kept.is_of(principal, resource) {
            self.left = self.left.saturating_add(kept.finds.len() as u64);
            *kept = Pairs::of(alloc, principal, resource);
        }
        if kept.finds.len() < FINDS {
            self.left = self.left.saturating_sub(1);
            kept.finds.push(find)?;
        }
        Ok(())
    }
}

impl Pairs {
    fn of(alloc: Global, principal: u64, resource: u64) -> Pairs {
        Pairs {
            principal,
            resource,
            finds: Vec::new(alloc),
        }
    }

    fn is_of(&self, principal: u64, resource: u64) -> bool {
        self.principal == principal && self.resource == resource
    }
}

impl Find {
    fn of(alloc: Global, acting: u64, found: &Option<Example>) -> Result<Find, OutOfMemory> {
        let own = match found {
            Some(example) => Some((copy(alloc, &example.own)?, example.moment)),
            None => None,
        };
        Ok(Find { acting, own })
    }

    fn copied(&self, alloc: Global) -> Result<Again, OutOfMemory> {
        match &self.own {
            Some(it) => Ok(Again::Found(copy(alloc, &it.0)?, it.1)),
            None => Ok(Again::Nothing),
        }
    }
}

/// The same keys and values.
fn copy(alloc: Global, own: &Part) -> Result<Part, OutOfMemory> {
    let mut chosen = Vec::new(alloc);
    for (name, values) in own {
        let text = match values.as_slice().first() {
            Some(value) => Some(value.as_str()),
            None => None,
        };
        chosen.push((name.as_str(), text))?;
    }
    part_of(alloc, chosen.as_slice())
}
