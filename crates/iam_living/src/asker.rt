// A principal that asks, and the statements that are listed for its requests.
ghost use Rattle.std.specs.Prelude.{◌≡◌, ◌⊎◌, [], ◌++◌, ◌<◌, IfSome, Some, ℕ, IfOk, IsTrue, List, length, map};

use crate::keys::Told;
use crate::listing::Listing;
use crate::lists::list_word;
use crate::walk::concern_none;
use iam_index::{Index, ResourceLists};
use iam_layers::{Living, Standing};
use iam_match::{Access, Requester};
use iam_text::OutOfMemory;
use std::alloc::Global;

/// Which statements live in requests of a principal for a resource, as the bits of numbers: of those that are listed for the principal,
/// and of those that stand with the resource. Where one of these lives, the number of their list, or else 0.
#[derive(Clone, Copy, PartialEq, Eq)]
pub struct Bits {
    pub principal: u64,
    pub resource: u64,
    pub list: usize,
}

/// A principal, and the statements that are listed for it, and with resources.
#[derive(Drop)]
pub struct Asker<'a> {
    pub principal: u64,
    pub requester: &'a Requester,
    pub listing: Listing<'a>,
    pub lists: &'a ResourceLists<'a>,
}

impl<'a> Asker<'a> {
    ghost use Rattle.std.specs.List.{slice_get};
    ghost use Rattle.iam_context.specs.Context.{ContextValue};
    ghost use Rattle.iam_match.specs.Request.{access_of};
    ghost use Rattle.iam_match.specs.Statement.{AccessValue};
    ghost use Rattle.iam_decision.specs.Code.Scan.{placed_value};
    ghost use Rattle.iam_decision.specs.Living.{AreLiving, living_value};
    ghost use Rattle.iam_decision.specs.Matched.{Placed};
    ghost use Rattle.iam_layers.specs.Cell.{IsContextAt, IsResource};
    ghost use Rattle.iam_index.specs.Index.{IsListOf};
    ghost use Rattle.iam_index.specs.declared.lists.Listed.{Listed};
    ghost use Rattle.iam_living.specs.Asker.{AreBitsOf, AreNumbered, AreTold, IsAsker};
    ghost use Rattle.iam_living.specs.Living.{ConcernNone};

    /// Principal p.
    pub fn of(index: &'a Index<'a>, p: u64) -> Asker<'a>
        requires { p < length index.now.principals }
        ensures asker { IsAsker index.entry.now p result }
        ensures principal { result.principal ≡ p }
    {
        Asker {
            principal: p,
            requester: index.world().requester(p),
            listing: Listing::of(index, p),
            lists: index.resource_lists(),
        }
    }

    /// Nothing told yet to it.
    pub fn none_told(&self, alloc: Global) -> Told
        ensures { (p : ℕ) (derived : ContextValue) → AreTold self.now p derived result }
    {
        Told {
            listing: self.listing.none_told(alloc),
            lists: Vec::new(alloc),
        }
    }

    /// Which statements live in its requests for resource r; `None` where a word has no bits for them.
    pub fn bits<'c>(
        &self,
        alloc: Global,
        index: &Index<'a>,
        told: &mut Told,
        r: u64,
        access: Access<'_, 'c>,
    ) -> Result<Option<Bits>, OutOfMemory>
    where
        'a: 'c,
        requires world { self.now.listing.world ≡ index.now }
        requires resource { IsResource index.now r (λ resource. access.resource.now ≡ resource.arn) }
        requires told { (p : ℕ) × (derived : ContextValue) × IsAsker index.now p self.now × IsContextAt index.now p r derived access.context.now
            × AreTold self.now p derived told.old × (access.requester.now ≡ self.now.requester.now) }
        ensures told { (p : ℕ) (derived : ContextValue) → IsContextAt index.now p r derived access.entry.context.now
            → access.entry.requester.now ≡ self.now.requester.now → AreTold self.now p derived told.old → AreTold self.now p derived told.new }
        ensures bits { IfOk result (λ found. IfSome found (λ bits. (listed : Listed) × AreNumbered self.now r listed
            × AreBitsOf self.now (access_of access.entry) (map placed_value listed.statements.items) bits)) }
    {
        if self.listing.is_long() {
            return Ok(None);
        }
        let n = self.lists.number(r);
        match list_word(alloc, index, self.lists, &mut told.lists, n, access)? {
            Some(resource) => {
                let principal = self.listing.word(alloc, &mut told.listing, r, access)?;
                Ok(bits_with(principal, resource, n))
            }
            None => Ok(None),
        }
    }

    /// The statements that live by the bits, with what their principals grant it.
    pub fn living(&self, alloc: Global, bits: Bits) -> Result<Vec<Living<'a>>, OutOfMemory>
        ensures { (access : AccessValue) (statements : List Placed) → AreBitsOf self.now access statements bits → IfOk result (λ living.
            AreLiving access (self.now.listing.org ++ (statements ++ self.now.listing.own)) (map living_value living.items)) }
    {
        let between = self.list_of(bits);
        self.listing.living(
            alloc,
            bits.principal,
            between,
            bits.resource,
            self.requester,
        )
    }

    /// The statements of the list of which some live by the bits; none where none does.
    fn list_of(&self, bits: Bits) -> &[Standing<'a>]
        ensures { (statements : List Placed) → (bits.resource ≡ 0) ⊎ IsListOf self.now.lists.now.lists.items bits.list statements
            → ((bits.resource ≡ 0) × (result.now ≡ [])) ⊎ (statements ≡ map placed_value result.now) }
    {
        if bits.resource == 0 {
            return &[];
        }
        if bits.list < self.lists.lists.len() {
            return self.lists.statements(bits.list);
        }
        &[]
    }

    /// `true` only where none of the statements of list n is about it.
    pub fn none_concerns(&self, n: usize) -> bool
        requires { n < length self.now.lists.now.lists.items }
        ensures { (listed : Listed) → slice_get self.now.lists.now.lists.items n ≡ Some listed → IsTrue result
            → ConcernNone self.now.requester.now (map placed_value listed.statements.items) }
    {
        concern_none(self.lists.statements(n), self.requester)
    }
}

/// The bits of both, where those of the principal's statements are known.
fn bits_with(principal: Option<u64>, resource: u64, n: usize) -> Option<Bits>
    ensures { IfSome result (λ bits. (principal ≡ Some bits.principal) × (bits.resource ≡ resource)
        × ((resource ≡ 0) ⊎ (bits.list ≡ n))) }
{
    let principal = principal?;
    let list = if resource == 0 { 0 } else { n };
    Some(Bits {
        principal,
        resource,
        list,
    })
}
