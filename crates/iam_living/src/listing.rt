// The statements that an index lists for all requests of a principal, and which of them live in those for a resource.
ghost use Rattle.std.specs.Prelude.{◌++◌, ◌≡◌, ◌<◌, ℕ, IfOk, IfSome, map, List, length};
ghost use Rattle.iam_context.specs.Context.{ContextValue};
ghost use Rattle.iam_match.specs.Request.{access_of};
ghost use Rattle.iam_decision.specs.Code.Scan.{placed_value};
ghost use Rattle.iam_decision.specs.Living.{living_value, AreLiving};
ghost use Rattle.iam_layers.specs.Cell.{IsContextAt, IsResource};
ghost use Rattle.iam_index.specs.Known.{AreAlike};
ghost use Rattle.iam_living.specs.Marks.{AreMarks, AreListingMarks};
ghost use Rattle.iam_living.specs.Word.{GoesBefore, TakesBits, AreBits};
ghost use Rattle.iam_living.specs.Listing.{ListingValue};

use crate::marks::{ListingMarks, Marks};
use crate::walk::{add_known, lives};
use crate::word::{BITS, with_bit};
use iam_columns::{kept, slots_or_none};
use iam_decision::push_living;
use iam_index::{Index, Known, Theirs};
use iam_layers::{Living, Standing, World};
use iam_match::{Access, Requester};
use iam_text::OutOfMemory;
use std::alloc::Global;
use std::marker::Model;

/// The statements that an index lists for all requests of a principal: those of its organisation, and its own. A contract sees the
/// world, the ones and the others, and the numbers of resources that are alike to them.
#[derive(Drop)]
pub struct Listing<'a> {
    world: &'a World,
    org: Known<'a>,
    own: Known<'a>,
    alikes: &'a [Option<usize>],
}

impl<'a> Model for Listing<'a> {
    ghost Value = { ListingValue };

    ghost view = { λ listing. record {
      world = listing.world.now;
      org = map placed_value listing.org.statements;
      own = map placed_value listing.own.statements;
      alikes = listing.alikes.now;
    } };

    ghost invariant = { λ listing. (listing.org.world ≡ listing.world.now) × (listing.own.world ≡ listing.world.now)
        × AreAlike listing.world.now (map placed_value listing.org.statements ++ map placed_value listing.own.statements) listing.alikes.now };
}

impl<'a> Listing<'a> {
    ghost use Rattle.iam_match.specs.Statement.{AccessValue};
    ghost use Rattle.iam_decision.specs.Matched.{Placed};
    ghost use Rattle.iam_columns.specs.Slots.{Keeps};
    ghost use Rattle.iam_living.specs.Listing.{AreAlikes, Lists, statements_of};

    /// Those that an index lists for principal p.
    pub fn of(index: &'a Index<'a>, p: u64) -> Listing<'a>
        requires { p < length index.now.principals }
        ensures world { result.world ≡ index.entry.now }
        ensures lists { Lists index.entry.now p result.org result.own }
    {
        let Theirs { org, own, alikes } = index.theirs(p);
        Listing {
            world: index.world(),
            org,
            own,
            alikes,
        }
    }

    /// The number that resource r has with others that are alike to the statements, where it has one.
    #[inline(always)]
    pub fn alike(&self, r: u64) -> Option<usize>
        ensures number { IfSome result (Keeps self.now.alikes r) }
        ensures alikes { AreAlikes self.now }
    {
        kept(self.alikes, r)
    }

    /// Nothing told yet of them.
    pub fn none_told(&self, alloc: Global) -> ListingMarks
        ensures { (p : ℕ) (derived : ContextValue) → AreListingMarks self.now p derived result }
    {
        ListingMarks {
            org: slots_or_none(alloc, self.org.statements().len() as u64),
            own: slots_or_none(alloc, self.own.statements().len() as u64),
        }
    }

    /// Whether they are more than a word has bits.
    pub fn is_long(&self) -> bool {
        let own = self.own.statements().len();
        self.org.statements().len().saturating_add(own) > BITS
    }

    /// Which of them live in requests for resource r of the world, as the bits of a number; `None` where a word has no bits for them.
    pub fn word<'c>(
        &self,
        alloc: Global,
        told: &mut ListingMarks,
        r: u64,
        access: Access<'_, 'c>,
    ) -> Result<Option<u64>, OutOfMemory>
    where
        'a: 'c,
        requires resource { IsResource self.now.world r (λ resource. access.resource.now ≡ resource.arn) }
        requires told { (p : ℕ) × (derived : ContextValue) × IsContextAt self.now.world p r derived access.context.now
            × AreListingMarks self.now p derived told.old }
        ensures told { (p : ℕ) (derived : ContextValue) → IsContextAt self.now.world p r derived access.entry.context.now
            → AreListingMarks self.now p derived told.old → AreListingMarks self.now p derived told.new }
        ensures word { IfOk result (λ found. IfSome found (AreBits (access_of access.entry) (statements_of self.now))) }
    {
        match bits_before(alloc, &self.own, &mut told.own, r, access, 0)? {
            Some(own) => bits_before(alloc, &self.org, &mut told.org, r, access, own),
            None => Ok(None),
        }
    }

    /// Those of them that live by the bits of a word, and behind those of the organisation those of other statements that live by the
    /// bits of their word, with what their principals grant the requester.
    pub fn living(
        &self,
        alloc: Global,
        word: u64,
        between: &[Standing<'a>],
        other: u64,
        requester: &Requester,
    ) -> Result<Vec<Living<'a>>, OutOfMemory>
        ensures { (access : AccessValue) → access.requester ≡ requester.now → AreBits access (statements_of self.now) word
            → AreBits access (map placed_value between.now) other → IfOk result (λ living.
            AreLiving access (self.now.org ++ (map placed_value between.now ++ self.now.own)) (map living_value living.items)) }
    {
        let mut living = Vec::new(alloc);
        let own = add_of_bits(&mut living, self.org.statements(), word, requester)?;
        add_of_bits(&mut living, between, other, requester)?;
        add_of_bits(&mut living, self.own.statements(), own, requester)?;
        Ok(living)
    }

    /// Those of them that live in requests for resource r of the world, and behind those of the organisation the ones that were found
    /// of the statements that stand with the resource.
    pub fn living_around<'c>(
        &self,
        alloc: Global,
        told: &mut ListingMarks,
        r: u64,
        access: Access<'_, 'c>,
        found: Vec<Living<'a>>,
    ) -> Result<Vec<Living<'a>>, OutOfMemory>
    where
        'a: 'c,
        requires resource { IsResource self.now.world r (λ resource. access.resource.now ≡ resource.arn) }
        requires told { (p : ℕ) × (derived : ContextValue) × IsContextAt self.now.world p r derived access.context.now
            × AreListingMarks self.now p derived told.old }
        ensures told { (p : ℕ) (derived : ContextValue) → IsContextAt self.now.world p r derived access.entry.context.now
            → AreListingMarks self.now p derived told.old → AreListingMarks self.now p derived told.new }
        ensures living { (listed : List Placed) → AreLiving (access_of access.entry) listed (map living_value found.entry.items)
            → IfOk result (λ living.
            AreLiving (access_of access.entry) (self.now.org ++ (listed ++ self.now.own)) (map living_value living.items)) }
    {
        let mut living = Vec::new(alloc);
        add_known(alloc, &mut living, &self.org, &mut told.org, r, access)?;
        let mut all = joined(living, found)?;
        add_known(alloc, &mut all, &self.own, &mut told.own, r, access)?;
        Ok(all)
    }
}

/// The word of the statements and, behind them, of those of another word, in requests for resource r of the world; `None` where it
/// has more than 64 bits.
fn bits_before<'a: 'c, 'c>(
    alloc: Global,
    known: &Known<'a>,
    told: &mut Marks,
    r: u64,
    access: Access<'_, 'c>,
    behind: u64,
) -> Result<Option<u64>, OutOfMemory>
    requires resource { IsResource known.now.world r (λ resource. access.resource.now ≡ resource.arn) }
    requires told { (p : ℕ) × (derived : ContextValue) × IsContextAt known.now.world p r derived access.context.now
        × AreMarks known.now.world p derived (map placed_value known.now.statements) told.old.items }
    ensures told { (p : ℕ) (derived : ContextValue) → IsContextAt known.now.world p r derived access.entry.context.now
        → AreMarks known.now.world p derived (map placed_value known.now.statements) told.old.items
        → AreMarks known.now.world p derived (map placed_value known.now.statements) told.new.items }
    ensures word { IfOk result (λ found. IfSome found
        (GoesBefore (access_of access.entry) (map placed_value known.now.statements) behind)) }
{
    let statements = known.statements();
    let mut word = behind;
    for i in (0..statements.len()).rev() {
        match with_bit(word, lives(alloc, known, told, i, r, access)?) {
            Some(longer) => word = longer,
            None => return Ok(None),
        }
    }
    Ok(Some(word))
}

/// Adds those of the statements that live by the first bits of a word, and gives the bits behind these.
fn add_of_bits<'a>(
    living: &mut Vec<Living<'a>>,
    statements: &[Standing<'a>],
    word: u64,
    requester: &Requester,
) -> Result<u64, OutOfMemory>
    ensures { IfOk result (TakesBits requester.now (map placed_value statements.now) word (map living_value living.old.items)
        (map living_value living.new.items)) }
{
    let mut bits = word;
    for &standing in statements {
        if bits % 2 == 1 {
            push_living(living, standing, requester)?;
        }
        bits /= 2;
    }
    Ok(bits)
}

/// Living ones, and behind them those of other statements.
fn joined<'a>(
    living: Vec<Living<'a>>,
    found: Vec<Living<'a>>,
) -> Result<Vec<Living<'a>>, OutOfMemory>
    ensures { IfOk result (λ joined. map living_value joined.items
        ≡ map living_value living.entry.items ++ map living_value found.entry.items) }
{
    if living.as_slice().is_empty() {
        return Ok(found);
    }
    let mut joined = living;
    joined.extend_from_slice(found.as_slice())?;
    Ok(joined)
}
