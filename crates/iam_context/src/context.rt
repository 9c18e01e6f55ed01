// The context of a request: the values of each key, sought in the parts that it is made of.
ghost use Rattle.std.specs.Prelude.{◌≡◌, ◌≢◌, [], ◌∷◌, map, IfOk, IfErr};
ghost use Rattle.iam_context.specs.Context.{all_of, has_derived, joined, keys_of, values_of, ContextValue};
ghost use Rattle.iam_context.specs.Code.Parts.{parts_of};

use crate::OutOfMemory;
use crate::fault::ContextFault;
use crate::part::{Derived, Part, has_derived, stand_twice};
use crate::parts::{Four, Parts, Three};
use crate::sought::Sought;
use iam_text::Text;
use std::alloc::Global;
use std::marker::Model;

/// The keys of a request with their values.
#[derive(Drop)]
pub struct Context<'a> {
    parts: Parts<'a>,
}

impl<'a> Model for Context<'a> {
    ghost Value = { ContextValue };

    ghost view = { λ c. all_of (parts_of c.parts) };
}

impl<'a> Context<'a> {
    ghost use Rattle.iam_context.specs.ContextFault.{IsClean, JoinFault};
    ghost use Rattle.iam_context.specs.declared.fault.ContextFault.TheVariants as f;

    /// The context of the given parts and of the keys that follow from requester, resource and moment. `KeyTwice` where
    /// a key stands twice in the given parts, then `DerivedKeyGiven` where one of their keys is a derived one, and
    /// `OutOfMemory` where the allocator refused a growth.
    pub fn join(
        alloc: Global,
        given: &[&'a Part],
        derived: &'a Derived,
    ) -> Result<Context<'a>, ContextFault>
        ensures ok { IfOk result (λ c. (c ≡ joined (map (λ part. part.now.items) given.now) derived.now.items)
            × IsClean [] (all_of (map (λ part. part.now.items) given.now))) }
        ensures fault { IfErr result (λ fault. fault ≢ f.OutOfMemory → JoinFault (map (λ part. part.now.items) given.now) fault) }
    {
        if stand_twice(alloc, given)? {
            return Err(ContextFault::KeyTwice);
        }
        if some_derived(given) {
            return Err(ContextFault::DerivedKeyGiven);
        }
        let mut parts = Vec::from_slice(alloc, given)?;
        parts.push(derived)?;
        Ok(Context {
            parts: Parts::Any(parts),
        })
    }

    /// The context of three given parts and of the keys that follow from requester, resource and moment. It takes no memory:
    /// keys are sought one by one. Of equal keys the first one counts.
    pub fn of(
        _alloc: Global,
        given: [&'a Part; 3],
        derived: &'a Derived,
    ) -> Result<Context<'a>, OutOfMemory>
        ensures { IfOk result (λ c. c ≡ joined (map (λ part. part.now.items) given.entry) derived.now.items) }
    {
        let [first, second, third] = given;
        let parts = [first, second, third, derived];
        Ok(Context {
            parts: Parts::Four(Four { parts }),
        })
    }

    /// The same of three parts whose keys are sought by their places. It takes no memory. Of equal keys the first one counts.
    pub fn sought<'p, 'q, 'r>(
        first: &'a Sought<'p>,
        second: &'a Sought<'q>,
        third: &'a Sought<'r>,
        derived: &'a Derived,
    ) -> Context<'a>
        ensures { result ≡ joined (first.entry.now ∷ (second.entry.now ∷ (third.entry.now ∷ []))) derived.entry.now.items }
    {
        Context {
            parts: Parts::Three(Three {
                first: first.lend(),
                second: second.lend(),
                third: third.lend(),
                derived,
            }),
        }
    }

    /// The values of the key, compared without regard to case; none where the key is not there. It takes no memory.
    pub fn values(&self, key: &'a str) -> &[Text]
        ensures { result.now ≡ values_of self.now key.now }
    {
        match self.parts.find(key) {
            Some(values) => values,
            None => &[],
        }
    }
}

/// Whether some key of the given parts follows from requester, resource or moment.
fn some_derived(given: &[&Part]) -> bool
    ensures { result ≡ has_derived (keys_of (all_of (map (λ part. part.now.items) given.now))) }
{
    for part in given {
        if has_derived(part) {
            return true;
        }
    }
    false
}
