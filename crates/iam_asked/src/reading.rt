// Reading requests, a line at a time.
ghost use Rattle.std.specs.Prelude.{◌≡◌, ◌≢◌, ◌<◌, ◌≤◌, ◌∷◌, ◌++◌, [], ℕ, List, IfErr, IfOk, OnErr, OnOk, length};
ghost use Rattle.serde_json.specs.View.{view};
ghost use Rattle.iam_asked.specs.Code.Reading.{IsFoundIn, IsFoundOf, IsOwnFault, IsUnfound};
ghost use Rattle.iam_asked.specs.Fault.{IsLineFault};
ghost use Rattle.iam_asked.specs.Request.{AskedValue, IsRequest, IsWithin, RequestsValue, asked_with, with_asked};
ghost use Rattle.iam_asked.specs.Said.{IsShort};
ghost use Rattle.iam_asked.specs.Size.{AreSmall};
ghost use Rattle.iam_asked.specs.declared.fault.LineFault.TheVariants as l;

use crate::asked::Asked;
use crate::fault::LineFault;
use crate::finder::Finder;
use crate::own::Own;
use crate::requests::{MOST_REQUESTS, Requests};
use crate::said::{parse, read_said};
use iam_context::Part;
use iam_layers::World;
use iam_text::OutOfMemory;
use iam_world_context::read_part;
use serde_json::Value;
use std::alloc::Global;
use std::marker::Model;

/// Requests that are read from lines, with what is needed to read further ones. A contract sees the world and the requests.
#[derive(Drop)]
pub struct Reading<'a> {
    finder: Finder<'a>,
    requests: Requests<'a>,
}

impl<'a> Model for Reading<'a> {
    ghost Value = { RequestsValue };

    ghost view = { λ reading. reading.requests };

    ghost invariant = { λ reading. reading.finder ≡ reading.requests.world };
}

/// The numbers of what the JSON value of a line says, and the keys that it gives.
fn find_said(alloc: Global, finder: &Finder<'_>, value: &Value) -> Result<(Asked, Part), LineFault>
    ensures ok { IfOk result (λ found. IsFoundOf finder.now (view value.now) found.0 found.1.items) }
    ensures fault { IfErr result (λ fault. fault ≢ l.OutOfMemory → IsUnfound finder.now (view value.now) fault) }
{
    let Some(said) = read_said(value) else {
        return Err(LineFault::BadShape);
    };
    let asked = finder.find(alloc, &said)?;
    let own = read_part(alloc, said.context)?;
    Ok((asked, own))
}

impl<'a> Reading<'a> {
    /// Begins to read requests for a world. `OutOfMemory` comes where there is no memory for the places of its texts.
    pub fn of(alloc: Global, world: &'a World) -> Result<Reading<'a>, OutOfMemory>
        ensures { IfOk result (λ reading. reading ≡ record { world = world.entry.now; asked = [] }) }
    {
        Ok(Reading {
            finder: Finder::of(alloc, world)?,
            requests: Requests::new(alloc, world),
        })
    }

    /// Adds the request of a line, without its line feed, or answers its least fault, and then adds none.
    pub fn add_line(&mut self, alloc: Global, line: &[u8]) -> Result<(), LineFault>
        ensures ok { OnOk result ((asked : AskedValue) × IsRequest self.old.world line.now asked × (self.new ≡ with_asked self.old asked)) }
        ensures fault { IfErr result (λ fault. fault ≢ l.OutOfMemory → IsLineFault self.old line.now fault) }
        ensures same { OnErr result (self.new ≡ self.old) }
    {
        if self.requests.count() == MOST_REQUESTS {
            return Err(LineFault::TooMany);
        }
        let (asked, own) = self.find(alloc, line)?;
        self.add(alloc, asked, own)
    }

    /// How many requests were read, at most 16,777,216, whose keys are not too large.
    pub fn count(&self) -> u64
        ensures value { result ≡ length self.now.asked }
        ensures few { result ≤ 16777216 }
        ensures small { AreSmall self.now.asked }
    {
        self.requests.count()
    }

    /// The least fault of a further line of over 8,388,608 bytes.
    pub(crate) fn fault_of_long(&self) -> LineFault
        ensures { (line : List ℕ) → ¬ IsShort line → IsLineFault self.now line result }
    {
        if self.requests.count() == MOST_REQUESTS {
            return LineFault::TooMany;
        }
        LineFault::BadShape
    }

    /// The numbers of a line, and the keys that it gives.
    fn find(&self, alloc: Global, line: &[u8]) -> Result<(Asked, Part), LineFault>
        ensures ok { IfOk result (λ found. IsFoundIn self.now.world line.now found.0 found.1.items) }
        ensures fault { IfErr result (λ fault. fault ≢ l.OutOfMemory
            → length self.now.asked < 16777216 → IsLineFault self.now line.now fault) }
    {
        let value = parse(alloc, line)?;
        find_said(alloc, &self.finder, &value)
    }

    /// Adds a request that gives these keys, after it has tested them.
    fn add(&mut self, alloc: Global, asked: Asked, own: Part) -> Result<(), LineFault>
        requires principal { asked.principal < length self.old.world.principals }
        requires action { asked.action < length self.old.world.actions }
        requires resource { asked.resource < length self.old.world.resources }
        requires few { length self.old.asked < 16777216 }
        ensures ok { OnOk result (self.new ≡ with_asked self.old (asked_with asked own.items)) }
        ensures within { OnOk result (IsWithin self.old.world (asked_with asked own.items)) }
        ensures fault { IfErr result (λ fault. fault ≢ l.OutOfMemory → IsOwnFault self.old (asked_with asked own.items) fault) }
        ensures same { OnErr result (self.new ≡ self.old) }
    {
        if own.is_empty() {
            self.requests.add(asked)?;
            return Ok(());
        }
        let world = self.finder.world();
        world.check_own(alloc, asked.principal, asked.resource, &own)?;
        self.requests.add_with(asked, Own::new(own))
    }

    /// The requests that were read.
    pub fn into_requests(self) -> Requests<'a>
        ensures { result ≡ self.entry }
    {
        self.requests
    }
}
