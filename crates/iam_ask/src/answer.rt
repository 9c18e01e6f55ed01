// What an engine says of one of the requests.
ghost use Rattle.std.specs.Prelude.{◌≡◌, ◌<◌, IfOk, length};
ghost use Rattle.iam_ask.specs.Report.{IsDecisionOn, IsVerdictOn};
ghost use Rattle.iam_ask.specs.Code.Rows.{IsAnswerTo, IsOn};

use crate::laws::without_keys_as_its_cell;
use iam_asked::Requests;
use iam_engine::Engine;
use iam_layers::{Decision, Verdict};
use iam_row::bare;
use iam_text::OutOfMemory;
use std::alloc::Global;

/// The verdict on request n.
fn verdict_on(
    alloc: Global,
    engine: &mut Engine<'_>,
    requests: &Requests<'_>,
    n: u64,
) -> Result<Verdict, OutOfMemory>
    requires world { requests.now.world ≡ engine.old }
    requires there { n < length requests.now.asked }
    ensures is { IfOk result (IsOn IsVerdictOn requests.now n) }
    ensures same { engine.new ≡ engine.old }
{
    without_keys_as_its_cell();
    let at = requests.at(n);
    match requests.own(n) {
        Some(own) => engine.decide_own(alloc, at.principal, at.action, at.resource, own),
        None => {
            let cell = engine.world().cell(at.principal, at.action, at.resource);
            engine.decide(alloc, cell)
        }
    }
}

/// The decision on request n.
fn decision_on(
    alloc: Global,
    engine: &mut Engine<'_>,
    requests: &Requests<'_>,
    n: u64,
) -> Result<Decision, OutOfMemory>
    requires world { requests.now.world ≡ engine.old }
    requires there { n < length requests.now.asked }
    ensures is { IfOk result (IsOn IsDecisionOn requests.now n) }
    ensures same { engine.new ≡ engine.old }
{
    without_keys_as_its_cell();
    let at = requests.at(n);
    match requests.own(n) {
        Some(own) => engine.decide_own_brief(alloc, at.principal, at.action, at.resource, own),
        None => {
            let cell = engine.world().cell(at.principal, at.action, at.resource);
            engine.decide_brief(alloc, cell)
        }
    }
}

/// What the row of request n says: its verdict, or in brief its decision, as a verdict without places and layers.
pub fn answer_to(
    alloc: Global,
    engine: &mut Engine<'_>,
    requests: &Requests<'_>,
    n: u64,
    brief: bool,
) -> Result<Verdict, OutOfMemory>
    requires world { requests.now.world ≡ engine.old }
    requires there { n < length requests.now.asked }
    ensures is { IfOk result (IsAnswerTo brief requests.now n) }
    ensures same { engine.new ≡ engine.old }
{
    if brief {
        let decision = decision_on(alloc, engine, requests, n)?;
        return Ok(bare(alloc, decision));
    }
    verdict_on(alloc, engine, requests, n)
}
