// An example is sought: values of keys that nothing gives are tried, one key after the other, as long as they do not settle the request.
//
// Whether a statement matches where some keys are tried hangs on the keys that it asks for alone, so that what is known of it before any
// is tried stays known, and no values are tried of a key that none of the other statements asks for: that it has none stands for all of
// them, and the contexts of its values are counted as if they were looked at.
ghost use Rattle.std.specs.Prelude.{◌∷◌, [], ℕ, IfOk, IfSome};
ghost use Rattle.iam_layers.specs.Cell.{IsAction};
ghost use Rattle.iam_open.specs.Seat.{IsSeat};
ghost use Rattle.iam_open.specs.Turned.{IsShown};
ghost use Rattle.iam_world.specs.World.{WorldValue};

use crate::bounds::{Bounds, matched_of};
use crate::certain::Certain;
use crate::example::{Example, LAST_MOMENT, example_of};
use crate::known::Known;
use crate::scene::Scene;
use crate::statement::statement_certain;
use crate::trials::{Trial, asks_for, asks_for_time, entry_of, moments_of, part_of, trials_of};
use iam_context::{Context, ContextFault, Part};
use iam_decision::{Frame, Standing};
use iam_layers::OutOfMemory;
use iam_match::Access;
use std::alloc::Global;

/// So many contexts are looked at for a request at most.
const NODES: u32 = 4096;

/// The request for this action.
#[derive(Clone, Copy)]
struct Request<'a, 's> {
    scene: Scene<'a, 's>,
    action: &'s str,
}

/// The statements that may match a request, before any key is tried: those that do, and those of which it is open.
#[derive(Drop)]
struct Live<'a> {
    frame: Frame,
    sure: Vec<Standing<'a>>,
    open: Vec<Standing<'a>>,
}

/// What is tried: the keys so far, the same as a part, the moment, and how many contexts may still be looked at.
#[derive(Drop)]
struct Tried<'s> {
    chosen: Vec<(&'s str, Option<&'s str>)>,
    own: Part,
    moment: u64,
    left: u32,
}

/// An example of a context in question in which the request for this action is allowed, where one is found. `None` says nothing.
pub fn example(
    alloc: Global,
    scene: Scene<'_, '_>,
    action: &str,
) -> Result<Option<Example>, OutOfMemory>
    ensures { IfOk result (λ found. IfSome found (λ shown. (other : WorldValue) (a r : ℕ)
        → IsSeat scene.entry.world.now scene.entry.target other r → IsAction other a action.now
        → IsShown (other ∷ []) other scene.entry.p a r shown)) }
{
    let world = scene.world;
    let none = Vec::new(alloc);
    let derived = scene.derived(alloc, world.moment())?;
    // The parts of a world's contexts can be joined, so that nothing is refused but memory.
    let Ok(context) = scene.context(alloc, &none, &derived) else {
        return Err(OutOfMemory);
    };
    let statements = scene.statements(alloc)?;
    let request = Request { scene, action };
    let timeless = scene.known(&none, None);
    let live = live_of(alloc, request, statements.as_slice(), &context, &timeless)?;
    let known = scene.known(&none, Some(world.moment()));
    let trials = trials_of(alloc, statements.as_slice(), scene.text(), &context, &known)?;
    let moments = moments_of(alloc, world.moment(), statements.as_slice())?;
    let matters = matters(alloc, trials.as_slice(), live.open.as_slice())?;
    example_in(
        alloc,
        request,
        &live,
        trials.as_slice(),
        matters.as_slice(),
        moments.as_slice(),
    )
}

/// An example in which the time is one of these moments.
fn example_in<'a>(
    alloc: Global,
    request: Request<'a, '_>,
    live: &Live<'a>,
    trials: &[Trial<'_>],
    matters: &[bool],
    moments: &[u64],
) -> Result<Option<Example>, OutOfMemory>
    ensures { IfOk result (λ found. IfSome found (λ shown. (other : WorldValue) (a r : ℕ)
        → IsSeat request.entry.scene.world.now request.entry.scene.target other r → IsAction other a request.entry.action.now
        → IsShown (other ∷ []) other request.entry.scene.p a r shown)) }
{
    let hangs_on_time = some_asks_for_time(live.open.as_slice());
    let mut left = NODES;
    for &moment in moments {
        let mut tried = Tried {
            chosen: Vec::new(alloc),
            own: Vec::new(alloc),
            moment,
            left,
        };
        let found = seek(alloc, request, live, trials, matters, 0, None, &mut tried)?;
        // What hangs on no time is the same at each moment.
        if found.is_some() || !hangs_on_time {
            return Ok(found);
        }
        left = tried.left;
    }
    Ok(None)
}

/// Those of the statements that may match.
fn live_of<'a: 'c, 'c>(
    alloc: Global,
    request: Request<'a, '_>,
    statements: &[Standing<'a>],
    context: &Context<'c>,
    known: &Known<'_>,
) -> Result<Live<'a>, OutOfMemory> {
    let scene = request.scene;
    let access = Access {
        requester: scene.requester(),
        resource: scene.text(),
        context,
    };
    let mut live = Live {
        frame: scene.frame(),
        sure: Vec::new(alloc),
        open: Vec::new(alloc),
    };
    for &standing in statements {
        match statement_certain(alloc, standing.statement, access, request.action, known)? {
            Certain::Never => {}
            Certain::Always => live.sure.push(standing)?,
            Certain::Open => live.open.push(standing)?,
        }
    }
    Ok(live)
}

/// Which of the keys one of the statements asks for.
fn matters(
    alloc: Global,
    trials: &[Trial<'_>],
    open: &[Standing<'_>],
) -> Result<Vec<bool>, OutOfMemory> {
    let mut matters = Vec::new(alloc);
    for trial in trials {
        matters.push(some_asks_for(open, trial.key))?;
    }
    Ok(matters)
}

fn some_asks_for(open: &[Standing<'_>], key: &str) -> bool {
    for standing in open {
        if asks_for(standing.statement, key) {
            return true;
        }
    }
    false
}

fn some_asks_for_time(open: &[Standing<'_>]) -> bool {
    for standing in open {
        if asks_for_time(standing.statement) {
            return true;
        }
    }
    false
}

/// An example in which the keys before number k are as tried. It may be known already what is certain there.
fn seek<'s, 'a>(
    alloc: Global,
    request: Request<'a, '_>,
    live: &Live<'a>,
    trials: &'s [Trial<'_>],
    matters: &[bool],
    k: usize,
    same: Option<Certain>,
    tried: &mut Tried<'s>,
) -> Result<Option<Example>, OutOfMemory>
    ensures { IfOk result (λ found. IfSome found (λ shown. (other : WorldValue) (a r : ℕ)
        → IsSeat request.entry.scene.world.now request.entry.scene.target other r → IsAction other a request.entry.action.now
        → IsShown (other ∷ []) other request.entry.scene.p a r shown)) }
{
    if tried.left == 0 {
        return Ok(None);
    }
    tried.left -= 1;
    let certain = match same {
        Some(certain) => certain,
        None => certain_at(alloc, request, live, &tried.own, tried.moment)?,
    };
    if certain == Certain::Never {
        return Ok(None);
    }
    if certain == Certain::Always || k >= trials.len() {
        return shown(alloc, request, tried);
    }
    let trial = &trials[k];
    let counts = does_matter(matters, k);
    let before = tried.left;
    for i in 0..tries_of(trial, counts) {
        tried.push(alloc, trial.key, trial.text(i))?;
        let same = if counts { None } else { Some(certain) };
        let found = seek(alloc, request, live, trials, matters, k + 1, same, tried)?;
        tried.pop();
        if found.is_some() {
            return Ok(found);
        }
    }
    if !counts {
        tried.pass(before, trial.texts.len());
    }
    Ok(None)
}

/// How often a key is tried: once where it does not matter.
fn tries_of(trial: &Trial<'_>, does_matter: bool) -> usize {
    if does_matter {
        trial.texts.len().saturating_add(1)
    } else {
        1
    }
}

/// Whether key number k matters.
fn does_matter(matters: &[bool], k: usize) -> bool {
    match matters.get(k) {
        Some(does) => *does,
        None => true,
    }
}

impl<'s> Tried<'s> {
    fn push(
        &mut self,
        alloc: Global,
        key: &'s str,
        text: Option<&'s str>,
    ) -> Result<(), OutOfMemory> {
        self.chosen.push((key, text))?;
        self.own.push(entry_of(alloc, key, text)?)?;
        Ok(())
    }

    fn pop(&mut self) {
        let _chosen = self.chosen.pop();
        let _own = self.own.pop();
    }

    /// Counts contexts that are not looked at: so many times as many as were looked at since so many were left.
    fn pass(&mut self, before: u32, times: usize) {
        let each = before.saturating_sub(self.left);
        for _ in 0..times {
            self.left = self.left.saturating_sub(each);
        }
    }
}

/// The example that the keys that are tried are.
fn shown(
    alloc: Global,
    request: Request<'_, '_>,
    tried: &Tried<'_>,
) -> Result<Option<Example>, OutOfMemory>
    ensures { IfOk result (λ found. IfSome found (λ shown. (other : WorldValue) (a r : ℕ)
        → IsSeat request.entry.scene.world.now request.entry.scene.target other r → IsAction other a request.entry.action.now
        → IsShown (other ∷ []) other request.entry.scene.p a r shown)) }
{
    let own = part_of(alloc, tried.chosen.as_slice())?;
    example_of(alloc, request.scene, request.action, own, tried.moment)
}

/// Whether the request is allowed where these keys are tried at this moment, and no others are known; never, where they cannot be.
fn certain_at<'a: 's, 's>(
    alloc: Global,
    request: Request<'s, 's>,
    live: &Live<'a>,
    own: &'s Part,
    moment: u64,
) -> Result<Certain, OutOfMemory> {
    if moment > LAST_MOMENT {
        return Ok(Certain::Never);
    }
    let scene = request.scene;
    let derived = scene.derived(alloc, moment)?;
    let context = match scene.context(alloc, own, &derived) {
        Ok(context) => context,
        Err(ContextFault::OutOfMemory) => return Err(OutOfMemory),
        Err(_) => return Ok(Certain::Never),
    };
    let access = Access {
        requester: scene.requester(),
        resource: scene.text(),
        context: &context,
    };
    let known = scene.known(own, Some(moment));
    certain_of(alloc, live, access, request.action, &known)
}

/// The same, as it follows from the statements that may match.
fn certain_of<'a: 'c, 'c>(
    alloc: Global,
    live: &Live<'a>,
    access: Access<'_, 'c>,
    action: &str,
    known: &Known<'_>,
) -> Result<Certain, OutOfMemory> {
    let mut bounds = Bounds::new(alloc);
    for &standing in live.sure.as_slice() {
        bounds.add(matched_of(standing, access.requester), Certain::Always)?;
    }
    for &standing in live.open.as_slice() {
        let certain = statement_certain(alloc, standing.statement, access, action, known)?;
        bounds.add(matched_of(standing, access.requester), certain)?;
    }
    Ok(bounds.certain(live.frame))
}
