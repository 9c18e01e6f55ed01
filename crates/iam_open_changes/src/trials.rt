// Values that are tried in both worlds for keys that neither gives. Nothing is claimed of them.
use crate::side::{Side, Sides};
use iam_layers::OutOfMemory;
use iam_open::{Scene, moments_of, trials_of};
use std::alloc::Global;

/// A key that neither world gives, with the texts that are tried for it beside having none.
#[derive(Drop)]
pub struct Trial {
    pub key: String,
    pub texts: Vec<String>,
}

/// What is tried for a request of two worlds: texts of keys that neither gives, and moments.
#[derive(Drop)]
pub struct Tried {
    pub trials: Vec<Trial>,
    pub moments: Vec<u64>,
}

/// So many keys are tried at most, and so many texts of one.
const KEYS: usize = 8;

const TEXTS: usize = 48;

/// What is tried for the request.
pub fn tried_of(alloc: Global, sides: Sides<'_, '_>) -> Result<Tried, OutOfMemory> {
    let from = sides.before.moment().max(sides.after.moment());
    let mut tried = Tried {
        trials: Vec::new(alloc),
        moments: Vec::new(alloc),
    };
    tried.moments.push(from)?;
    add_side(alloc, &mut tried, sides, sides.after, from)?;
    add_side(alloc, &mut tried, sides, sides.before, from)?;
    Ok(tried)
}

/// Adds what the statements ask for that apply to the request in a world, if that has it.
fn add_side(
    alloc: Global,
    tried: &mut Tried,
    sides: Sides<'_, '_>,
    side: Side<'_, '_>,
    from: u64,
) -> Result<(), OutOfMemory> {
    match side {
        Side::Has(request) => add_asked(alloc, tried, sides, request.scene, from),
        Side::Lacks(_) => Ok(()),
    }
}

/// Adds what the statements ask for that apply where this is asked for.
fn add_asked(
    alloc: Global,
    tried: &mut Tried,
    sides: Sides<'_, '_>,
    scene: Scene<'_, '_>,
    from: u64,
) -> Result<(), OutOfMemory> {
    let none = Vec::new(alloc);
    let moment = scene.world.moment();
    let derived = scene.derived(alloc, moment)?;
    // The parts of a world's contexts can be joined, so that nothing is refused but memory.
    let Ok(context) = scene.context(alloc, &none, &derived) else {
        return Err(OutOfMemory);
    };
    let statements = scene.statements(alloc)?;
    let known = scene.known(&none, Some(moment));
    let trials = trials_of(alloc, statements.as_slice(), scene.text(), &context, &known)?;
    for trial in trials.as_slice() {
        add_texts(alloc, tried, sides, trial.key, trial.texts.as_slice())?;
    }
    let moments = moments_of(alloc, from, statements.as_slice())?;
    for &moment in moments.as_slice() {
        if moment >= from && !tried.moments.contains(&moment) {
            tried.moments.push(moment)?;
        }
    }
    Ok(())
}

/// Whether neither of the worlds gives the key.
fn is_open(alloc: Global, sides: Sides<'_, '_>, key: &str) -> bool {
    !is_known(alloc, sides.before, key) && !is_known(alloc, sides.after, key)
}

/// Whether the world gives the key, or it follows from something.
fn is_known(alloc: Global, side: Side<'_, '_>, key: &str) -> bool {
    let none = Vec::new(alloc);
    match side {
        Side::Has(request) => {
            let scene = request.scene;
            scene.known(&none, Some(scene.world.moment())).has(key)
        }
        Side::Lacks(_) => false,
    }
}

/// Adds texts to those that are tried for the key, if neither world gives it.
fn add_texts(
    alloc: Global,
    tried: &mut Tried,
    sides: Sides<'_, '_>,
    key: &str,
    texts: &[String],
) -> Result<(), OutOfMemory> {
    if !is_open(alloc, sides, key) {
        return Ok(());
    }
    for text in texts {
        tried.add(alloc, key, text.as_str())?;
    }
    Ok(())
}

impl Tried {
    /// Adds a text to those that are tried for the key, as far as there is room.
    fn add(&mut self, alloc: Global, key: &str, text: &str) -> Result<(), OutOfMemory> {
        for trial in self.trials.iter_mut() {
            if trial.key.as_str().eq_ignore_ascii_case(key) {
                return trial.add(alloc, text);
            }
        }
        if self.trials.len() < KEYS {
            let mut trial = Trial {
                key: String::from_str(alloc, key)?,
                texts: Vec::new(alloc),
            };
            trial.add(alloc, text)?;
            self.trials.push(trial)?;
        }
        Ok(())
    }
}

impl Trial {
    /// What is tried as number i: first that the key has no value.
    pub fn text(&self, i: usize) -> Option<&str> {
        if i == 0 || i > self.texts.len() {
            return None;
        }
        Some(self.texts[i - 1].as_str())
    }

    fn add(&mut self, alloc: Global, text: &str) -> Result<(), OutOfMemory> {
        if self.texts.len() < TEXTS && !self.texts.iter().any(|it| it.as_str() == text) {
            self.texts.push(String::from_str(alloc, text)?)?;
        }
        Ok(())
    }
}
