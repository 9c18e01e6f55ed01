// What is looked at in two states, and what is told of it.
ghost use Rattle.std.specs.Prelude.{◌≡◌, ◌∷◌, [], IsTrue, List, OnOk, false};
ghost use Rattle.iam_every_changes.specs.Changes.{ChangedValue, is_change, is_told_by};
ghost use Rattle.iam_every_changes.specs.Code.Looked.{Gains};

use iam_decision::Verdict;
use iam_match::OutOfMemory;
use iam_row::is_allowed;
use std::alloc::Global;

/// The verdicts on a request before and after; none where a world does not have the principal.
#[derive(Debug, Drop)]
pub struct Verdicts {
    pub before: Option<Verdict>,
    pub after: Option<Verdict>,
}

/// A request that one of two states alone allows; or a line of which not all could be looked at, by its pattern as it is written.
#[derive(Debug, Drop)]
pub struct Changed {
    pub action: String,
    pub resource: String,
    /// `None` where more kinds would have to be looked at than there may be.
    pub verdicts: Option<Verdicts>,
}

/// What is told, and whether anything was looked at.
#[derive(Debug, Drop)]
pub struct Looked {
    pub rows: Vec<Changed>,
    pub some: bool,
}

impl Looked {
    /// Nothing was looked at yet.
    pub fn nothing(alloc: Global) -> Looked
        ensures rows { result.rows.items ≡ [] }
        ensures some { result.some ≡ false }
    {
        Looked {
            rows: Vec::new(alloc),
            some: false,
        }
    }

    /// Tells these verdicts on the request for the action on the resource, or where there are none that not all could be looked at, if
    /// one of the states alone allows the request.
    pub fn add(
        &mut self,
        alloc: Global,
        action: &str,
        resource: &str,
        verdicts: Option<Verdicts>,
    ) -> Result<(), OutOfMemory>
        ensures { OnOk result (Gains self.old (record { action = action.now; resource = resource.now; verdicts = verdicts } ∷ []) self.new) }
    {
        self.some = true;
        if is_told(&verdicts) {
            self.rows.push(Changed {
                action: String::from_str(alloc, action)?,
                resource: String::from_str(alloc, resource)?,
                verdicts,
            })?;
        }
        Ok(())
    }
}

/// Whether one of the states alone allows the request.
fn is_change(verdicts: &Verdicts) -> bool
    ensures { result ≡ is_change verdicts.now }
{
    is_allowed(verdicts.before.as_ref()) != is_allowed(verdicts.after.as_ref())
}

/// Whether this is told.
fn is_told(verdicts: &Option<Verdicts>) -> bool
    ensures { result ≡ is_told_by verdicts.now }
{
    match verdicts {
        Some(verdicts) => is_change(verdicts),
        None => true,
    }
}
