// What lines say of texts in another state of the same accounts.
ghost use Rattle.std.specs.Prelude.{◌≡◌, ◌≢◌, ◌∷◌, ◌++◌, [], All, IfErr, IfOk, OnOk, map};
ghost use Rattle.iam_asked.specs.Before.{AreLinesBefore, IsFirstUnsaid, IsLineBefore, IsSaidBefore, IsUnsaidBefore};
ghost use Rattle.iam_asked.specs.Code.Found.{ArePlaces};
ghost use Rattle.iam_asked.specs.TextLines.{IsKnown, said_value, text_line_of};
ghost use Rattle.iam_asked.specs.Texts.{resource_texts};
ghost use Rattle.iam_asked.specs.declared.texts.TextLine.{TextLine};
ghost use Rattle.iam_asked.specs.declared.text_fault.TextFault.TheVariants as t;

use crate::places::{Place, resource_places};
use crate::text_fault::{FaultyText, TextFault};
use crate::texts::{SaidOf, TextLine};
use iam_layers::World;
use std::alloc::Global;
use std::collections::HashMap;

/// What is said after, said before; `NoResource` or `NoAccount` where that world does not have what it names.
fn said_in_before(
    alloc: Global,
    before: &World,
    after: &World,
    places: &HashMap<&str, Place>,
    said: &SaidOf,
) -> Result<SaidOf, TextFault>
    requires places { ArePlaces (resource_texts before.now) places.now }
    requires known { IsKnown after.now (said_value said.now) }
    ensures ok { IfOk result (λ was. IsSaidBefore before.now after.now (said_value said.now) (said_value was)) }
    ensures fault { IfErr result (λ fault. fault ≢ t.OutOfMemory → IsUnsaidBefore before.now after.now (said_value said.now) fault) }
{
    match said {
        SaidOf::Like(n) => match places.get(after.resource_text(*n)) {
            Some(place) => Ok(SaidOf::Like(place.first)),
            None => Err(TextFault::NoResource),
        },
        SaidOf::Account(id) => {
            if !before.has_account(id.as_str()) {
                return Err(TextFault::NoAccount);
            }
            Ok(SaidOf::Account(String::from_str(alloc, id.as_str())?))
        }
    }
}

/// Adds the line, said before.
fn add_before(
    alloc: Global,
    before: &World,
    after: &World,
    places: &HashMap<&str, Place>,
    all: &mut Vec<TextLine>,
    line: &TextLine,
) -> Result<(), TextFault>
    requires places { ArePlaces (resource_texts before.now) places.now }
    requires known { IsKnown after.now (text_line_of line.now).said }
    ensures ok { OnOk result ((was : TextLine) × IsLineBefore before.now after.now (text_line_of line.now) (text_line_of was)
        × (all.new.items ≡ all.old.items ++ was ∷ [])) }
    ensures fault { IfErr result (λ fault. fault ≢ t.OutOfMemory → IsUnsaidBefore before.now after.now (text_line_of line.now).said fault) }
{
    let said = said_in_before(alloc, before, after, places, &line.said)?;
    let pattern = String::from_str(alloc, line.pattern.as_str())?;
    all.push(TextLine { pattern, said })?;
    Ok(())
}

/// What lines of the world after say of texts, said of the world before: of its resource of the same text, and of its account with the
/// same id. Or the first line that names what that world does not have: `NoResource`, `NoAccount`.
pub fn lines_before(
    alloc: Global,
    before: &World,
    after: &World,
    lines: &[TextLine],
) -> Result<Vec<TextLine>, FaultyText>
    requires known { All (λ line. IsKnown after.now line.said) (map text_line_of lines.now) }
    ensures ok { IfOk result (λ were. AreLinesBefore before.now after.now (map text_line_of lines.now) (map text_line_of were.items)) }
    ensures fault { IfErr result (λ faulty. faulty.fault ≢ t.OutOfMemory → IsFirstUnsaid before.now after.now (map text_line_of lines.now) faulty) }
{
    let Ok(places) = resource_places(alloc, before) else {
        return Err(FaultyText {
            line: 0,
            fault: TextFault::OutOfMemory,
        });
    };
    let mut all = Vec::new(alloc);
    for i in 0..lines.len() {
        if let Err(fault) = add_before(alloc, before, after, &places, &mut all, &lines[i]) {
            return Err(FaultyText {
                line: i as u64,
                fault,
            });
        }
    }
    Ok(all)
}
