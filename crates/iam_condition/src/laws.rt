// A law of the definitions, for the crates above.
ghost use Rattle.std.specs.Prelude.{◌≡◌, List};
ghost use Rattle.serde_json.specs.Data.{Data};
ghost use Rattle.iam_text.specs.declared.version.Version.{Version};
ghost use Rattle.iam_condition.specs.Condition.{ReadsCondition};
ghost use Rattle.iam_condition.specs.Entry.{EntryValue};

use iam_text::one_draft;
use iam_value::{one_bytes, one_moment, one_range, one_truth, one_whole};

/// A `Condition` of a document of a version is read as at most one list of entries.
pub fn one_condition()
    ensures { (version : Version) (condition : Data) (entries other : List EntryValue) → ReadsCondition version condition entries
        → ReadsCondition version condition other → entries ≡ other }
{
    one_draft();
    one_whole();
    one_moment();
    one_truth();
    one_bytes();
    one_range();
}
