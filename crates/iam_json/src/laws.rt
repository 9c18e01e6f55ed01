// Laws about the sizes of JSON values, for the crates above.
ghost use Rattle.std.specs.Prelude.{◌≡◌, ◌≤◌, ◌<◌, ℕ, List, Some, length};
ghost use Rattle.std.specs.List.{slice_get};
ghost use Rattle.serde_json.specs.Data.{Data};
ghost use Rattle.serde_json.specs.Find.{get};
ghost use Rattle.serde_json.specs.Read.{read};
ghost use Rattle.iam_json.specs.Look.{values};
ghost use Rattle.iam_json.specs.Size.{size};

/// A value that is read from n bytes holds at most n values.
pub fn read_is_small()
    ensures { (bytes : List ℕ) (d : Data) → read bytes ≡ Some d → size d ≤ length bytes }
{}

/// A list has fewer items than it holds values.
pub fn list_is_small()
    ensures { (d : Data) (list : List Data) → values d ≡ Some list → length list < size d }
{}

/// A member holds at most as many values as its object.
pub fn member_is_smaller()
    ensures { (name : List ℕ) (d value : Data) → get name d ≡ Some value → size value ≤ size d }
{}

/// An item holds fewer values than its list.
pub fn item_is_smaller()
    ensures { (d value : Data) (list : List Data) (i : ℕ) → values d ≡ Some list → slice_get list i ≡ Some value → size value < size d }
{}
