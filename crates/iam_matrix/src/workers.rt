// How many workers a matrix may have.
ghost use Rattle.std.specs.Prelude.{◌↔◌, IsTrue};
ghost use Rattle.iam_matrix.specs.Workers.{IsUnlawful};

/// Whether so many workers are none, or more than 64.
pub fn is_unlawful(workers: u32) -> bool
    ensures { IsTrue result ↔ IsUnlawful workers }
{
    workers == 0 || workers > 64
}
