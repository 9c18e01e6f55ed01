// The actions on which a pattern is tried.
ghost use Rattle.std.specs.Prelude.{◌≡◌, ◌<◌, length, slice_index};
ghost use Rattle.iam_services.specs.Services.{numbers_of};

/// The numbers of the actions on which a pattern is tried.
#[derive(Clone, Copy)]
pub enum Tried<'a> {
    /// All below this.
    All(u64),
    /// These.
    These(&'a [u64]),
}

impl<'a> Tried<'a> {
    /// How many they are.
    #[inline(always)]
    pub fn len(self) -> u64
        ensures { result ≡ length (numbers_of self.entry) }
    {
        match self {
            Tried::All(count) => count,
            Tried::These(numbers) => numbers.len() as u64,
        }
    }

    /// The number at this place, which has to be one of theirs.
    #[inline(always)]
    pub fn at(self, i: u64) -> u64
        requires within { i < length (numbers_of self) }
        ensures { result ≡ slice_index (numbers_of self.entry) i }
    {
        match self {
            Tried::All(_) => i,
            Tried::These(numbers) => numbers[i as usize],
        }
    }
}
