// A value that stands apart.
use iam_text::OutOfMemory;
use std::alloc::Global;
use std::marker::Model;

/// A value that is kept apart, so that what it is part of stays small. Contracts see the value.
#[derive(Debug, Drop)]
pub struct Apart<T>(Box<T>);

impl<T> Model for Apart<T> {
    ghost Value = { T };

    ghost view = { λ apart. apart.0.value };
}

impl<T> Apart<T> {
    ghost use Rattle.std.specs.Prelude.{◌≡◌, IfOk};

    pub(crate) fn new(alloc: Global, value: T) -> Result<Apart<T>, OutOfMemory>
    where
        T: Drop,
        ensures { IfOk result (λ apart. apart ≡ value) }
    {
        Ok(Apart(Box::new(alloc, value)?))
    }

    /// The value.
    pub fn get(&self) -> &T
        ensures { result.now ≡ self.now }
    {
        &self.0
    }
}
