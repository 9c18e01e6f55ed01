// One entry of a statement's conditions: an operator, a key and values.
use crate::operand::Operand;
use crate::operator::Operator;
use iam_text::OutOfMemory;
use std::alloc::Global;
use std::marker::Model;

/// An entry of a `Condition`: an operator, a key under it, and the values of that key.
///
/// AWS IAM User Guide, "IAM JSON policy elements: Condition".
#[derive(Debug, Drop)]
pub struct Entry {
    operator: Operator,
    key: String,
    values: Vec<Operand>,
}

impl Model for Entry {
    ghost use Rattle.std.specs.Prelude.{string_bytes};
    ghost use Rattle.iam_condition.specs.Entry.{EntryValue};

    ghost Value = { EntryValue };

    ghost view = { λ e. record { operator = e.operator; key = string_bytes e.key; values = e.values.items } };
}

impl Entry {
    ghost use Rattle.std.specs.Prelude.{◌≡◌, IfOk};

    pub(crate) fn new(
        alloc: Global,
        operator: Operator,
        key: &str,
        values: Vec<Operand>,
    ) -> Result<Entry, OutOfMemory>
        ensures { IfOk result (λ entry. entry ≡ record { operator = operator; key = key.now; values = values.items }) }
    {
        Ok(Entry {
            operator,
            key: String::from_str(alloc, key)?,
            values,
        })
    }

    /// The operator.
    pub fn operator(&self) -> Operator
        ensures { result ≡ self.now.operator }
    {
        self.operator
    }

    /// The key, which the context of a request has without regard to case.
    pub fn key(&self) -> &str
        ensures { result.now ≡ self.now.key }
    {
        self.key.as_str()
    }

    /// The values, in order; there may be none.
    pub fn values(&self) -> &[Operand]
        ensures { result.now ≡ self.now.values }
    {
        self.values.as_slice()
    }
}
