// A policy, and reading it.
ghost use Rattle.std.specs.Prelude.{◌≡◌, ◌≢◌, ◌≤◌, ◌+◌, IfOk, IfErr, OnOk, None, length, vec_len};
ghost use Rattle.std.specs.List.{AllZip};
ghost use Rattle.serde_json.specs.View.{view};
ghost use Rattle.iam_policy.specs.Code.First.{AreFaultless, IsFirstRefused};
ghost use Rattle.iam_policy.specs.Code.Readable.{IsReadable, AddsStatement};
ghost use Rattle.iam_policy.specs.Fault.{statements_in, IsLeastFault};
ghost use Rattle.iam_policy.specs.Reading.{ReadsStatement, Reads, PolicyValue};
ghost use Rattle.iam_policy.specs.Version.{version_of};

use crate::OutOfMemory;
use crate::document_checks::statements_in;
use crate::fault::{Fault, Kind, Refused};
use crate::sids::note_sid;
use crate::statement::Statement;
use crate::statement_checks::has_bad_value;
use crate::table::{StatementPlace, document_fault, statement_fault};
use crate::version::version_of;
use iam_element::Members;
use iam_text::Version;
use serde_json::Value;
use std::alloc::Global;
use std::collections::BTreeSet;
use std::marker::Model;

/// A policy document that was read.
#[derive(Debug, Drop)]
pub struct Policy {
    version: Version,
    statements: Vec<Statement>,
}

impl Model for Policy {
    ghost Value = { PolicyValue };

    ghost view = { λ p. record { version = p.version; statements = p.statements.items } };

    ghost invariant = { λ p. vec_len p.statements ≤ 4096 };
}

impl Policy {
    /// The policy of a document, or the document's least fault: by place, the document first, then by number.
    ///
    /// AWS IAM User Guide, "Grammar of the IAM JSON policy language".
    pub fn read(alloc: Global, value: &Value, kind: Kind) -> Result<Policy, Refused>
        ensures ok { IfOk result (λ policy. Reads kind (view value.now) policy) }
        ensures least { IfErr result (λ refused. refused.fault ≢ Fault.OutOfMemory
            → IsLeastFault kind (view value.now) refused.statement refused.fault) }
        ensures memory { IfErr result (λ refused. refused.fault ≡ Fault.OutOfMemory → refused.statement ≡ None) }
    {
        if let Some(fault) = document_fault(value, kind) {
            return Err(Refused {
                statement: None,
                fault,
            });
        }
        let statements = read_statements(alloc, value, kind)?;
        Ok(Policy {
            version: version_of(value),
            statements,
        })
    }

    /// The version of the policy language that the document is written in.
    pub fn version(&self) -> Version
        ensures { result ≡ self.now.version }
    {
        self.version
    }

    /// The statements, in order, at most 4,096.
    pub fn statements(&self) -> &[Statement]
        ensures value { result.now ≡ self.now.statements }
        ensures few { length result.now ≤ 4096 }
    {
        self.statements.as_slice()
    }
}

impl From<OutOfMemory> for Refused {
    ghost use Rattle.iam_policy.specs.declared.fault.Fault.TheVariants.{OutOfMemory};

    ghost from_gives = { λ _ refused. (refused.statement ≡ None) × (refused.fault ≡ OutOfMemory) };

    fn from(_: OutOfMemory) -> Refused {
        Refused {
            statement: None,
            fault: Fault::OutOfMemory,
        }
    }
}

/// Reads the statements of a document, up to the first that is at fault.
fn read_statements(alloc: Global, document: &Value, kind: Kind) -> Result<Vec<Statement>, Refused>
    requires { length (statements_in (view document.now)) ≤ 4096 }
    ensures clean { IfOk result (λ read. AreFaultless kind (view document.now) (length (statements_in (view document.now)))) }
    ensures read { IfOk result (λ read. AllZip (ReadsStatement (version_of (view document.now))) (statements_in (view document.now)) read.items) }
    ensures len { IfOk result (λ read. vec_len read ≤ 4096) }
    ensures first { IfErr result (λ refused. refused.fault ≢ Fault.OutOfMemory
        → IsFirstRefused kind (view document.now) refused) }
    ensures memory { IfErr result (λ refused. refused.fault ≡ Fault.OutOfMemory → refused.statement ≡ None) }
{
    let version = version_of(document);
    let mut sids = BTreeSet::new(alloc);
    let mut read = Vec::new(alloc);
    for (number, value) in statements_in(document).iter().enumerate() {
        let statement = Members::of(value);
        let repeats = note_sid(&mut sids, &statement)?;
        let bad_value = has_bad_value(alloc, &statement)?;
        let place = StatementPlace {
            kind,
            version,
            repeats,
        };
        if let Some(fault) = statement_fault(&statement, place, bad_value) {
            return Err(Refused {
                statement: Some(number as u32),
                fault,
            });
        }
        add(alloc, &mut read, &statement, version)?;
    }
    Ok(read)
}

/// Reads a statement that has no fault.
fn add(
    alloc: Global,
    read: &mut Vec<Statement>,
    statement: &Members<'_>,
    version: Version,
) -> Result<(), OutOfMemory>
    requires { IsReadable version (view statement.now) }
    ensures items { OnOk result (AddsStatement version (view statement.now) read.old.items read.new.items) }
    ensures len { OnOk result (vec_len read.new ≡ vec_len read.old + 1) }
{
    read.push(Statement::read(alloc, statement, version)?)?;
    Ok(())
}
