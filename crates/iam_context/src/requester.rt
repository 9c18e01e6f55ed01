// Who asks: a user, or a session of a role.
use crate::arn::{Parts, is_segment, last_segment, parts_behind, session_arn};
use iam_text::OutOfMemory;
use std::alloc::Global;
use std::marker::Model;

/// Who asks: a user, or a session of a role.
#[derive(Debug, Drop)]
pub struct Requester {
    partition: String,
    account: String,
    path: String,
    arn: String,
    session: Option<Session>,
}

/// A session of a role, with the ARN that is made for it.
#[derive(Debug, Drop)]
struct Session {
    name: String,
    arn: String,
}

impl Model for Requester {
    ghost use Rattle.std.specs.Prelude.{string_bytes};
    ghost use Rattle.iam_context.specs.Requester.{RequesterValue};
    ghost use Rattle.iam_context.specs.Code.Session.{IsHeld, session_name};

    ghost Value = { RequesterValue };

    ghost view = { λ r. record {
      partition = string_bytes r.partition;
      account = string_bytes r.account;
      path = string_bytes r.path;
      session = session_name r.session;
    } };

    ghost invariant = { λ r. IsHeld (string_bytes r.arn) r.session (record {
      partition = string_bytes r.partition;
      account = string_bytes r.account;
      path = string_bytes r.path;
      session = session_name r.session;
    }) };
}

impl Requester {
    ghost use Rattle.std.specs.Prelude.{◌≡◌, MatchOption, IfOk, IfSome, OnErr, Some, None, option_map, string_bytes};
    ghost use Rattle.iam_context.specs.Requester.{RequesterValue, IsRequesterOf, requester_arn, requester_name, session_arn, username_of};
    ghost use Rattle.iam_context.specs.Code.ArnParts.{requester_of};
    ghost use Rattle.iam_context.specs.Code.Session.{session_name};

    /// The one user with this ARN, `arn:PARTITION:iam::ACCOUNT:user/PATH`; `None` for any other text.
    ///
    /// AWS IAM User Guide, "IAM identifiers".
    pub fn user(alloc: Global, arn: &str) -> Result<Option<Requester>, OutOfMemory>
        ensures value { IfOk result (λ found. MatchOption found
            ((r : RequesterValue) → ¬ IsRequesterOf arn.now None r) (IsRequesterOf arn.now None)) }
        ensures only { IfOk result (λ found. IfSome found (λ r.
            (other : RequesterValue) → IsRequesterOf arn.now None other → other ≡ r)) }
        ensures memory { OnErr result ((r : RequesterValue) × IsRequesterOf arn.now None r) }
    {
        match parts_behind(arn, "user/") {
            Some(parts) => Ok(Some(Requester::of(alloc, arn, parts, None)?)),
            None => Ok(None),
        }
    }

    /// The one session of this name of the role with this ARN, `arn:PARTITION:iam::ACCOUNT:role/PATH`; `None`
    /// where the first text is no such ARN, or the second is not one or more visible ASCII characters other than
    /// `*`, `?` and `/`.
    ///
    /// AWS IAM User Guide, "IAM identifiers".
    pub fn role(alloc: Global, arn: &str, session: &str) -> Result<Option<Requester>, OutOfMemory>
        ensures value { IfOk result (λ found. MatchOption found
            ((r : RequesterValue) → ¬ IsRequesterOf arn.now (Some session.now) r) (IsRequesterOf arn.now (Some session.now))) }
        ensures only { IfOk result (λ found. IfSome found (λ r.
            (other : RequesterValue) → IsRequesterOf arn.now (Some session.now) other → other ≡ r)) }
        ensures memory { OnErr result ((r : RequesterValue) × IsRequesterOf arn.now (Some session.now) r) }
    {
        if !is_segment(session) {
            return Ok(None);
        }
        match parts_behind(arn, "role/") {
            Some(parts) => {
                let session = Session {
                    name: String::from_str(alloc, session)?,
                    arn: session_arn(alloc, parts, session)?,
                };
                Ok(Some(Requester::of(alloc, arn, parts, Some(session))?))
            }
            None => Ok(None),
        }
    }

    /// The requester of these parts of its ARN.
    fn of(
        alloc: Global,
        arn: &str,
        parts: Parts<'_>,
        session: Option<Session>,
    ) -> Result<Requester, OutOfMemory>
        requires requester { IsRequesterOf arn.now (session_name session) (requester_of parts (session_name session)) }
        requires session { IfSome session (λ s. string_bytes s.arn ≡ session_arn (requester_of parts None) (string_bytes s.name)) }
        ensures { IfOk result (λ r. r ≡ requester_of parts.entry (session_name session)) }
    {
        Ok(Requester {
            partition: String::from_str(alloc, parts.partition)?,
            account: String::from_str(alloc, parts.account)?,
            path: String::from_str(alloc, parts.path)?,
            arn: String::from_str(alloc, arn)?,
            session,
        })
    }

    /// The partition of the requester's account, as `aws`.
    pub fn partition(&self) -> &str
        ensures { result.now ≡ self.now.partition }
    {
        self.partition.as_str()
    }

    /// The twelve digits of the requester's account.
    pub fn account(&self) -> &str
        ensures { result.now ≡ self.now.account }
    {
        self.account.as_str()
    }

    /// The ARN of the user, or of the role that the session is of: the value of `aws:PrincipalArn`.
    pub fn arn(&self) -> &str
        ensures { result.now ≡ requester_arn self.now }
    {
        self.arn.as_str()
    }

    /// The ARN of the user or of the session, which stands for the requester in a report.
    pub fn name(&self) -> &str
        ensures { result.now ≡ requester_name self.now }
    {
        match &self.session {
            Some(session) => session.arn.as_str(),
            None => self.arn.as_str(),
        }
    }

    /// The last segment of the user's path; `None` for a session.
    pub fn username(&self) -> Option<&str>
        ensures { option_map (λ name. name.now) result ≡ username_of self.now }
    {
        match self.session {
            Some(_) => None,
            None => Some(last_segment(self.path.as_str())),
        }
    }
}
