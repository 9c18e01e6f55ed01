// A request, as statements see it.
use iam_context::{Context, Requester};

/// Who asks for which action on which resource, in which context.
#[derive(Clone, Copy)]
pub struct Request<'a, 'c> {
    pub requester: &'a Requester,
    /// `prefix:name`, as `s3:GetObject`.
    pub action: &'a str,
    /// An ARN, or `*`.
    pub resource: &'a str,
    /// The keys of the request with their values.
    pub context: &'a Context<'c>,
}

/// Who asks for which resource, in which context: a request without its action.
#[derive(Clone, Copy)]
pub struct Access<'a, 'c> {
    pub requester: &'a Requester,
    /// An ARN, or `*`.
    pub resource: &'a str,
    /// The keys of the request with their values.
    pub context: &'a Context<'c>,
}

impl<'a, 'c> Request<'a, 'c> {
    ghost use Rattle.std.specs.Prelude.{◌≡◌};
    ghost use Rattle.iam_match.specs.Request.{access_of, request_of};
    ghost use Rattle.iam_match.specs.Statement.{access_in};

    /// The request without its action.
    pub fn access(&self) -> Access<'a, 'c>
        ensures { access_of result ≡ access_in (request_of self.now) }
    {
        Access {
            requester: self.requester,
            resource: self.resource,
            context: self.context,
        }
    }
}
