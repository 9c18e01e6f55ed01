// The policies of a world, read layer by layer.
ghost use Rattle.std.specs.Prelude.{◌≡◌, ◌≢◌, [], ◌∷◌, ℕ, List, map, option_map, IfOk, IfErr, OnOk};
ghost use Rattle.std.specs.List.{AllZip};
ghost use Rattle.std.specs.Option.{option_to_list};
ghost use Rattle.serde_json.specs.View.{view};
ghost use Rattle.iam_policy.specs.Reading.{Reads};
ghost use Rattle.iam_policy.specs.declared.fault.Kind.TheVariants as kind;
ghost use Rattle.iam_shape.specs.Lent.{account_of, policies_by_level, policies_in, principal_of, resource_of};
ghost use Rattle.iam_shape.specs.LentWorld.{world_of};
ghost use Rattle.iam_shape.specs.Shape.{each};
ghost use Rattle.iam_world.specs.declared.documents.Location.TheVariants as place;
ghost use Rattle.iam_world.specs.Code.Documents.{HasPolicies, IsCleared, IsRefusedAmong, document_at, path_at};
ghost use Rattle.iam_world.specs.Reads.{ReadsOptional};
ghost use Rattle.iam_world.specs.WorldFault.{Document, boundary_documents, control_documents, documents, identity_documents, level_documents, numbered, org_documents, resource_documents, session_documents};
ghost use Rattle.iam_world.specs.declared.fault.WorldFault.TheVariants as w;

use crate::fault::WorldFault;
use crate::limits::Budget;
use iam_policy::{Fault, Kind, Policy};
use iam_shape::{
    AccountView, Levels, Name, Path, PrincipalView, ResourceView, WorldView, policies_in,
};
use iam_text::Items;
use serde_json::Value;
use std::alloc::Global;

/// How the policy documents of a member of a list are read.
trait Reader<T> {
    type Read: Drop;

    ghost documents: { Self → ℕ → T → List Document };

    ghost reads: { Self → T → Self.Read → Type 0 };

    /// Reads the documents of the member with this number, or names the first that is refused; their statements
    /// count.
    fn read(
        &self,
        alloc: Global,
        budget: &mut Budget,
        i: usize,
        of: &T,
    ) -> Result<Self::Read, WorldFault>
        ensures ok { IfOk result (reads self.now of.now) }
        ensures cleared { OnOk result (IsCleared (documents self.now i of.now) budget.old budget.new) }
        ensures fault { IfErr result (λ fault. fault ≢ w.OutOfMemory → IsRefusedAmong (documents self.now i of.now) fault) };
}

/// Reads the documents of each member of a list.
fn read_each<T, L: Reader<T>>(
    layer: &L,
    alloc: Global,
    budget: &mut Budget,
    list: &[T],
) -> Result<Vec<L::Read>, WorldFault>
    ensures ok { IfOk result (λ read. AllZip (L.reads layer.now) list.now read.items) }
    ensures cleared { OnOk result (IsCleared (each (L.documents layer.now) 0 list.now) budget.old budget.new) }
    ensures fault { IfErr result (λ fault. fault ≢ w.OutOfMemory
        → IsRefusedAmong (each (L.documents layer.now) 0 list.now) fault) }
{
    let mut read = Vec::new(alloc);
    for (i, of) in list.iter().enumerate() {
        read.push(layer.read(alloc, budget, i, of)?)?;
    }
    Ok(read)
}

/// Where the documents of one list stand.
#[derive(Clone, Copy)]
enum Location {
    /// In a list of a member of a list, as `principals/0/identity`.
    Entries(Name, usize, Name),
    /// In a level of a member of a list, as `accounts/0/org/1`.
    Level(Name, usize, Name, usize),
    /// Alone under a name, as `principals/0/boundary`.
    Alone(Name, usize, Name),
}

impl Location {
    /// The path of the document with this number.
    fn path(self, i: usize) -> Path
        ensures { result ≡ path_at self i }
    {
        match self {
            Location::Entries(list, of, name) => Path::Entry(list, of, name, i),
            Location::Level(list, of, name, level) => Path::Leaf(list, of, name, level, i),
            Location::Alone(list, of, name) => Path::Field(list, of, name),
        }
    }
}

/// The documents of one list, all of one kind.
#[derive(Clone, Copy)]
struct Documents {
    kind: Kind,
    place: Location,
}

impl Reader<Value> for Documents {
    type Read = Policy;

    ghost documents = { λ self i value. document_at self i (view value) ∷ [] };

    ghost reads = { λ self value policy. Reads self.kind (view value) policy };

    fn read(
        &self,
        alloc: Global,
        budget: &mut Budget,
        i: usize,
        document: &Value,
    ) -> Result<Policy, WorldFault> {
        match Policy::read(alloc, document, self.kind) {
            Ok(policy) => {
                budget.count(policy.statements().len());
                Ok(policy)
            }
            Err(refused) if refused.fault == Fault::OutOfMemory => Err(WorldFault::OutOfMemory),
            Err(refused) => Err(WorldFault::Policy(self.place.path(i), refused)),
        }
    }
}

/// The policies of a list of documents.
fn read_policies(
    alloc: Global,
    budget: &mut Budget,
    kind: Kind,
    place: Location,
    documents: &[Value],
) -> Result<Vec<Policy>, WorldFault>
    ensures ok { IfOk result (λ policies. AllZip (Reads kind) (map view documents.now) policies.items) }
    ensures cleared { OnOk result (IsCleared (numbered kind (path_at place) 0 (map view documents.now)) budget.old budget.new) }
    ensures fault { IfErr result (λ fault. fault ≢ w.OutOfMemory
        → IsRefusedAmong (numbered kind (path_at place) 0 (map view documents.now)) fault) }
{
    read_each(&Documents { kind, place }, alloc, budget, documents)
}

/// The policy of a document that may be absent.
fn read_optional(
    alloc: Global,
    budget: &mut Budget,
    kind: Kind,
    place: Location,
    document: Option<&Value>,
) -> Result<Option<Policy>, WorldFault>
    ensures ok { IfOk result (λ policy. ReadsOptional kind (option_map (λ d. view d.now) document.entry) policy) }
    ensures cleared { OnOk result (IsCleared
        (numbered kind (path_at place) 0 (option_to_list (option_map (λ d. view d.now) document.entry))) budget.old budget.new) }
    ensures fault { IfErr result (λ fault. fault ≢ w.OutOfMemory → IsRefusedAmong
        (numbered kind (path_at place) 0 (option_to_list (option_map (λ d. view d.now) document.entry))) fault) }
{
    match document {
        Some(document) => Ok(Some(Documents { kind, place }.read(alloc, budget, 0, document)?)),
        None => Ok(None),
    }
}

/// The documents of levels, all of one kind: where the levels stand.
#[derive(Clone, Copy)]
struct LevelDocuments {
    kind: Kind,
    list: Name,
    of: usize,
    name: Name,
}

impl Reader<Value> for LevelDocuments {
    type Read = Vec<Policy>;

    ghost documents = { λ self i level. numbered self.kind (path_at (place.Level self.list self.of self.name i)) 0 (policies_in (view level)) };

    ghost reads = { λ self level policies. AllZip (Reads self.kind) (policies_in (view level)) policies.items };

    fn read(
        &self,
        alloc: Global,
        budget: &mut Budget,
        i: usize,
        level: &Value,
    ) -> Result<Vec<Policy>, WorldFault> {
        let place = Location::Level(self.list, self.of, self.name, i);
        read_policies(alloc, budget, self.kind, place, policies_in(level))
    }
}

/// The policies of levels, level by level.
fn read_levels(
    at: LevelDocuments,
    alloc: Global,
    budget: &mut Budget,
    levels: Levels<'_>,
) -> Result<Vec<Vec<Policy>>, WorldFault>
    ensures ok { IfOk result (λ policies. AllZip (AllZip (Reads at.kind)) (policies_by_level levels.entry)
        (map (λ level. level.items) policies.items)) }
    ensures cleared { OnOk result
        (IsCleared (level_documents at.kind at.list at.of at.name (policies_by_level levels.entry)) budget.old budget.new) }
    ensures fault { IfErr result (λ fault. fault ≢ w.OutOfMemory
        → IsRefusedAmong (level_documents at.kind at.list at.of at.name (policies_by_level levels.entry)) fault) }
{
    read_each(&at, alloc, budget, levels.values)
}

/// The layer of organisation policies.
#[derive(Clone, Copy)]
struct OrgPolicies;

impl<'v> Reader<AccountView<'v>> for OrgPolicies {
    type Read = Vec<Vec<Policy>>;

    ghost documents = { λ self i account. org_documents i (account_of account) };

    ghost reads = { λ self account levels. AllZip (AllZip (Reads kind.Org)) (account_of account).org (map (λ level. level.items) levels.items) };

    fn read(
        &self,
        alloc: Global,
        budget: &mut Budget,
        i: usize,
        account: &AccountView<'v>,
    ) -> Result<Vec<Vec<Policy>>, WorldFault> {
        let at = LevelDocuments {
            kind: Kind::Org,
            list: Name::Accounts,
            of: i,
            name: Name::Org,
        };
        read_levels(at, alloc, budget, account.org)
    }
}

/// The layer of resource control policies.
#[derive(Clone, Copy)]
struct ControlPolicies;

impl<'v> Reader<ResourceView<'v>> for ControlPolicies {
    type Read = Vec<Vec<Policy>>;

    ghost documents = { λ self i resource. control_documents i (resource_of resource) };

    ghost reads = { λ self resource levels. AllZip (AllZip (Reads kind.Control)) (resource_of resource).control (map (λ level. level.items) levels.items) };

    fn read(
        &self,
        alloc: Global,
        budget: &mut Budget,
        i: usize,
        resource: &ResourceView<'v>,
    ) -> Result<Vec<Vec<Policy>>, WorldFault> {
        let at = LevelDocuments {
            kind: Kind::Control,
            list: Name::Resources,
            of: i,
            name: Name::Control,
        };
        read_levels(at, alloc, budget, resource.control)
    }
}

/// The layer of resource policies.
#[derive(Clone, Copy)]
struct ResourcePolicies;

impl<'v> Reader<ResourceView<'v>> for ResourcePolicies {
    type Read = Option<Policy>;

    ghost documents = { λ self i resource. resource_documents i (resource_of resource) };

    ghost reads = { λ self resource policy. ReadsOptional kind.Resource (resource_of resource).policy policy };

    fn read(
        &self,
        alloc: Global,
        budget: &mut Budget,
        i: usize,
        resource: &ResourceView<'v>,
    ) -> Result<Option<Policy>, WorldFault> {
        let place = Location::Alone(Name::Resources, i, Name::Policy);
        read_optional(alloc, budget, Kind::Resource, place, resource.policy)
    }
}

/// The layer of identity policies.
#[derive(Clone, Copy)]
struct IdentityPolicies;

impl<'v> Reader<PrincipalView<'v>> for IdentityPolicies {
    type Read = Items<Policy>;

    ghost documents = { λ self i principal. identity_documents i (principal_of principal) };

    ghost reads = { λ self principal policies. AllZip (Reads kind.Identity) (principal_of principal).identity policies };

    fn read(
        &self,
        alloc: Global,
        budget: &mut Budget,
        i: usize,
        principal: &PrincipalView<'v>,
    ) -> Result<Items<Policy>, WorldFault> {
        let place = Location::Entries(Name::Principals, i, Name::Identity);
        let policies = read_policies(alloc, budget, Kind::Identity, place, principal.identity)?;
        Ok(Items::from_vec(policies))
    }
}

/// The layer of boundaries.
#[derive(Clone, Copy)]
struct Boundaries;

impl<'v> Reader<PrincipalView<'v>> for Boundaries {
    type Read = Option<Policy>;

    ghost documents = { λ self i principal. boundary_documents i (principal_of principal) };

    ghost reads = { λ self principal policy. ReadsOptional kind.Identity (principal_of principal).boundary policy };

    fn read(
        &self,
        alloc: Global,
        budget: &mut Budget,
        i: usize,
        principal: &PrincipalView<'v>,
    ) -> Result<Option<Policy>, WorldFault> {
        let place = Location::Alone(Name::Principals, i, Name::Boundary);
        read_optional(alloc, budget, Kind::Identity, place, principal.boundary)
    }
}

/// The layer of session policies.
#[derive(Clone, Copy)]
struct SessionPolicies;

impl<'v> Reader<PrincipalView<'v>> for SessionPolicies {
    type Read = Items<Policy>;

    ghost documents = { λ self i principal. session_documents i (principal_of principal) };

    ghost reads = { λ self principal policies. AllZip (Reads kind.Identity) (principal_of principal).session_policies policies };

    fn read(
        &self,
        alloc: Global,
        budget: &mut Budget,
        i: usize,
        principal: &PrincipalView<'v>,
    ) -> Result<Items<Policy>, WorldFault> {
        let place = Location::Entries(Name::Principals, i, Name::SessionPolicies);
        let documents = principal.session_policies;
        let policies = read_policies(alloc, budget, Kind::Identity, place, documents)?;
        Ok(Items::from_vec(policies))
    }
}

/// The policies of a world, layer by layer: of each account, each resource or each principal.
#[derive(Drop)]
pub struct Policies {
    pub org: Vec<Vec<Vec<Policy>>>,
    pub control: Vec<Vec<Vec<Policy>>>,
    pub resource: Vec<Option<Policy>>,
    pub identity: Vec<Items<Policy>>,
    pub boundary: Vec<Option<Policy>>,
    pub session: Vec<Items<Policy>>,
}

/// The policies of a world, with the count of their statements in the budget, or the first fault of their documents.
pub fn read_documents(
    alloc: Global,
    world: &WorldView<'_>,
    budget: &mut Budget,
) -> Result<Policies, WorldFault>
    ensures ok { IfOk result (HasPolicies world.now) }
    ensures cleared { OnOk result (IsCleared (documents (world_of world.now)) budget.old budget.new) }
    ensures fault { IfErr result (λ fault. fault ≢ w.OutOfMemory
        → IsRefusedAmong (documents (world_of world.now)) fault) }
{
    let accounts = world.accounts.views.as_slice();
    let resources = world.resources.as_slice();
    let principals = world.principals.as_slice();
    Ok(Policies {
        org: read_each(&OrgPolicies, alloc, budget, accounts)?,
        control: read_each(&ControlPolicies, alloc, budget, resources)?,
        resource: read_each(&ResourcePolicies, alloc, budget, resources)?,
        identity: read_each(&IdentityPolicies, alloc, budget, principals)?,
        boundary: read_each(&Boundaries, alloc, budget, principals)?,
        session: read_each(&SessionPolicies, alloc, budget, principals)?,
    })
}
