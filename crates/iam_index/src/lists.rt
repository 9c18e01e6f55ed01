// Which statements of a world an index lists, by whom their policies are had.
ghost use Rattle.std.specs.Prelude.{◌≡◌, ◌++◌, ◌<◌, IfOk, IfSome, IsTrue, List, length, map, Some};
ghost use Rattle.iam_decision.specs.Code.Scan.{placed_value};
ghost use Rattle.iam_index.specs.Elements.{AreKept};
ghost use Rattle.iam_index.specs.Index.{AreListed, AreLists, AreOrgs, AreResourceLists, HasOrg, HaveOrgs, IsListOf, ListsOrg, ListsRequester, ListsResource};
ghost use Rattle.iam_index.specs.declared.lists.Listed.{Listed};
ghost use Rattle.iam_index.specs.declared.lists.Org.{Org};

use crate::elements::Elements;
use iam_equal::{are_all_equal, print_all, text_print};
use iam_layers::{Standing, World, statements_are_kept};
use iam_text::OutOfMemory;
use std::alloc::Global;
use std::collections::BTreeMap;

/// Statements that may match a request for some action of the world.
#[derive(Drop)]
pub struct Listed<'a> {
    pub statements: Vec<Standing<'a>>,
}

/// The organisation of a principal, which binds all principals of its account: how many levels of policies it has, and such
/// statements of it.
#[derive(Drop)]
pub struct Org<'a> {
    pub principal: u64,
    pub levels: u32,
    pub statements: Vec<Standing<'a>>,
}

/// The organisations of a world's principals, each listed once.
#[derive(Drop)]
pub struct Orgs<'a> {
    pub orgs: Vec<Org<'a>>,
    /// The number of that of each principal.
    pub numbers: Vec<usize>,
}

/// The statements that stand with a world's resources. Lists that are known to be the same are kept once.
#[derive(Drop)]
pub struct ResourceLists<'a> {
    pub lists: Vec<Listed<'a>>,
    /// The number of that of each resource.
    pub numbers: Vec<usize>,
}

impl<'a> ResourceLists<'a> {
    ghost use Rattle.std.specs.List.{slice_get};

    /// The number of the list of resource r.
    #[inline(always)]
    pub fn number(&self, r: u64) -> usize
        requires { r < length self.now.numbers.items }
        ensures { slice_get self.now.numbers.items r ≡ Some result }
    {
        self.numbers[r as usize]
    }

    /// The statements of list n.
    #[inline(always)]
    pub fn statements(&self, n: usize) -> &[Standing<'a>]
        requires { n < length self.now.lists.items }
        ensures { (listed : Listed) → slice_get self.now.lists.items n ≡ Some listed → result.now ≡ listed.statements.items }
    {
        self.lists[n].statements.as_slice()
    }
}

/// Those of the statements whose action element matches some action of the world.
fn concerned<'a>(
    alloc: Global,
    world: &World,
    elements: &mut Elements<'a>,
    statements: &[Standing<'a>],
) -> Result<Vec<Standing<'a>>, OutOfMemory>
    requires { AreKept world.now elements.old }
    ensures right { AreKept world.now elements.new }
    ensures listed { IfOk result (λ listed. AreListed world.now (map placed_value statements.now) listed.items) }
{
    let mut listed = Vec::new(alloc);
    for &standing in statements {
        if elements.concerns(alloc, world, standing.statement.action()) {
            listed.push(standing)?;
        }
    }
    Ok(listed)
}

/// The statements of the organisation of principal p.
fn org_list<'a>(
    alloc: Global,
    world: &'a World,
    elements: &mut Elements<'a>,
    p: u64,
) -> Result<Vec<Standing<'a>>, OutOfMemory>
    requires principal { p < length world.now.principals }
    requires right { AreKept world.now elements.old }
    ensures right { AreKept world.entry.now elements.new }
    ensures listed { IfOk result (λ listed. ListsOrg world.entry.now p listed.items) }
{
    let mut statements = Vec::new(alloc);
    if world.resources() == 0 {
        return Ok(statements);
    }
    statements_are_kept();
    world.applicable(p, 0).add_org(&mut statements)?;
    concerned(alloc, world, elements, statements.as_slice())
}

/// The statements of principal p.
fn requester_list<'a>(
    alloc: Global,
    world: &'a World,
    elements: &mut Elements<'a>,
    p: u64,
) -> Result<Vec<Standing<'a>>, OutOfMemory>
    requires principal { p < length world.now.principals }
    requires right { AreKept world.now elements.old }
    ensures right { AreKept world.entry.now elements.new }
    ensures listed { IfOk result (λ listed. ListsRequester world.entry.now p listed.items) }
{
    let mut statements = Vec::new(alloc);
    if world.resources() == 0 {
        return Ok(statements);
    }
    statements_are_kept();
    world.applicable(p, 0).add_requester(&mut statements)?;
    concerned(alloc, world, elements, statements.as_slice())
}

/// The statements that stand with resource r.
fn resource_list<'a>(
    alloc: Global,
    world: &'a World,
    elements: &mut Elements<'a>,
    r: u64,
) -> Result<Vec<Standing<'a>>, OutOfMemory>
    requires resource { r < length world.now.resources }
    requires right { AreKept world.now elements.old }
    ensures right { AreKept world.entry.now elements.new }
    ensures listed { IfOk result (λ listed. ListsResource world.entry.now r listed.items) }
{
    let mut statements = Vec::new(alloc);
    if world.principals() == 0 {
        return Ok(statements);
    }
    statements_are_kept();
    world.applicable(0, r).add_resource(&mut statements)?;
    concerned(alloc, world, elements, statements.as_slice())
}

/// The lists of all principals.
pub fn requester_lists<'a>(
    alloc: Global,
    world: &'a World,
    elements: &mut Elements<'a>,
) -> Result<Vec<Listed<'a>>, OutOfMemory>
    requires { AreKept world.now elements.old }
    ensures right { AreKept world.entry.now elements.new }
    ensures count { IfOk result (λ lists. length lists.items ≡ length world.entry.now.principals) }
    ensures lists { IfOk result (λ lists. AreLists (ListsRequester world.entry.now) lists.items) }
{
    let mut lists = Vec::with_capacity(alloc, world.principals() as usize)?;
    for p in 0..world.principals() {
        let statements = requester_list(alloc, world, elements, p)?;
        lists.push(Listed { statements })?;
    }
    Ok(lists)
}

/// `true` only where there is a list of the number, with the same statements at the same places.
fn is_same_list(lists: &[Listed<'_>], number: usize, statements: &[Standing<'_>]) -> bool
    ensures { IsTrue result → IsListOf lists.now number (map placed_value statements.now) }
{
    number < lists.len() && are_all_equal(lists[number].statements.as_slice(), statements)
}

/// The number of a list with these statements, which are put behind the others where they are not found.
fn list_number<'a>(
    lists: &mut Vec<Listed<'a>>,
    prints: &mut BTreeMap<u64, usize>,
    statements: Vec<Standing<'a>>,
) -> Result<usize, OutOfMemory>
    ensures more { IfOk result (λ _. (more : List Listed) × (lists.new.items ≡ lists.old.items ++ more)) }
    ensures number { IfOk result (λ number. IsListOf lists.new.items number (map placed_value statements.entry.items)) }
{
    let print = print_all(statements.as_slice());
    let next = lists.len();
    let known = *prints.get(&print).unwrap_or(&next);
    if is_same_list(lists.as_slice(), known, statements.as_slice()) {
        return Ok(known);
    }
    lists.push(Listed { statements })?;
    prints.insert(print, next)?;
    Ok(next)
}

/// The lists of all resources, each put behind those before it where it is not found among them.
pub fn resource_lists<'a>(
    alloc: Global,
    world: &'a World,
    elements: &mut Elements<'a>,
) -> Result<ResourceLists<'a>, OutOfMemory>
    requires { AreKept world.now elements.old }
    ensures right { AreKept world.entry.now elements.new }
    ensures count { IfOk result (λ found. length found.numbers.items ≡ length world.entry.now.resources) }
    ensures lists { IfOk result (λ found. AreResourceLists world.entry.now found.lists.items found.numbers.items) }
{
    let mut lists = Vec::new(alloc);
    // By the print of a list its number.
    let mut prints = BTreeMap::new(alloc);
    let mut numbers = Vec::with_capacity(alloc, world.resources() as usize)?;
    for r in 0..world.resources() {
        let statements = resource_list(alloc, world, elements, r)?;
        let number = list_number(&mut lists, &mut prints, statements)?;
        numbers.push(number)?;
    }
    Ok(ResourceLists { lists, numbers })
}

/// The number of the organisation of principal p among these, where it is that of the principal that its account has there.
fn known_org(
    world: &World,
    orgs: &[Org<'_>],
    accounts: &BTreeMap<u64, usize>,
    p: u64,
) -> Option<usize>
    requires principal { p < length world.now.principals }
    requires orgs { AreOrgs world.now orgs.now }
    ensures { IfSome result (HasOrg world.now orgs.now p) }
{
    let number = *accounts.get(&text_print(world.requester(p).account()))?;
    if number < orgs.len() {
        let other = orgs[number].principal;
        if other < world.principals() && world.has_same_org(p, other) {
            return Some(number);
        }
    }
    None
}

/// The number of the organisation of principal p, which is put behind these where it is not found.
fn org_number<'a>(
    alloc: Global,
    world: &'a World,
    elements: &mut Elements<'a>,
    orgs: &mut Vec<Org<'a>>,
    accounts: &mut BTreeMap<u64, usize>,
    p: u64,
) -> Result<usize, OutOfMemory>
    requires principal { p < length world.now.principals }
    requires right { AreKept world.now elements.old }
    requires orgs { AreOrgs world.now orgs.old.items }
    ensures right { AreKept world.entry.now elements.new }
    ensures orgs { IfOk result (λ _. AreOrgs world.entry.now orgs.new.items) }
    ensures more { IfOk result (λ _. (more : List Org) × (orgs.new.items ≡ orgs.old.items ++ more)) }
    ensures number { IfOk result (HasOrg world.entry.now orgs.new.items p) }
{
    if let Some(number) = known_org(world, orgs.as_slice(), accounts, p) {
        return Ok(number);
    }
    let statements = org_list(alloc, world, elements, p)?;
    let number = orgs.len();
    orgs.push(Org {
        principal: p,
        levels: world.org_levels(p),
        statements,
    })?;
    accounts.insert(text_print(world.requester(p).account()), number)?;
    Ok(number)
}

/// The organisations of all principals.
pub fn org_lists<'a>(
    alloc: Global,
    world: &'a World,
    elements: &mut Elements<'a>,
) -> Result<Orgs<'a>, OutOfMemory>
    requires { AreKept world.now elements.old }
    ensures right { AreKept world.entry.now elements.new }
    ensures count { IfOk result (λ found. length found.numbers.items ≡ length world.entry.now.principals) }
    ensures orgs { IfOk result (λ found. HaveOrgs world.entry.now found.orgs.items found.numbers.items) }
{
    let mut orgs = Vec::new(alloc);
    // By the print of an account the number of its organisation.
    let mut accounts = BTreeMap::new(alloc);
    let mut numbers = Vec::with_capacity(alloc, world.principals() as usize)?;
    for p in 0..world.principals() {
        let number = org_number(alloc, world, elements, &mut orgs, &mut accounts, p)?;
        numbers.push(number)?;
    }
    Ok(Orgs { orgs, numbers })
}
