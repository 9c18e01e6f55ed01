// Whether the addresses of a network are held by ranges.
ghost use Rattle.std.specs.Prelude.{◌≡◌, ◌≤◌, ◌/◌, ◌^◌, Any, IsTrue};
ghost use Rattle.iam_open_changes.specs.Code.Implied.{AreHeld, HoldsAll, HoldsNetwork, IsNetworkOf};

use iam_condition::Operand;
use iam_value::Range;

/// The addresses of a family of so many bits that begin with the same bits, and the number that these bits make.
#[derive(Clone, Copy)]
pub struct Network {
    pub width: u32,
    pub prefix: u32,
    pub front: u128,
}

/// The addresses that a range holds.
pub fn network_of(range: &Range) -> Network
    ensures { IsNetworkOf range.now result }
{
    Network {
        width: range.width(),
        prefix: range.prefix(),
        front: front(range.number(), range.width().saturating_sub(range.prefix())),
    }
}

/// `true` only where each address of the network is held by a range among these values: by one of them, or each half by some.
pub fn are_held(network: Network, values: &[Operand]) -> bool
    ensures { IsTrue result → AreHeld network values.now }
{
    if network.prefix > network.width {
        return false;
    }
    if is_held_by_one(network, values) {
        return true;
    }
    if network.prefix == network.width || !is_split(network, values) {
        return false;
    }
    let Some(twice) = network.front.checked_mul(2) else {
        return false;
    };
    let (width, prefix) = (network.width, network.prefix + 1);
    let lower = Network {
        width,
        prefix,
        front: twice,
    };
    let upper = Network {
        width,
        prefix,
        front: twice + 1,
    };
    are_held(lower, values) && are_held(upper, values)
}

/// `true` only where a range among the values holds all of them.
fn is_held_by_one(network: Network, values: &[Operand]) -> bool
    requires { network.prefix ≤ network.width }
    ensures { IsTrue result → Any (HoldsNetwork network) values.now }
{
    for value in values {
        if is_held_by(network, value) {
            return true;
        }
    }
    false
}

fn is_held_by(network: Network, value: &Operand) -> bool
    requires { network.prefix ≤ network.width }
    ensures { IsTrue result → HoldsNetwork network value.now }
{
    match value {
        Operand::Range(range) => holds_all(range.get(), network),
        _ => false,
    }
}

/// `true` only where the range holds each address of the network.
fn holds_all(range: &Range, network: Network) -> bool
    requires { network.prefix ≤ network.width }
    ensures { IsTrue result → HoldsAll range.now network }
{
    if range.width() != network.width || range.prefix() > network.prefix {
        return false;
    }
    let apart = network.width.saturating_sub(range.prefix());
    front(range.number(), apart) == front(network.front, network.prefix - range.prefix())
}

/// Whether a range among the values is a part of the network. Nothing is claimed of it.
fn is_split(network: Network, values: &[Operand]) -> bool {
    for value in values {
        if let Operand::Range(range) = value {
            if is_part(range.get(), network) {
                return true;
            }
        }
    }
    false
}

fn is_part(range: &Range, network: Network) -> bool {
    range.width() == network.width
        && range.prefix() > network.prefix
        && front(range.number(), network.width.saturating_sub(network.prefix)) == network.front
}

/// The number without so many of its last bits.
fn front(number: u128, apart: u32) -> u128
    ensures { result ≡ number / 2 ^ apart }
{
    if apart >= 128 {
        return 0;
    }
    number >> apart
}
