// Whether what a condition asks of the time holds at each moment from one on.
ghost use Rattle.std.specs.Prelude.{◌≡◌, Any, IfSome, codes};
ghost use Rattle.iam_condition.specs.declared.operator.Order.{Order};
ghost use Rattle.iam_context.specs.Context.{ContextValue, is_same_key};
ghost use Rattle.iam_match.specs.Entry.{EntryHolds};
ghost use Rattle.iam_open.specs.Code.Certain.{Tells};
ghost use Rattle.iam_open.specs.Code.Time.{DateTells, IsFrom, IsInTime, IsNoEarlier, OrderTells, time_key};

use crate::certain::Certain;
use crate::known::is_same;
use iam_condition::{Base, Entry, Operand, Order};
use iam_context::Context;
use iam_value::{moment, one_moment};

/// The key of the time, which each context has.
const TIME: &str = "aws:CurrentTime";

/// Whether the entry holds in the contexts that are at no earlier moment than this one: a date that is past stays so.
///
/// AWS IAM User Guide, "Date condition operators".
pub fn time_certain(entry: &Entry, context: &Context<'_>) -> Certain
    ensures { Tells result (IsNoEarlier context.now) (λ other. EntryHolds other entry.now) }
{
    one_moment();
    let operator = entry.operator();
    if operator.is_negated || operator.quantifier.is_some() || !is_time(entry.key()) {
        return Certain::Open;
    }
    match operator.base {
        Base::Date(order) => dates_certain(order, entry.values(), context),
        _ => Certain::Open,
    }
}

/// Whether the key is that of the time.
fn is_time(key: &str) -> bool
    ensures { result ≡ is_same_key time_key key.now }
{
    is_same(TIME, key)
}

/// Whether the time stands in this order to one of the values.
fn dates_certain(order: Order, values: &[Operand], context: &Context<'_>) -> Certain
    ensures { Tells result (IsNoEarlier context.now) (λ other. Any (IsInTime other order) values.now) }
{
    one_moment();
    let Some(now) = time_of(context) else {
        return Certain::Open;
    };
    let mut certain = Certain::Never;
    for value in values {
        certain = certain.or(date_certain(order, value, now));
    }
    certain
}

/// The time of the context, in nanoseconds from 1970 on.
fn time_of(context: &Context<'_>) -> Option<i128>
    ensures { IfSome result (λ now. (other : ContextValue) → IsNoEarlier context.now other → IsFrom now other) }
{
    one_moment();
    match context.values(TIME) {
        [text] => moment(text.as_str()),
        _ => None,
    }
}

/// Whether each instant from this one on stands in this order to a value, or none does.
fn date_certain(order: Order, value: &Operand, now: i128) -> Certain
    ensures { DateTells result order now value.now }
{
    match value {
        Operand::Instant(instant) => order_certain(order, now, *instant.get()),
        _ => Certain::Open,
    }
}

/// Whether it stands so to another instant.
fn order_certain(order: Order, now: i128, instant: i128) -> Certain
    ensures { OrderTells result order now instant }
{
    match order {
        Order::Equal | Order::AtMost if instant < now => Certain::Never,
        Order::Less if instant <= now => Certain::Never,
        Order::Greater if instant < now => Certain::Always,
        Order::AtLeast if instant <= now => Certain::Always,
        _ => Certain::Open,
    }
}
