// Numbers that tell statements, and parts of them, apart. Nothing is claimed of any.
use iam_condition::{Entry, Operand};
use iam_element::{Actions, Principals};
use iam_policy::{Effect, Statement};

/// A number that tells most statements apart.
pub fn print(statement: &Statement) -> u64 {
    let mut print = action_print(statement.action());
    if let Effect::Deny = statement.effect() {
        print = with(print, 1);
    }
    if let Some(sid) = statement.sid() {
        print = with(print, text_print(sid));
    }
    if let Some(resource) = statement.resource() {
        print = with(print, resource.print());
    }
    if let Some(principal) = statement.principal() {
        print = with_names(print, principal);
    }
    for entry in statement.conditions() {
        print = with_entry(print, entry);
    }
    print
}

/// A number that tells most action elements apart.
pub fn action_print(action: &Actions) -> u64 {
    let mut print: u64 = if action.is_negated() { 1 } else { 0 };
    for pattern in action.patterns() {
        print = pattern.print(print);
    }
    print
}

/// A number that tells most texts apart.
pub fn text_print(text: &str) -> u64 {
    let mut print: u64 = 0;
    for byte in text.as_bytes() {
        print = print.wrapping_mul(31).wrapping_add(u64::from(*byte));
    }
    print
}

/// The number of what has this one, with the names of a principal element behind it.
fn with_names(print: u64, principal: &Principals) -> u64 {
    let mut print = print;
    for name in principal.names() {
        print = with(print, text_print(name.text()));
    }
    print
}

/// The number of what has this one, with the key of an entry behind it, and those of its values that are texts.
fn with_entry(print: u64, entry: &Entry) -> u64 {
    let mut print = with(print, text_print(entry.key()));
    for value in entry.values() {
        if let Operand::Text(text) = value {
            print = text.print(print);
        }
    }
    print
}

/// The number of what has this one, with something behind it that has the other.
fn with(print: u64, other: u64) -> u64 {
    (print ^ other)
        .wrapping_mul(0x9e37_79b9_7f4a_7c15)
        .rotate_left(23)
}
