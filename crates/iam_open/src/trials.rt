// Values that are tried for keys that nothing gives: those at which what policies ask of them turns. Nothing is claimed of them.
use crate::example::LAST_MOMENT;
use crate::known::Known;
use base64::engine::general_purpose::STANDARD;
use iam_condition::{Entry, Operand, Template};
use iam_context::{Context, DerivedKey, Draft, KeyName, Part, Text, Values, resolve};
use iam_decision::Standing;
use iam_glob::{Glob, Sign};
use iam_layers::OutOfMemory;
use iam_match::Statement;
use iam_text::{Form, TemplateForm};
use iam_value::Range;
use std::alloc::Global;
use std::net::{Ipv4Addr, Ipv6Addr};

/// So many keys are tried at most, and so many values of one.
const KEYS: usize = 6;

const VALUES: usize = 24;

/// Addresses of documents (RFC 5737, RFC 3849), which are tried beside the ends of the ranges that are asked for.
const ADDRESSES: [&str; 2] = ["192.0.2.1", "2001:db8::1"];

/// A key that nothing gives, with the texts that are tried for it beside having none.
#[derive(Drop)]
pub struct Trial<'a> {
    pub key: &'a str,
    pub texts: Vec<String>,
}

/// What is tried of the keys that these statements ask for and that are not known, for a request on this resource.
pub fn trials_of<'a: 'c, 'c>(
    alloc: Global,
    statements: &[Standing<'a>],
    resource: &str,
    context: &Context<'c>,
    known: &Known<'_>,
) -> Result<Vec<Trial<'a>>, OutOfMemory> {
    let mut trials = Vec::new(alloc);
    let parts = parts_of(alloc, resource)?;
    for standing in statements {
        if let Some(element) = standing.statement.resource() {
            for text in element.texts() {
                add_variables(alloc, &mut trials, text, parts.as_slice(), known)?;
            }
        }
        for entry in standing.statement.conditions() {
            add_entry(alloc, &mut trials, entry, context, known)?;
        }
    }
    Ok(trials)
}

/// The parts of the text of a resource between its colons and slashes.
fn parts_of(alloc: Global, resource: &str) -> Result<Vec<&str>, OutOfMemory> {
    let mut parts = Vec::new(alloc);
    for part in resource.split(['/', ':'].as_slice()) {
        parts.push(part)?;
    }
    Ok(parts)
}

/// Adds what an entry asks for.
fn add_entry<'a: 'c, 'c>(
    alloc: Global,
    trials: &mut Vec<Trial<'a>>,
    entry: &'a Entry,
    context: &Context<'c>,
    known: &Known<'_>,
) -> Result<(), OutOfMemory> {
    let mut given = Vec::new(alloc);
    for text in context.values(entry.key()) {
        given.push(text.as_str())?;
    }
    for value in entry.values() {
        if let Operand::Text(text) = value {
            add_variables(alloc, trials, text, given.as_slice(), known)?;
        }
    }
    if known.has(entry.key()) {
        return Ok(());
    }
    for value in entry.values() {
        add_value(alloc, trials, entry.key(), value, context)?;
    }
    add_text(alloc, trials, entry.key(), "x")
}

/// Adds the variables of a text that are not known, with texts that they are likely to have to be.
fn add_variables<'a>(
    alloc: Global,
    trials: &mut Vec<Trial<'a>>,
    text: &'a Template,
    likely: &[&str],
    known: &Known<'_>,
) -> Result<(), OutOfMemory> {
    match text.form() {
        TemplateForm::Fixed(_) => Ok(()),
        TemplateForm::Open(draft) => add_forms(alloc, trials, draft, likely, known),
    }
}

fn add_forms<'a>(
    alloc: Global,
    trials: &mut Vec<Trial<'a>>,
    draft: &'a Draft,
    likely: &[&str],
    known: &Known<'_>,
) -> Result<(), OutOfMemory> {
    let mut left = draft.stretches();
    while let Some((_, form, behind)) = left.first_form() {
        if let Form::Named(key, _) = form {
            if !known.has(key) {
                add_likely(alloc, trials, key, likely)?;
            }
        }
        left = behind;
    }
    Ok(())
}

/// Adds these texts, and another one.
fn add_likely<'a>(
    alloc: Global,
    trials: &mut Vec<Trial<'a>>,
    key: &'a str,
    likely: &[&str],
) -> Result<(), OutOfMemory> {
    for &text in likely {
        add_text(alloc, trials, key, text)?;
    }
    add_text(alloc, trials, key, "x")
}

/// Adds texts that stand to the value of a policy as its operator tells them apart.
fn add_value<'a: 'c, 'c>(
    alloc: Global,
    trials: &mut Vec<Trial<'a>>,
    key: &'a str,
    value: &'a Operand,
    context: &Context<'c>,
) -> Result<(), OutOfMemory> {
    match value {
        Operand::Text(text) => {
            if let Some(text) = text_of(alloc, text, context)? {
                add_text(alloc, trials, key, text.as_str())?;
            }
            Ok(())
        }
        Operand::Number(number) => add_numbers(alloc, trials, key, *number),
        Operand::Instant(nanos) => { add_numbers(alloc, trials, key, seconds_of(*nanos.get())) }
        Operand::Truth(_) => {
            add_text(alloc, trials, key, "true")?;
            add_text(alloc, trials, key, "false")
        }
        Operand::Range(range) => add_range(alloc, trials, key, range.get()),
        Operand::Bytes(bytes) => {
            let text = STANDARD.encode(alloc, bytes.as_slice())?;
            add_text(alloc, trials, key, text.as_str())
        }
    }
}

/// Adds the last and the first address of a range, those right beside it, and others.
fn add_range<'a>(
    alloc: Global,
    trials: &mut Vec<Trial<'a>>,
    key: &'a str,
    range: &Range,
) -> Result<(), OutOfMemory> {
    let free = range.width().saturating_sub(range.prefix());
    let rest = 1_u128.checked_shl(free).unwrap_or(0).wrapping_sub(1);
    let first = range.number() & !rest;
    let last = first | rest;
    for number in [last, first, last.saturating_add(1), first.saturating_sub(1)] {
        add_address(alloc, trials, key, range.width(), number)?;
    }
    for address in ADDRESSES {
        add_text(alloc, trials, key, address)?;
    }
    Ok(())
}

/// Adds the address of so many bits that this number makes, if there is one.
fn add_address<'a>(
    alloc: Global,
    trials: &mut Vec<Trial<'a>>,
    key: &'a str,
    width: u32,
    number: u128,
) -> Result<(), OutOfMemory> {
    if width > 32 {
        let text = Ipv6Addr::from_bits(number).to_string(alloc)?;
        return add_text(alloc, trials, key, text.as_str());
    }
    match u32::try_from(number) {
        Ok(bits) => {
            let text = Ipv4Addr::from_bits(bits).to_string(alloc)?;
            add_text(alloc, trials, key, text.as_str())
        }
        Err(_) => Ok(()),
    }
}

/// The whole seconds of an instant, or 0 where they are too many.
fn seconds_of(nanos: i128) -> i64 {
    i64::try_from(nanos / 1_000_000_000).unwrap_or(0)
}

/// Adds a number, and those beside it.
fn add_numbers<'a>(
    alloc: Global,
    trials: &mut Vec<Trial<'a>>,
    key: &'a str,
    number: i64,
) -> Result<(), OutOfMemory> {
    for step in [-1, 0, 1] {
        if let Some(number) = number.checked_add(step) {
            let text = number.to_string(alloc)?;
            add_text(alloc, trials, key, text.as_str())?;
        }
    }
    Ok(())
}

/// A text that the pattern of a policy's value matches, if its variables have values.
fn text_of<'a>(
    alloc: Global,
    text: &'a Template,
    context: &Context<'a>,
) -> Result<Option<String>, OutOfMemory> {
    match text.form() {
        TemplateForm::Fixed(glob) => Ok(Some(matched_by(alloc, glob)?)),
        TemplateForm::Open(draft) => match resolve(alloc, draft, context)? {
            Some(glob) => Ok(Some(matched_by(alloc, &glob)?)),
            None => Ok(None),
        },
    }
}

/// A text that the pattern matches: nothing for `*`, a letter for `?`.
fn matched_by(alloc: Global, glob: &Glob) -> Result<String, OutOfMemory> {
    let mut text = String::new(alloc);
    let signs = glob.signs();
    for i in 0..signs.len() {
        match signs.at(i) {
            Sign::Given(c) => text.push(c)?,
            Sign::One => text.push('x')?,
            Sign::Any => {}
        }
    }
    Ok(text)
}

/// Adds a text to those that are tried for the key, as far as there is room.
fn add_text<'a>(
    alloc: Global,
    trials: &mut Vec<Trial<'a>>,
    key: &'a str,
    text: &str,
) -> Result<(), OutOfMemory> {
    for trial in trials.iter_mut() {
        if trial.key.eq_ignore_ascii_case(key) {
            return trial.add(alloc, text);
        }
    }
    if trials.len() < KEYS {
        let mut trial = Trial {
            key,
            texts: Vec::new(alloc),
        };
        trial.add(alloc, text)?;
        trials.push(trial)?;
    }
    Ok(())
}

impl Trial<'_> {
    /// What is tried as number i: first that the key has no value.
    pub fn text(&self, i: usize) -> Option<&str> {
        if i == 0 || i > self.texts.len() {
            return None;
        }
        Some(self.texts[i - 1].as_str())
    }

    fn add(&mut self, alloc: Global, text: &str) -> Result<(), OutOfMemory> {
        if self.texts.len() < VALUES && !self.texts.iter().any(|it| it.as_str() == text) {
            self.texts.push(String::from_str(alloc, text)?)?;
        }
        Ok(())
    }
}

/// The part that gives these keys these texts, each alone, or says of them that they have none.
pub fn part_of(alloc: Global, chosen: &[(&str, Option<&str>)]) -> Result<Part, OutOfMemory> {
    let mut part = Vec::with_capacity(alloc, chosen.len())?;
    for &(key, text) in chosen {
        part.push(entry_of(alloc, key, text)?)?;
    }
    Ok(part)
}

/// The entry that gives the key this text alone, or says of it that it has none.
pub fn entry_of(
    alloc: Global,
    key: &str,
    text: Option<&str>,
) -> Result<(KeyName, Values), OutOfMemory> {
    let name = KeyName::given(Text::read(alloc, key)?);
    Ok((name, values_of(alloc, text)?))
}

fn values_of(alloc: Global, text: Option<&str>) -> Result<Values, OutOfMemory> {
    match text {
        Some(text) => Ok(Values::one(Text::read(alloc, text)?)),
        None => Ok(Values::from_vec(Vec::new(alloc))),
    }
}

/// Whether the statement asks for the key.
pub fn asks_for(statement: &Statement, key: &str) -> bool {
    if let Some(element) = statement.resource() {
        if some_names(element.texts(), key) {
            return true;
        }
    }
    for entry in statement.conditions() {
        if entry_asks_for(entry, key) {
            return true;
        }
    }
    false
}

/// Whether it asks for the time.
pub fn asks_for_time(statement: &Statement) -> bool {
    asks_for(statement, DerivedKey::CurrentTime.name())
        || asks_for(statement, DerivedKey::EpochTime.name())
}

fn entry_asks_for(entry: &Entry, key: &str) -> bool {
    if entry.key().eq_ignore_ascii_case(key) {
        return true;
    }
    for value in entry.values() {
        if value_names(value, key) {
            return true;
        }
    }
    false
}

fn value_names(value: &Operand, key: &str) -> bool {
    match value {
        Operand::Text(text) => text_names(text, key),
        _ => false,
    }
}

fn some_names(texts: &[Template], key: &str) -> bool {
    for text in texts {
        if text_names(text, key) {
            return true;
        }
    }
    false
}

/// Whether a variable of the text is that of the key.
fn text_names(text: &Template, key: &str) -> bool {
    match text.form() {
        TemplateForm::Fixed(_) => false,
        TemplateForm::Open(draft) => draft_names(draft, key),
    }
}

fn draft_names(draft: &Draft, key: &str) -> bool {
    let mut left = draft.stretches();
    while let Some((_, form, behind)) = left.first_form() {
        if let Form::Named(name, _) = form {
            if name.eq_ignore_ascii_case(key) {
                return true;
            }
        }
        left = behind;
    }
    false
}

/// The moments that are tried: this one, and those behind it at which what these statements ask of the time turns.
pub fn moments_of(
    alloc: Global,
    from: u64,
    statements: &[Standing<'_>],
) -> Result<Vec<u64>, OutOfMemory> {
    let mut moments = Vec::new(alloc);
    moments.push(from)?;
    for standing in statements {
        for entry in standing.statement.conditions() {
            if is_time(entry.key()) {
                add_moments(&mut moments, entry)?;
            }
        }
    }
    Ok(moments)
}

fn is_time(key: &str) -> bool {
    key.eq_ignore_ascii_case(DerivedKey::CurrentTime.name())
        || key.eq_ignore_ascii_case(DerivedKey::EpochTime.name())
}

/// Adds the seconds of the values of an entry, and those beside them.
fn add_moments(moments: &mut Vec<u64>, entry: &Entry) -> Result<(), OutOfMemory> {
    for value in entry.values() {
        let second = match value {
            Operand::Instant(nanos) => seconds_of(*nanos.get()),
            Operand::Number(number) => *number,
            _ => continue,
        };
        for step in [-1, 0, 1] {
            if let Some(second) = second.checked_add(step) {
                add_moment(moments, second)?;
            }
        }
    }
    Ok(())
}

fn add_moment(moments: &mut Vec<u64>, second: i64) -> Result<(), OutOfMemory> {
    let Ok(second) = u64::try_from(second) else {
        return Ok(());
    };
    if moments.len() < VALUES && second <= LAST_MOMENT && !moments.contains(&second) {
        moments.push(second)?;
    }
    Ok(())
}
