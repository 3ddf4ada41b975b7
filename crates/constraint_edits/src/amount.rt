//! The value of a field of constraints, and values between two.

ghost use Rattle.std.specs.Prelude.{◌≡◌, Some, IfOk, IfSome};

use crate::applying::asks_more;
use crate::change::Change;
use crate::edits::{Edit, EditedConstraints, EditedRecord};
use crate::halving::others_beside;
use crate::objects::{ENTRIES, MEMORY, entries_of, exact_value, put_values, with};
use explanation_text::{Deed, Fact, ListBuilder, Said, TextBuilder};
use serde_json::Value;
use std::alloc::{AllocError, Global};
use std::fmt;
use sysmem_counts::Field;

/// The value of a field: a number, or a width and a height.
#[derive(Clone, Copy, PartialEq, Eq)]
pub enum Amount {
    Number(u64),
    Sides(u64, u64),
}

/// The middle between a value that does and a greater one that doesn't, above the first; `None`
/// where there is none between.
fn between(good: u64, bad: u64) -> Option<u64> {
    let gap = bad.saturating_sub(good);
    if gap < 2 {
        return None;
    }
    Some(good.saturating_add(gap / 2))
}

/// The half of an even number, 1 of an odd one.
fn half_of(number: u64) -> u64 {
    if number % 2 == 0 { number / 2 } else { 1 }
}

impl Amount {
    /// The same with zeros.
    pub(crate) fn none(self) -> Amount {
        match self {
            Amount::Number(_) => Amount::Number(0),
            Amount::Sides(_, _) => Amount::Sides(0, 0),
        }
    }

    /// What is known not to do, where this doesn't: the number itself, but of two sides maybe only
    /// one is too great.
    pub(crate) fn above(self) -> Amount {
        match self {
            Amount::Number(number) => Amount::Number(number),
            Amount::Sides(width, height) => {
                Amount::Sides(width.saturating_add(1), height.saturating_add(1))
            }
        }
    }

    /// Whether it is greater than another, in a side at least.
    pub(crate) fn is_above(self, other: Amount) -> bool {
        match (self, other) {
            (Amount::Number(a), Amount::Number(b)) => a > b,
            (Amount::Sides(a, b), Amount::Sides(c, d)) => a > c || b > d,
            _ => false,
        }
    }

    /// The half: of the width, and once that is 1 of the stated height. `None` where each was
    /// halved to 1.
    pub(crate) fn half(self, stated: Amount) -> Option<Amount> {
        match (self, stated) {
            (Amount::Number(n), _) if half_of(n) > 1 => Some(Amount::Number(half_of(n))),
            (Amount::Sides(w, h), Amount::Sides(width, height)) => {
                if h == height && w > 1 {
                    Some(Amount::Sides(half_of(w), h))
                } else if h > 1 {
                    Some(Amount::Sides(width, half_of(h)))
                } else {
                    None
                }
            }
            _ => None,
        }
    }

    /// The greater in each side.
    pub(crate) fn greatest(self, other: Amount) -> Amount {
        match (self, other) {
            (Amount::Number(a), Amount::Number(b)) => Amount::Number(a.max(b)),
            (Amount::Sides(a, b), Amount::Sides(c, d)) => Amount::Sides(a.max(c), b.max(d)),
            _ => self,
        }
    }

    /// What lies between this and a greater value: in the width, and where nothing is left there in
    /// the height.
    pub(crate) fn middle(self, bad: Amount) -> Option<Amount> {
        match (self, bad) {
            (Amount::Number(low), Amount::Number(high)) => {
                Some(Amount::Number(between(low, high)?))
            }
            (Amount::Sides(w, h), Amount::Sides(width, height)) => match between(w, width) {
                Some(middle) => Some(Amount::Sides(middle, h)),
                None => Some(Amount::Sides(w, between(h, height)?)),
            },
            _ => None,
        }
    }

    /// What is known not to do, after this value between a good one and a bad one didn't.
    pub(crate) fn ceiling(self, good: Amount, bad: Amount) -> Amount {
        match (self, good, bad) {
            (Amount::Sides(w, h), Amount::Sides(width, _), Amount::Sides(x, y)) => {
                if w == width {
                    Amount::Sides(x, h)
                } else {
                    Amount::Sides(w, y)
                }
            }
            _ => self,
        }
    }

    /// The value as it is said.
    pub(crate) fn said(self) -> Said {
        match self {
            Amount::Number(number) => Said::Number(number),
            Amount::Sides(width, height) => Said::Sides(width, height),
        }
    }

    /// The value as JSON.
    pub(crate) fn value(self, alloc: Global) -> Result<Value, AllocError> {
        match self {
            Amount::Number(number) => Ok(exact_value(number)),
            Amount::Sides(width, height) => {
                let sides = with(alloc, None, "width", exact_value(width))?;
                with(alloc, Some(&sides), "height", exact_value(height))
            }
        }
    }
}

impl fmt::Display for Amount {
    fn fmt<W: fmt::Write>(&self, f: &mut fmt::Formatter<W>) -> fmt::Result {
        match self {
            Amount::Number(number) => write!(f, "{number}"),
            Amount::Sides(width, height) => write!(f, "{width}x{height}"),
        }
    }
}

pub(crate) fn amount_of(value: &Value) -> Option<Amount> {
    if let Some(number) = value.as_u64() {
        return Some(Amount::Number(number));
    }
    let width = value.get("width")?.as_u64()?;
    let height = value.get("height")?.as_u64()?;
    Some(Amount::Sides(width, height))
}

/// The value of the field that a change leaves out: of a bound that of the entry that asks for most
/// by it.
pub(crate) fn amount_in(value: &Value, edit: Edit) -> Option<Amount> {
    match edit {
        Edit::NoCount(field) => amount_of(value.get(field.name())?),
        Edit::NoMemory(field) => amount_of(value.get(MEMORY)?.get(field.name())?),
        Edit::NoBound(field) => amount_of(tightest_bound(value, field)?),
        Edit::Replaces(_, stated) => Some(stated),
        _ => None,
    }
}

/// The value of a bound in the entry that asks for most by it, in the first of those.
fn tightest_bound<'a>(value: &'a Value, field: Field) -> Option<&'a Value> {
    let mut tightest = None;
    let mut amount = None;
    for entry in entries_of(value) {
        if let Some(bound) = asked_bound(entry, field, amount) {
            tightest = Some(bound);
            amount = amount_of(bound);
        }
    }
    tightest
}

/// The value of a bound by which an entry asks for more than with an amount, or than where the bound
/// isn't stated; `None` where it doesn't.
pub(crate) fn asked_bound<'a>(
    entry: &'a Value,
    field: Field,
    amount: Option<Amount>,
) -> Option<&'a Value> {
    let bound = entry.get(field.name())?;
    match amount_of(bound) {
        Some(stated) if !asks_more(field, stated, amount) => None,
        _ => Some(bound),
    }
}

/// The values of the field that a change leaves out, each once: of a bound those of the entries.
pub fn amounts_in(alloc: Global, value: &Value, edit: Edit) -> Result<Vec<Amount>, AllocError> {
    let mut amounts: Vec<Amount> = Vec::new(alloc);
    let Edit::NoBound(field) = edit else {
        if let Some(amount) = amount_in(value, edit) {
            amounts.push(amount)?;
        }
        return Ok(amounts);
    };
    for entry in entries_of(value) {
        if let Some(amount) = entry.get(field.name()).and_then(amount_of) {
            if !amounts.contains(&amount) {
                amounts.push(amount)?;
            }
        }
    }
    Ok(amounts)
}

/// Whether an amount comes in the place of this one value alone of the field that a change leaves
/// out: of a bound in all entries that ask for more by it.
pub(crate) fn has_one_amount(
    alloc: Global,
    value: &Value,
    edit: Edit,
    stated: Amount,
    amount: Amount,
) -> Result<bool, AllocError> {
    let Edit::NoBound(field) = edit else {
        return Ok(true);
    };
    let bounds = asked_bounds(alloc, entries_of(value), field, Some(amount))?;
    for bound in &bounds {
        if amount_of(*bound) != Some(stated) {
            return Ok(false);
        }
    }
    Ok(!bounds.is_empty())
}

/// The values of a bound by which entries ask for more than with an amount, or than where it isn't
/// stated.
fn asked_bounds<'a>(
    alloc: Global,
    entries: &'a [Value],
    field: Field,
    amount: Option<Amount>,
) -> Result<Vec<&'a Value>, AllocError> {
    let mut bounds = Vec::new(alloc);
    for entry in entries {
        if let Some(bound) = asked_bound(entry, field, amount) {
            bounds.push(bound)?;
        }
    }
    Ok(bounds)
}

/// The constraints with another value of the field that a change leaves out, of a bound in each
/// entry that asks for more by it, or whose value is replaced; behind the value stand these words.
pub(crate) fn with_amount(
    alloc: Global,
    value: &Value,
    edit: Edit,
    stated: Amount,
    amount: Amount,
    after: &str,
) -> Result<EditedConstraints, AllocError>
    ensures { IfOk result (λ made. made.change
        ≡ record { edit = edit; amount = Some amount; start = 0; end = 0 }) }
{
    let left_out = edit.left_out();
    let name = left_out.map_or("", Field::name);
    let changed = match edit {
        Edit::NoBound(field) | Edit::Replaces(field, _) => {
            with_bound(alloc, value, edit, field, amount)?
        }
        Edit::NoMemory(_) => {
            let memory = with(alloc, value.get(MEMORY), name, amount.value(alloc)?)?;
            with(alloc, Some(value), MEMORY, memory)?
        }
        _ => with(alloc, Some(value), name, amount.value(alloc)?)?,
    };
    let mut words = words_to(alloc, value, edit, stated, amount)?;
    words.put(after);
    let made = EditedRecord {
        value: changed,
        words: words.into_text()?,
    };
    Ok(made.by(Change::plain(edit, Some(amount))))
}

/// `max_size 1920x1088 becomes 4096x2160`.
fn words_to(
    alloc: Global,
    value: &Value,
    edit: Edit,
    stated: Amount,
    amount: Amount,
) -> Result<TextBuilder, AllocError> {
    let mut words = TextBuilder::new(alloc);
    let Some(field) = edit.left_out() else {
        return Ok(words);
    };
    words.field(field).put(" ");
    let was = match edit {
        Edit::NoBound(_) => put_values(
            &mut words,
            &asked_bounds(alloc, entries_of(value), field, Some(amount))?,
        )?,
        _ => {
            words.put_number(stated);
            stated.said()
        }
    };
    words.put(" becomes ").put_number(amount);
    words.tell(Fact::Change(Deed::Set {
        field,
        was: Some(was),
        value: amount.said(),
    }));
    Ok(words)
}

/// The constraints with another value of the field that a change would leave out, and in words which
/// others do where this one does; `None` where it isn't there.
pub fn edited_to(
    alloc: Global,
    value: &Value,
    edit: Edit,
    amount: Amount,
) -> Result<Option<EditedConstraints>, AllocError>
    ensures { IfOk result (λ made. IfSome made (λ changed. changed.change
        ≡ record { edit = edit; amount = Some amount; start = 0; end = 0 })) }
{
    edited_as(alloc, value, edit, amount, others_beside(edit, amount))
}

/// The same, where other values aren't said to do.
pub fn edited_alone(
    alloc: Global,
    value: &Value,
    edit: Edit,
    amount: Amount,
) -> Result<Option<EditedConstraints>, AllocError>
    ensures { IfOk result (λ made. IfSome made (λ changed. changed.change
        ≡ record { edit = edit; amount = Some amount; start = 0; end = 0 })) }
{
    edited_as(alloc, value, edit, amount, "")
}

/// The same, with words behind the value.
pub(crate) fn edited_as(
    alloc: Global,
    value: &Value,
    edit: Edit,
    amount: Amount,
    after: &str,
) -> Result<Option<EditedConstraints>, AllocError>
    ensures { IfOk result (λ made. IfSome made (λ changed. changed.change
        ≡ record { edit = edit; amount = Some amount; start = 0; end = 0 })) }
{
    match amount_in(value, edit) {
        Some(stated) => {
            let made = with_amount(alloc, value, edit, stated, amount, after)?;
            Ok(Some(made))
        }
        None => Ok(None),
    }
}

fn with_bound(
    alloc: Global,
    value: &Value,
    edit: Edit,
    field: Field,
    amount: Amount,
) -> Result<Value, AllocError> {
    let mut copy = ListBuilder::new(alloc);
    for entry in entries_of(value) {
        if is_changed(entry, edit, amount) {
            let member = amount.value(alloc)?;
            copy.add(with(alloc, Some(entry), field.name(), member)?);
        } else {
            copy.add(entry.clone()?);
        }
    }
    with(alloc, Some(value), ENTRIES, Value::Array(copy.done()?))
}

/// Whether an entry has another value of a bound by an edit, which is this one.
fn is_changed(entry: &Value, edit: Edit, amount: Amount) -> bool {
    match edit {
        Edit::NoBound(field) => asked_bound(entry, field, Some(amount)).is_some(),
        Edit::Replaces(field, was) => entry.get(field.name()).and_then(amount_of) == Some(was),
        _ => false,
    }
}
