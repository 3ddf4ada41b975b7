//! Numbers that others are multiples of, with who asks for each.

use crate::sizes::DerivedNumber;
use explanation_text::wording::{MOST_NAMES, put_few};
use explanation_text::{ListBuilder, Text, TextBuilder};
use std::alloc::{AllocError, Global};

/// A number that others are multiples of, and who asks for it.
#[derive(Drop)]
pub(crate) struct Multiple {
    pub(crate) value: u128,
    pub(crate) who: Text,
}

/// The least multiple of a number that isn't below a value.
pub(crate) fn up(value: u128, multiple: u128) -> u128 {
    if multiple < 2 {
        return value;
    }
    let over = value % multiple;
    if over == 0 {
        return value;
    }
    value.saturating_add(multiple.saturating_sub(over))
}

fn gcd(a: u128, b: u128) -> u128 {
    let mut low = a;
    let mut high = b;
    for _step in 0..512 {
        if low == 0 {
            break;
        }
        let rest = high % low;
        high = low;
        low = rest;
    }
    high
}

pub(crate) fn lcm(a: u128, b: u128) -> u128 {
    let shared = gcd(a, b);
    if shared == 0 {
        return 0;
    }
    (a / shared).saturating_mul(b)
}

/// The number that all are divisors of, and those who are needed for it.
pub(crate) fn multiple_of(
    alloc: Global,
    parts: Vec<Multiple>,
) -> Result<DerivedNumber, AllocError> {
    let whole = lcm_but(&parts, usize::MAX, &[]);
    let why = who_asks(alloc, &parts, whole)?;
    Ok(DerivedNumber { value: whole, why })
}

/// Those of the parts that are needed for the multiple of all, in words.
fn who_asks(alloc: Global, parts: &[Multiple], whole: u128) -> Result<Text, AllocError> {
    let left_out = needless(alloc, parts, whole)?;
    let texts = texts_of(alloc, parts, &left_out)?;
    let mut words = TextBuilder::new(alloc);
    put_few(&mut words, &texts, MOST_NAMES);
    words.into_text()
}

/// The indices of parts without which the multiple of the others is this one of all, or not below
/// one that is less, from the last to the first.
pub(crate) fn needless(
    alloc: Global,
    parts: &[Multiple],
    least: u128,
) -> Result<Vec<usize>, AllocError> {
    let mut left_out: Vec<usize> = Vec::new(alloc);
    for k in (0..parts.len()).rev() {
        let is_trivial = match parts.get(k) {
            Some(part) => part.value < 2,
            None => true,
        };
        if is_trivial || reaches(parts, k, &left_out, least) {
            left_out.push(k)?;
        }
    }
    Ok(left_out)
}

/// Who asks for the parts that aren't left out; of several each with its number.
fn texts_of(
    alloc: Global,
    parts: &[Multiple],
    left_out: &[usize],
) -> Result<Vec<Text>, AllocError> {
    let kept = parts.len().saturating_sub(left_out.len());
    let mut texts: ListBuilder<Text> = ListBuilder::new(alloc);
    for (k, part) in parts.iter().enumerate() {
        if !left_out.contains(&k) {
            texts.add_text(text_of(alloc, part, kept == 1));
        }
    }
    texts.done()
}

/// Who asks for a part, with its number where others are asked for too.
fn text_of(alloc: Global, part: &Multiple, is_alone: bool) -> TextBuilder {
    let mut words = TextBuilder::of_text(alloc, &part.who);
    if !is_alone {
        words.put(" ").put_number(part.value);
    }
    words
}

/// Whether the least common multiple of all parts but one and some others is at least so much.
fn reaches(parts: &[Multiple], index: usize, others: &[usize], least: u128) -> bool {
    let mut whole = 1u128;
    for (k, part) in parts.iter().enumerate() {
        if k != index && !others.contains(&k) {
            whole = lcm(whole, part.value);
        }
        if whole >= least {
            return true;
        }
    }
    false
}

/// The least common multiple of all parts but one and some others.
pub(crate) fn lcm_but(parts: &[Multiple], index: usize, others: &[usize]) -> u128 {
    let mut whole = 1u128;
    for (k, part) in parts.iter().enumerate() {
        if k != index && !others.contains(&k) {
            whole = lcm(whole, part.value);
        }
    }
    whole
}
