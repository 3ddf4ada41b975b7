//! Who asks for less of a number than was chosen, or for a multiple that it is already, so that what
//! it states has no effect.

use crate::amounts::{Amount, put_amount};
use crate::clash::stated_at;
use crate::rows::told_of;
use explanation_text::{ListBuilder, TextBuilder};
use std::alloc::{AllocError, Global};
use sysmem_counts::Field;
use sysmem_image::entry_for;
use value_sources::{NamedParticipant, Wishes, put_has};

/// How many amounts are told; one more is shown rather than counted.
const MOST: usize = 2;

/// An amount, and all who ask for it.
#[derive(Drop)]
struct AskedAmount<'a> {
    amount: Amount,
    those: Vec<NamedParticipant<'a>>,
}

/// Puts who asks by a field for less than was chosen after a text.
pub(crate) fn put_less(
    text: &mut TextBuilder,
    wishes: Wishes<'_, '_>,
    field: Field,
    chosen: Amount,
) {
    match asked_below(text.alloc(), wishes, field, Some(chosen)) {
        Ok(amounts) => put_amounts(text, field, &amounts, ["asks for less,", "ask for less,"]),
        Err(AllocError) => text.refuse(),
    }
}

/// Puts who asks by a field for multiples, which what was chosen is already, after a text.
pub(crate) fn put_multiples(text: &mut TextBuilder, wishes: Wishes<'_, '_>, field: Field) {
    match asked_below(text.alloc(), wishes, field, None) {
        Ok(amounts) => {
            let words = ["asks for a multiple of", "ask for a multiple of"];
            put_amounts(text, field, &amounts, words)
        }
        Err(AllocError) => text.refuse(),
    }
}

/// The amounts that participants ask for by a field, each once: those below what was chosen, or
/// where nothing is given all.
fn asked_below<'a>(
    alloc: Global,
    wishes: Wishes<'a, '_>,
    field: Field,
    chosen: Option<Amount>,
) -> Result<Vec<AskedAmount<'a>>, AllocError> {
    let mut amounts = Vec::new(alloc);
    for participant in wishes.participants {
        if let Some(amount) = asked_by(participant, wishes, field) {
            let is_below = match chosen {
                Some(chosen) => chosen.is_above(amount),
                None => true,
            };
            if is_below {
                add_amount(&mut amounts, participant, amount)?;
            }
        }
    }
    Ok(amounts)
}

/// Adds a participant to those who ask for an amount.
fn add_amount<'a>(
    amounts: &mut Vec<AskedAmount<'a>>,
    participant: &NamedParticipant<'a>,
    amount: Amount,
) -> Result<(), AllocError> {
    let alloc = *amounts.allocator();
    for one in amounts.iter_mut() {
        if one.amount == amount {
            one.those.push(*participant)?;
            return Ok(());
        }
    }
    amounts.push(AskedAmount {
        amount,
        those: vec![in alloc; *participant]?,
    })?;
    Ok(())
}

/// What a participant asks for by a field, if that is more than 1.
fn asked_by(
    participant: &NamedParticipant<'_>,
    wishes: Wishes<'_, '_>,
    field: Field,
) -> Option<Amount> {
    let asked = participant.asked;
    let entry = match field {
        Field::MinBufferCount | Field::MinBufferCountForSharedSlack | Field::MinSizeBytes => None,
        _ => Some(entry_for(asked.entries(), &wishes.offer)?),
    };
    let amount = stated_at(asked, entry, field);
    if amount.is_beyond_one() {
        Some(amount)
    } else {
        None
    }
}

/// Puts amounts with those who ask for them, with one of these words, after a text; of more than some
/// how many others do.
fn put_amounts(
    text: &mut TextBuilder,
    field: Field,
    amounts: &[AskedAmount<'_>],
    words: [&str; 2],
) {
    let [one, many] = words;
    let most = told_of(amounts.len(), MOST);
    let mut others = 0usize;
    for (k, asked) in amounts.iter().enumerate() {
        if k < most {
            text.put("; ");
            put_has(text, &asked.those, one, many);
            text.put(" ");
            put_amount(text, asked.amount);
            text.put(" (").field(field).put(")");
        } else {
            others = others.saturating_add(asked.those.len());
        }
    }
    if others > 0 {
        text.put("; so do ")
            .put_number(others)
            .put(" others with other numbers");
    }
}
