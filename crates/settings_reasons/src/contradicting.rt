//! Who contradicts itself: a least value in a record above a greatest one in the same.

ghost use Rattle.std.specs.Prelude.{Contains, IfSome, option_copied};

use crate::amounts::put_amount;
use crate::clash::Clash;
use crate::offer_words::pair_name;
use explanation_text::{Items, Label, TextBuilder};
use sysmem_counts::Field;
use sysmem_image::Entry;
use value_sources::NamedParticipant;

/// How many are told.
const MOST: usize = 4;

/// The fields of a record, apart from its entries, of which the first may not be above the second,
/// in the order in which they are looked at.
const WHOLE: [(Field, Field); 2] = [
    (Field::MinBufferCount, Field::MaxBufferCount),
    (Field::MinSizeBytes, Field::MaxSizeBytes),
];

/// Those of an entry.
const OF_ENTRY: [(Field, Field); 4] = [
    (Field::MinSize, Field::MaxSize),
    (Field::MinSize, Field::RequiredMinSize),
    (Field::RequiredMaxSize, Field::MaxSize),
    (Field::MinBytesPerRow, Field::MaxBytesPerRow),
];

/// Tells who contradicts itself, before all else that is in the way.
pub(crate) fn add_contradictions(
    items: &mut Items,
    depth: usize,
    participants: &[NamedParticipant<'_>],
) {
    let most = items.len().saturating_add(MOST);
    for participant in participants {
        if let Some(clash) = first_clash(*participant, None, &WHOLE) {
            add_clash(items, depth, &clash);
        }
        for entry in participant.asked.entries() {
            if items.len() >= most {
                return;
            }
            if let Some(clash) = first_clash(*participant, Some(entry), &OF_ENTRY) {
                add_clash(items, depth, &clash);
            }
        }
    }
}

/// The first of some pairs of fields that contradict each other in a participant's record: in one
/// of its entries, or apart from these.
fn first_clash<'a>(
    participant: NamedParticipant<'a>,
    entry: Option<&'a Entry>,
    fields: &[(Field, Field)],
) -> Option<Clash<'a>>
    requires { IfSome (option_copied entry) (Contains participant.asked.now.entries) }
{
    for (least, most) in fields {
        if let Some(clash) = Clash::of(participant, entry, *least, *most) {
            return Some(clash);
        }
    }
    None
}

fn add_clash(items: &mut Items, depth: usize, clash: &Clash<'_>) {
    let mut text = TextBuilder::of_name(items.alloc(), clash.participant().called());
    let ((least, low), (most, high)) = (clash.least(), clash.most());
    text.put(" contradicts itself: ").field(least).put(" ");
    put_amount(&mut text, low);
    text.put(" is above its own ").field(most).put(" ");
    put_amount(&mut text, high);
    if let Some(entry) = clash.entry() {
        put_entry(&mut text, entry);
    }
    items.say(depth, Label::Plain, text)
}

/// Puts in which entry it is after a text.
fn put_entry(text: &mut TextBuilder, entry: &Entry) {
    let pair = pair_name(text.alloc(), entry.format, entry.modifier);
    text.put(", in its entry for ").put_words(&pair);
}
