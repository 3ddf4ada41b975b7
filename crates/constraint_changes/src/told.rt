//! Changes that help, as they are told: those that several participants may make alike as one.

use crate::trials::{Group, RestatedConstraints};
use domain_reasons::Losses;
use explanation_text::{Item, Items, Label, Text};
use script_story::Outcome;
use std::alloc::{AllocError, Global};
use sysmem_formats::{Offer, Pair};

/// Of how many participants a change is told at most.
const MOST: usize = 4;

/// How far a decision is from what was preferred.
#[derive(Clone, Copy)]
pub(crate) struct Rank {
    /// Whether its change is likely meant: then it comes before all others.
    is_likely: bool,
    /// How many other domains that are chosen now have no settings then; one more where somebody
    /// there before is to ask for more.
    lost: usize,
    /// The numbers of the chosen children of groups, in sum.
    children: usize,
    /// The place of the chosen pair on the platform, from 0.
    pair: usize,
}

impl Rank {
    /// That of a decision on those of a group, whose change is likely meant or not, and leaves so
    /// many other domains without the settings that they have.
    pub(crate) fn of(
        group: Group<'_, '_>,
        outcome: &Outcome,
        is_likely: bool,
        lost: usize,
    ) -> Rank {
        if is_likely {
            return Rank {
                is_likely,
                lost,
                children: 0,
                pair: 0,
            };
        }
        let pairs = group.scenario.platform.pairs();
        Rank {
            is_likely,
            lost,
            children: sum_of(outcome.selection()),
            pair: match outcome.chosen() {
                Some(chosen) => place_of_pair(pairs, chosen.settings().offer),
                None => 0,
            },
        }
    }

    /// Whether it is farther than another.
    fn is_after(self, other: Rank) -> bool {
        if self.is_likely != other.is_likely {
            return other.is_likely;
        }
        if self.lost != other.lost {
            return self.lost > other.lost;
        }
        self.children > other.children
            || (self.children == other.children && self.pair > other.pair)
    }
}

fn sum_of(children: &[u8]) -> usize {
    let mut sum = 0usize;
    for child in children {
        sum = sum.saturating_add(usize::from(*child));
    }
    sum
}

/// The place of an offer's pair among some; 0 where it has none.
fn place_of_pair(pairs: &[Pair], offer: Offer) -> usize {
    let Offer::Image(pair, _) = offer else {
        return 0;
    };
    for (place, other) in pairs.iter().enumerate() {
        if *other == pair {
            return place;
        }
    }
    0
}

/// A change that helps, with what it gives.
#[derive(Drop)]
pub(crate) struct ToldChange {
    /// Those any one of whom may make it, each with its call; nobody where only these can.
    who: Vec<Text>,
    /// What is changed.
    words: Text,
    /// What calls state by it, of the first who may make it.
    stated: Vec<RestatedConstraints>,
    rank: Rank,
    /// The change, the decision that comes, and its choices.
    items: Items,
    /// What other domains lose by it.
    losses: Losses,
}

impl ToldChange {
    /// A change that nobody else may make, with what it gives.
    pub(crate) fn of(
        stated: Vec<RestatedConstraints>,
        rank: Rank,
        items: Items,
        losses: Losses,
    ) -> ToldChange {
        ToldChange {
            who: Vec::new(items.alloc()),
            words: Text::new(items.alloc()),
            stated,
            rank,
            items,
            losses,
        }
    }

    /// A change that any one of these may make, with what it gives.
    pub(crate) fn by(
        who: Vec<Text>,
        words: Text,
        stated: Vec<RestatedConstraints>,
        rank: Rank,
        items: Items,
        losses: Losses,
    ) -> ToldChange {
        ToldChange {
            who,
            words,
            stated,
            rank,
            items,
            losses,
        }
    }

    /// Those who may make it, and what calls state by it.
    fn into_parts(self) -> (Vec<Text>, Vec<RestatedConstraints>) {
        let ToldChange {
            who,
            words: _,
            stated,
            rank: _,
            items: _,
            losses: _,
        } = self;
        (who, stated)
    }

    /// Whether one more may make it who changes this, by which this comes: it is the same change,
    /// and the report's line that comes is the same, and what others lose.
    fn is_like(&self, words: &Text, outcome: &Outcome, losses: &Losses) -> bool {
        let count = self.who.len();
        let is_other = self.words != *words || !self.losses.are_as(losses);
        if count == 0 || count >= MOST || is_other {
            return false;
        }
        match self.items.list().get(1) {
            Some(own) => own.text.as_str() == outcome.said.as_str(),
            None => false,
        }
    }

    /// Puts it after a list, with its number from 0, and with what others lose by it, unless that
    /// isn't to be told here; gives what calls state by it.
    fn put_into(
        self,
        items: &mut Items,
        index: usize,
        tells_losses: bool,
    ) -> Vec<RestatedConstraints> {
        let ToldChange {
            items: own,
            stated,
            losses,
            who: _,
            words: _,
            rank: _,
        } = self;
        match own.into_list() {
            Ok(list) => add_numbered(items, list, index),
            Err(AllocError) => items.refuse(),
        }
        if tells_losses {
            losses.put_into(items);
        }
        stated
    }
}

/// Those who may make a change with one more, and what calls state by it, which is of the first of
/// them; it is this one alone where there is no change before.
pub(crate) fn joined(
    alloc: Global,
    before: Option<ToldChange>,
    who: Text,
    stated: RestatedConstraints,
) -> Result<(Vec<Text>, Vec<RestatedConstraints>), AllocError> {
    let (mut whose, mut first) = match before {
        Some(told) => told.into_parts(),
        None => (Vec::new(alloc), Vec::new(alloc)),
    };
    whose.push(who)?;
    first.push(stated)?;
    first.truncate(1);
    Ok((whose, first))
}

/// Adds the items of a change, with its number from 0.
fn add_numbered(items: &mut Items, list: Vec<Item>, index: usize) {
    for item in list {
        let mut numbered = item;
        if let Label::Alone(_) = numbered.label {
            numbered.label = Label::Alone(index);
        }
        items.add(numbered);
    }
}

/// The index of the change that one more may make who changes this, by which this comes and others
/// lose this, if there is one.
pub(crate) fn place_like(
    told: &[ToldChange],
    words: &Text,
    outcome: &Outcome,
    losses: &Losses,
) -> Option<usize> {
    for (place, one) in told.iter().enumerate() {
        if one.is_like(words, outcome, losses) {
            return Some(place);
        }
    }
    None
}

/// The index before which a change is told: that of the first whose decision is farther from what
/// was preferred.
pub(crate) fn place_of(told: &[ToldChange], one: &ToldChange) -> usize {
    for (place, other) in told.iter().enumerate() {
        if other.rank.is_after(one.rank) {
            return place;
        }
    }
    told.len()
}

/// Puts changes after a list, and gives what calls state by the first; nothing where there is none.
/// With each stands what others lose by it, but with the first only where others are told before.
pub(crate) fn put_told(
    items: &mut Items,
    told: Vec<ToldChange>,
    are_behind: bool,
) -> Vec<RestatedConstraints> {
    let mut first = Vec::new(items.alloc());
    let mut index = 0usize;
    for one in told {
        let stated = one.put_into(items, index, are_behind || index > 0);
        if index == 0 {
            first = stated;
        }
        index = index.saturating_add(1);
    }
    first
}
