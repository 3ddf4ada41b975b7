//! What may be meant by a key that isn't known.

use crate::help::{Help, did_you_mean, listed};
use crate::record::alike::begins_alike;
use crate::record::keys::{is_one_of, kind_at, names_of, put_allowed};
use crate::record::kinds::may_stand;
use crate::record::other_words::fields_of_words;
use crate::record::owners::{OWNERS, fields_of, owner_of};
use explanation_text::{Owner, TextBuilder, nearest};
use serde_json::Value;
use std::alloc::{AllocError, Global};
use sysmem_counts::Field;

/// How many keys of an object are listed at the most.
const MOST: usize = 5;

/// A member of an object whose key isn't known there.
#[derive(Clone, Copy)]
pub(crate) struct UnknownKey<'a> {
    pub key: &'a str,
    pub value: &'a Value,
    /// Those that the object can have.
    pub keys: &'a [&'static str],
    pub is_platform: bool,
}

/// Another object in which a member is meant.
#[derive(Clone, Copy)]
pub(crate) struct Elsewhere {
    pub owner: Owner,
    /// The field that is meant by its key, where that is another.
    pub renamed: Option<Field>,
}

/// What helps with such a key.
#[derive(Drop)]
pub(crate) struct KeyHelp {
    pub help: Option<Help>,
    pub elsewhere: Option<Elsewhere>,
}

impl KeyHelp {
    fn of(help: Help) -> KeyHelp {
        KeyHelp {
            help: Some(help),
            elsewhere: None,
        }
    }
}

impl UnknownKey<'_> {
    /// What helps with it: where it belongs; what other people mean by it; a key that is near and
    /// takes what stands there; or else the keys that there are.
    pub(crate) fn help(self, alloc: Global) -> Result<KeyHelp, AllocError> {
        match owner_of(self.key, self.keys) {
            Some(owner) if !self.is_platform => return Ok(belongs(alloc, self.key, owner)),
            _ => {}
        }
        if let Some(help) = self.help_of_words(alloc)? {
            return Ok(help);
        }
        let fitting = self.fitting(alloc, self.keys)?;
        if let Some(near) = nearest(alloc, self.key, &fitting)? {
            return Ok(KeyHelp::of(Help::near(alloc, near)));
        }
        if let Some((field, owner)) = self.near_elsewhere(alloc)? {
            let mut words = did_you_mean(alloc, field.name());
            words.put(" It belongs in ");
            owner.put(&mut words);
            return Ok(self.meant_in(words, field, owner));
        }
        match begins_alike(self.key, &fitting) {
            Some(near) if !self.is_platform => Ok(KeyHelp::of(Help::near(alloc, near))),
            _ => self.last_help(alloc),
        }
    }

    /// The same where other people name a field of this object so, or else just one of another.
    fn help_of_words(self, alloc: Global) -> Result<Option<KeyHelp>, AllocError> {
        let fields = fields_of_words(alloc, self.key)?;
        if let Some(field) = self.likeliest(&those_in(alloc, &fields, self.keys)?) {
            let mut words = did_you_mean(alloc, field.name());
            words.put(" It is ");
            put_allowed(&mut words, field, self.is_platform);
            let help = if self.fits(field) {
                Help::of_word(words, field.name())
            } else {
                Help::of(words)
            };
            return Ok(Some(KeyHelp::of(help)));
        }
        let Some(field) = only_one(&fields) else {
            return Ok(None);
        };
        match owner_of(field.name(), self.keys) {
            Some(owner) if self.may_be_elsewhere() => {
                let mut words = did_you_mean(alloc, field.name());
                words.put(" It belongs in ");
                owner.put(&mut words);
                words.put(" and is ");
                put_allowed(&mut words, field, false);
                Ok(Some(self.meant_in(words, field, owner)))
            }
            _ => Ok(None),
        }
    }

    /// The first of some fields that takes what stands there, or else the first.
    fn likeliest(self, fields: &[Field]) -> Option<Field> {
        let fit = fields.iter().copied().find(|field| self.fits(*field));
        fit.or(fields.first().copied())
    }

    fn fits(self, field: Field) -> bool {
        may_stand(field.kind(), self.value)
    }

    /// Whether it may belong in another object of constraints: it stands in one, or in a pair of an
    /// entry.
    fn may_be_elsewhere(self) -> bool {
        !self.is_platform
            && OWNERS.iter().any(|owner| match fields_of(*owner).first() {
                Some(first) => self.keys.first().copied() == Some(first.name()),
                None => false,
            })
    }

    /// Words, with a field of another object that is meant if it takes what stands there.
    fn meant_in(self, words: TextBuilder, field: Field, owner: Owner) -> KeyHelp {
        let mut help = KeyHelp::of(Help::of(words));
        if self.fits(field) {
            help.elsewhere = Some(Elsewhere {
                owner,
                renamed: Some(field),
            });
        }
        help
    }

    /// Those of some keys that take what stands there.
    fn fitting(
        self,
        alloc: Global,
        keys: &[&'static str],
    ) -> Result<Vec<&'static str>, AllocError> {
        let mut fitting = Vec::new(alloc);
        for key in keys {
            if may_stand(kind_at(*key), self.value) {
                fitting.push(*key)?;
            }
        }
        Ok(fitting)
    }

    /// A field of another object that is near and takes what stands there, with that object.
    fn near_elsewhere(self, alloc: Global) -> Result<Option<(Field, Owner)>, AllocError> {
        if !self.may_be_elsewhere() {
            return Ok(None);
        }
        for owner in OWNERS {
            let others = names_of(alloc, fields_of(owner))?;
            if others.first() == self.keys.first() {
                continue;
            }
            let fitting = self.fitting(alloc, &others)?;
            if let Some(near) = nearest(alloc, self.key, &fitting)?
                && let Some(field) = Field::from_name(near)
            {
                return Ok(Some((field, owner)));
            }
        }
        Ok(None)
    }

    /// A key that is near, though it doesn't take what stands there; or else those that there are,
    /// where they are few.
    fn last_help(self, alloc: Global) -> Result<KeyHelp, AllocError> {
        if let Some(near) = nearest(alloc, self.key, self.keys)? {
            let mut words = did_you_mean(alloc, near);
            if let Some(field) = Field::from_name(near) {
                words.put(" It is ");
                put_allowed(&mut words, field, self.is_platform);
            }
            return Ok(KeyHelp::of(Help::of(words)));
        }
        if self.keys.len() > MOST {
            return Ok(KeyHelp {
                help: None,
                elsewhere: None,
            });
        }
        let words = listed(alloc, "keys here: ", self.keys, "and");
        Ok(KeyHelp::of(Help::of(words)))
    }
}

/// Where a key belongs that other objects can have.
fn belongs(alloc: Global, key: &str, owner: Owner) -> KeyHelp {
    let mut words = TextBuilder::of(alloc, key);
    words.put(" belongs in ");
    owner.put(&mut words);
    KeyHelp {
        help: Some(Help::of(words)),
        elsewhere: Some(Elsewhere {
            owner,
            renamed: None,
        }),
    }
}

/// The field of a list of one.
fn only_one(fields: &[Field]) -> Option<Field> {
    if fields.len() == 1 {
        fields.first().copied()
    } else {
        None
    }
}

/// Those of some fields whose names are among these keys.
fn those_in(alloc: Global, fields: &[Field], keys: &[&str]) -> Result<Vec<Field>, AllocError> {
    let mut those = Vec::new(alloc);
    for field in fields {
        if is_one_of(field.name(), keys) {
            those.push(*field)?;
        }
    }
    Ok(those)
}
