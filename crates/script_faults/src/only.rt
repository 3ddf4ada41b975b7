//! The only one of some names.

/// What some names are, if they are one.
#[derive(Clone, Copy)]
pub(crate) enum Only<'a> {
    Nothing,
    One(&'a str),
    Several,
}

impl<'a> Only<'a> {
    /// What they are with a further name.
    pub(crate) fn and(self, name: &'a str) -> Only<'a> {
        match self {
            Only::Nothing => Only::One(name),
            Only::One(one) if one == name => self,
            _ => Only::Several,
        }
    }

    /// The only name; `None` where there are more, or none.
    pub(crate) fn name(self) -> Option<&'a str> {
        match self {
            Only::One(one) => Some(one),
            _ => None,
        }
    }
}
