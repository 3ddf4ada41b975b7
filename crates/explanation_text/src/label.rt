//! What an item is about, in a word.

/// The numbers of changes of which each suffices alone.
const NUMBERS: [&str; 5] = ["1.", "2.", "3.", "4.", "5."];

/// What an item is about.
#[derive(Clone, Copy, PartialEq, Eq)]
pub enum Label {
    /// The text says so itself.
    Plain,
    /// Who has constraints.
    Who,
    Note,
    /// Why nothing is chosen.
    Why,
    /// Whose children are selected.
    Groups,
    /// Who decided what holds for an attached domain.
    From,
    /// Which child a group has.
    Choice,
    Count,
    Place,
    Image,
    /// Width and height at once.
    Pixels,
    Width,
    Height,
    Row,
    Size,
    /// A field in which settings fail a participant.
    Misfit,
    /// What a platform doesn't have.
    Lacks,
    Awaits,
    /// What changes do.
    Change,
    /// The change of this index suffices alone.
    Alone(usize),
    /// A change that suffices together with others.
    And,
    /// Calls that are made otherwise.
    Then,
    /// The lines of fields.
    Lines,
    /// A report's line.
    Told,
    /// The line that would come.
    Promised,
}

impl Label {
    /// The word that stands before the text; empty where none does.
    pub fn word(self) -> &'static str {
        match self {
            Label::Plain => "",
            Label::Who => "who",
            Label::Note => "note",
            Label::Why => "why",
            Label::Groups => "groups",
            Label::From => "from",
            Label::Choice => "choice",
            Label::Count => "count",
            Label::Place => "place",
            Label::Image => "image",
            Label::Pixels => "pixels",
            Label::Width => "width",
            Label::Height => "height",
            Label::Row => "row",
            Label::Size => "size",
            Label::Misfit => "misfit",
            Label::Lacks => "lacks",
            Label::Awaits => "awaits",
            Label::Change => "change",
            Label::Alone(index) => NUMBERS.get(index).copied().unwrap_or(""),
            Label::And => "and",
            Label::Then => "then",
            Label::Lines => "lines",
            Label::Told => "told",
            Label::Promised => "->",
        }
    }

    /// Whether an item with it tells a change.
    pub fn is_change(self) -> bool {
        matches!(self, Label::Alone(_) | Label::And | Label::Then)
    }
}
