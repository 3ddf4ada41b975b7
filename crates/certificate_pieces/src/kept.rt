//! The texts of lines that come again.

ghost use Rattle.std.specs.Prelude.{◌≡◌, ℕ, IsTrue, None, Some};
ghost use Rattle.certificate_pieces.specs.KeptText.{GoesOn, IsKnown, kept_text};
ghost use Rattle.certificate_text.specs.Told.{line_data};
ghost use Rattle.serde_json.specs.Written.{compact_text};

use crate::kept_front::KeptFront;
use crate::kept_line::KeptLine;
use std::alloc::{AllocError, Global};
use verdict_claims::Line;

/// What is known of a line of a list before it is told.
#[derive(Clone, Copy)]
pub(crate) struct NextLine {
    /// Its place in the list.
    pub(crate) place: usize,
    /// The place of an earlier line that has its paths.
    pub(crate) earlier: Option<usize>,
    /// The next line is this one once more.
    pub(crate) comes_again: bool,
}

/// The text of the last line with few paths that comes again, and of the last with many: a line
/// that names one participant stands between lines that name all.
#[derive(Drop)]
pub(crate) struct LineCache {
    few: KeptLine,
    many: KeptLine,
    /// Where the last line with many stands in the list that is told.
    place: Option<usize>,
    /// The text before the paths of the last line whose own text isn't kept.
    pub(crate) front: KeptFront,
    /// The same of a line with another field before it: in many lists two fields come by turns.
    pub(crate) other_front: KeptFront,
}

impl LineCache {
    /// Of no line. Room for the texts is taken, and no more later.
    pub(crate) fn new(alloc: Global) -> Result<LineCache, AllocError> {
        Ok(LineCache {
            few: KeptLine::new(alloc)?,
            many: KeptLine::new(alloc)?,
            place: None,
            front: KeptFront::new(alloc)?,
            other_front: KeptFront::new(alloc)?,
        })
    }

    /// Begins another list: none of its lines is kept.
    pub(crate) fn begin(&mut self)
        ensures { self.new.place ≡ None }
    {
        self.place = None;
    }

    /// Whether the line's text is kept now. It isn't if it is too long; nor if the line has few
    /// paths and isn't known to come again: to tell such a line takes no longer than to compare it.
    pub(crate) fn keeps(&mut self, line: &Line, known: NextLine) -> bool
        requires { IsKnown self.old line.now known }
        ensures text { IsTrue result
            → kept_text self.new line.now ≡ compact_text (line_data line.now) }
        ensures paths { GoesOn self.old self.new line.now known.place }
    {
        if line.nodes().is_small() {
            if !known.comes_again {
                return false;
            }
            return self.few.keeps(line, false);
        }
        let has_paths = is_at(known.earlier, self.place);
        if !self.many.keeps(line, has_paths) {
            self.place = None;
            return false;
        }
        self.place = Some(known.place);
        true
    }

    /// The text that is kept of a line with so many paths.
    pub(crate) fn text(&self, line: &Line) -> &[u8]
        ensures { result.now ≡ kept_text self.now line.now }
    {
        if line.nodes().is_small() {
            return self.few.text();
        }
        self.many.text()
    }
}

/// Whether the place of an earlier line, if there is one, is this.
fn is_at(earlier: Option<usize>, place: Option<usize>) -> bool
    ensures { IsTrue result → (at : ℕ) × (earlier ≡ Some at) × (place ≡ Some at) }
{
    match earlier {
        Some(at) => place == Some(at),
        None => false,
    }
}
