//! Lines of the conflict table: a field, and for whom it fails.

ghost use Rattle.std.specs.Prelude.{◌≡◌, ◌-◌, ◌++◌, [], ◌∷◌, length, slice_get, All, None, Some, IfOk, IsOk, OnErr, OnOk};
ghost use Rattle.verdict_claims.specs.Line.{IsAgain, LineFacts, SharePaths};

use crate::path_list::PathList;
use std::alloc::{AllocError, Global};
use std::marker::Model;
use std::sync::Arc;
use sysmem_counts::Field;

/// Among how many lines before it a line looks for its paths. A platform's colours go by under each
/// of its pairs, and from one to the next it is often the same few lists that come again.
const NEAR: usize = 4;

/// A field that fails for the participants at some paths, in any order. Lines with
/// the same paths may keep them once.
#[derive(Debug)]
pub struct Line {
    field: Field,
    nodes: Arc<PathList>,
}

impl Drop for Line {
    fn drop(self) {
        let Line { field: _, nodes: _ } = self;
    }
}

impl Model for Line {
    ghost use Rattle.std.specs.Arc.{arc_value};
    ghost use Rattle.verdict_claims.specs.Line.{LineFacts};

    ghost Value = { LineFacts };

    ghost view = { λ l. record {
      field = l.field;
      nodes = arc_value l.nodes;
    } };
}

impl Line {
    /// This field, for the participants at these paths. Any are a line; whether it is true is a
    /// checker's matter. `AllocError` where memory is refused.
    pub fn new(alloc: Global, field: Field, nodes: PathList) -> Result<Line, AllocError>
        ensures { IfOk result (λ line. line ≡ record { field = field; nodes = nodes }) }
    {
        let nodes = Arc::new(alloc, nodes)?;
        Ok(Line { field, nodes })
    }

    /// The same, behind these lines: where one of the last of them has
    /// the paths, it keeps them for both.
    pub fn behind(
        alloc: Global,
        lines: &[Line],
        field: Field,
        nodes: PathList,
    ) -> Result<Line, AllocError>
        ensures { IfOk result (λ line. line ≡ record { field = field; nodes = nodes }) }
    {
        for near in lines.iter().rev().take(NEAR) {
            if near.nodes.is_same(&nodes) {
                let nodes = Arc::try_clone(&near.nodes)?;
                return Ok(Line { field, nodes });
            }
        }
        Line::new(alloc, field, nodes.fitted()?)
    }

    /// The same line again. The paths are kept once for both.
    pub fn again(&self) -> Result<Line, AllocError>
        ensures { IfOk result (λ line. line ≡ self.now) }
    {
        self.headed(self.field)
    }

    /// Its paths under this field. They are kept once for both.
    pub fn headed(&self, field: Field) -> Result<Line, AllocError>
        ensures { IfOk result (λ line. line
            ≡ record { field = field; nodes = self.now.nodes }) }
    {
        let nodes = Arc::try_clone(&self.nodes)?;
        Ok(Line { field, nodes })
    }

    /// The field that heads the line.
    pub fn field(&self) -> Field
        ensures { result ≡ self.now.field }
    {
        self.field
    }

    /// The paths of the participants for whom it fails.
    pub fn nodes(&self) -> &PathList
        ensures { result.now ≡ self.now.nodes }
    {
        &self.nodes
    }
}

/// The places of two lines that have the same paths.
#[derive(Clone, Copy, Debug)]
pub struct SharedPaths {
    /// The place of the one that stands first.
    pub earlier: u8,
    /// The place of the other.
    pub later: u8,
}

/// Lines for some places or offers of a platform, one for each, in their order. A reader of all
/// lines compares no paths where they were put as the same.
#[derive(Debug)]
pub struct Lines {
    lines: Vec<Line>,
    /// The places of lines that are the one before once more, as far as they were put so.
    again: Vec<u8>,
    /// The places of lines that have the paths of an earlier one, as far as they were put so.
    shared: Vec<SharedPaths>,
}

impl Drop for Lines {
    fn drop(self) {
        let Lines {
            lines: _,
            again: _,
            shared: _,
        } = self;
    }
}

impl Model for Lines {
    ghost use Rattle.std.specs.Prelude.{All, List};
    ghost use Rattle.verdict_claims.specs.Line.{IsAgain, LineFacts, SharePaths};

    ghost Value = { List LineFacts };

    ghost view = { λ l. l.lines.items };

    ghost invariant = { λ l. All (IsAgain l.lines.items) l.again.items
        × All (SharePaths l.lines.items) l.shared.items };
}

impl Lines {
    /// These lines.
    pub fn new(lines: Vec<Line>) -> Lines
        ensures { result ≡ lines.items }
    {
        let alloc = *lines.allocator();
        Lines {
            lines,
            again: Vec::new(alloc),
            shared: Vec::new(alloc),
        }
    }

    /// The same lines, without room that isn't used. `AllocError`
    /// where the smaller room is refused.
    pub fn fitted(self) -> Result<Lines, AllocError>
        ensures { IfOk result (λ fitted. fitted ≡ self) }
    {
        let Lines {
            mut lines,
            mut again,
            mut shared,
        } = self;
        lines.shrink_to_fit();
        again.shrink_to_fit();
        shared.shrink_to_fit();
        if lines.len() < lines.capacity()
            || again.len() < again.capacity()
            || shared.len() < shared.capacity()
        {
            return Err(AllocError);
        }
        Ok(Lines {
            lines,
            again,
            shared,
        })
    }

    /// Puts a line behind them. `AllocError` where memory is refused: then they stay as they were.
    pub fn push(&mut self, line: Line) -> Result<(), AllocError>
        ensures more { OnOk result (self.new ≡ self.old ++ line ∷ []) }
        ensures refused { OnErr result (self.new ≡ self.old) }
    {
        self.lines.push(line)?;
        Ok(())
    }

    /// Puts the last line behind them once more, if there is one. `AllocError` where memory is
    /// refused: then they stay as they were.
    pub fn push_again(&mut self) -> Result<(), AllocError>
        ensures more { (last : LineFacts) → slice_get self.old (length self.old - 1) ≡ Some last
            → OnOk result (self.new ≡ self.old ++ last ∷ []) }
        ensures none { self.old ≡ [] → (self.new ≡ []) × IsOk result }
        ensures refused { OnErr result (self.new ≡ self.old) }
    {
        let Some(last) = self.lines.last() else {
            return Ok(());
        };
        let line = last.again()?;
        self.again.reserve(1)?;
        let at = self.lines.len();
        self.lines.push(line)?;
        if at <= usize::from(u8::MAX) {
            self.again.push_reserved(at as u8);
        }
        Ok(())
    }

    /// Puts the paths of the line at a place behind them under this field, if there is one.
    /// `AllocError` where memory is refused: then they stay as they were.
    pub fn push_headed(&mut self, earlier: usize, field: Field) -> Result<(), AllocError>
        ensures more { (line : LineFacts) → slice_get self.old earlier ≡ Some line
            → OnOk result (self.new
            ≡ self.old ++ record { field = field; nodes = line.nodes } ∷ []) }
        ensures none { slice_get self.old earlier ≡ None → (self.new ≡ self.old) × IsOk result }
        ensures refused { OnErr result (self.new ≡ self.old) }
    {
        let Some(line) = self.lines.get(earlier) else {
            return Ok(());
        };
        let line = line.headed(field)?;
        self.shared.reserve(1)?;
        let later = self.lines.len();
        self.lines.push(line)?;
        if later <= usize::from(u8::MAX) {
            self.shared.push_reserved(SharedPaths {
                earlier: earlier as u8,
                later: later as u8,
            });
        }
        Ok(())
    }

    /// The lines, that for the first place or offer first.
    pub fn as_slice(&self) -> &[Line]
        ensures { result.now ≡ self.now }
    {
        &self.lines
    }

    /// The places of some lines that are the one before once more. They ascend, of which nothing is
    /// promised.
    pub fn again(&self) -> &[u8]
        ensures { All (IsAgain self.now) result.now }
    {
        &self.again
    }

    /// The places of some lines that have the paths of an earlier one. The later ones ascend, of
    /// which nothing is promised.
    pub fn shared(&self) -> &[SharedPaths]
        ensures { All (SharePaths self.now) result.now }
    {
        &self.shared
    }
}
