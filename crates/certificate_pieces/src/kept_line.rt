//! The text of a line that comes again.

ghost use Rattle.std.specs.Prelude.{◌≡◌, false, IsTrue};
ghost use Rattle.certificate_pieces.specs.Telling.{IsEmpty};
ghost use Rattle.certificate_text.specs.Told.{line_data, paths_data};
ghost use Rattle.serde_json.specs.Written.{compact_text};

use crate::full::Full;
use crate::path::put_paths;
use crate::piece::Piece;
use std::alloc::{AllocError, Global};
use std::marker::Model;
use verdict_claims::Line;

/// The text of a line, and that of its paths, which lines of other fields may have too.
#[derive(Drop)]
pub(crate) struct KeptLine {
    line: Option<Line>,
    paths: Piece,
    text: Piece,
}

impl Model for KeptLine {
    ghost use Rattle.certificate_pieces.specs.Keeping.{IsOfLine, KeptTexts};

    ghost Value = { KeptTexts };

    ghost view = { λ k. record {
      paths = k.paths.waiting.items;
      text = k.text.waiting.items;
    } };

    ghost invariant = { IsOfLine };
}

impl KeptLine {
    pub(crate) fn new(alloc: Global) -> Result<KeptLine, AllocError> {
        Ok(KeptLine {
            line: None,
            paths: Piece::new(alloc)?,
            text: Piece::new(alloc)?,
        })
    }

    /// Whether the line's text is kept now. It isn't if it is too long. Where the text of its paths is
    /// known to be kept, these aren't compared.
    pub(crate) fn keeps(&mut self, line: &Line, has_paths: bool) -> bool
        requires { IsTrue has_paths → self.old.paths ≡ compact_text (paths_data line.now.nodes) }
        ensures text { IsTrue result → self.new.text ≡ compact_text (line_data line.now) }
        ensures paths { IsTrue result → self.new.paths ≡ compact_text (paths_data line.now.nodes) }
    {
        if !has_paths && !self.keeps_paths(line) {
            return false;
        }
        if self.has_field(line) {
            return true;
        }
        self.line = None;
        self.text.clear();
        put_around(&mut self.text, line, self.paths.waiting());
        if self.text.is_failed() {
            return false;
        }
        self.line = line.again().ok();
        true
    }

    /// Whether the text that is kept is of a line with this field: where the text of the paths is
    /// this line's, so is that.
    fn has_field(&self, line: &Line) -> bool
        ensures { IsTrue result → self.now.paths ≡ compact_text (paths_data line.now.nodes)
            → self.now.text ≡ compact_text (line_data line.now) }
    {
        match &self.line {
            Some(kept) => kept.field() == line.field(),
            None => false,
        }
    }

    /// Whether the text of the line's paths is kept now.
    fn keeps_paths(&mut self, line: &Line) -> bool
        ensures { IsTrue result → self.new.paths ≡ compact_text (paths_data line.now.nodes) }
    {
        if self.has_paths(line) {
            return true;
        }
        self.line = None;
        self.paths.clear();
        put_paths(&mut self.paths, &mut Full::new(), line.nodes());
        !self.paths.is_failed()
    }

    /// Whether the text of the line's paths is kept.
    fn has_paths(&self, line: &Line) -> bool
        ensures { IsTrue result → self.now.paths ≡ compact_text (paths_data line.now.nodes) }
    {
        match &self.line {
            Some(kept) => kept.nodes().is_same(line.nodes()),
            None => false,
        }
    }

    /// The text that is kept.
    pub(crate) fn text(&self) -> &[u8]
        ensures { result.now ≡ self.now.text }
    {
        self.text.waiting()
    }
}

/// Tells a line, of whose paths this is the text, as far as there is room for it.
fn put_around(out: &mut Piece, line: &Line, paths: &[u8])
    requires { IsEmpty out.old }
    ensures { out.new.is_failed ≡ false → paths.now ≡ compact_text (paths_data line.now.nodes)
        → out.new.waiting.items ≡ compact_text (line_data line.now) }
{
    let mut full = Full::new();
    out.put(&mut full, b"{\"field\":\"");
    out.put(&mut full, line.field().name().as_bytes());
    out.put(&mut full, b"\",\"nodes\":");
    out.put(&mut full, paths);
    out.put_byte(&mut full, b'}');
}
