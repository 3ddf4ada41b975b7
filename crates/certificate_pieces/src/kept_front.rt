//! The text before the paths of a line.

ghost use Rattle.std.specs.Prelude.{◌≡◌, false, IsTrue};
ghost use Rattle.certificate_pieces.specs.Telling.{IsEmpty};
ghost use Rattle.certificate_pieces.specs.Texts.{line_front};

use crate::full::Full;
use crate::piece::Piece;
use std::alloc::{AllocError, Global};
use std::marker::Model;
use sysmem_counts::Field;

/// The text before the paths of a line with the field that was told last.
#[derive(Drop)]
pub(crate) struct KeptFront {
    field: Option<Field>,
    text: Piece,
}

impl Model for KeptFront {
    ghost use Rattle.std.specs.Prelude.{ℕ, List};
    ghost use Rattle.certificate_pieces.specs.Keeping.{IsOfField};

    ghost Value = { List ℕ };

    ghost view = { λ k. k.text.waiting.items };

    ghost invariant = { IsOfField };
}

impl KeptFront {
    /// Of no field. Room for the text is taken, and no more later.
    pub(crate) fn new(alloc: Global) -> Result<KeptFront, AllocError> {
        Ok(KeptFront {
            field: None,
            text: Piece::new(alloc)?,
        })
    }

    /// Whether the text for this field is kept now. It isn't if it is too long.
    pub(crate) fn keeps(&mut self, field: Field) -> bool
        ensures { IsTrue result → self.new ≡ line_front field }
    {
        if self.has(field) {
            return true;
        }
        self.field = None;
        self.text.clear();
        put_front(&mut self.text, field);
        if self.text.is_failed() {
            return false;
        }
        self.field = Some(field);
        true
    }

    /// Whether the text for this field is kept.
    pub(crate) fn has(&self, field: Field) -> bool
        ensures { IsTrue result → self.now ≡ line_front field }
    {
        match self.field {
            Some(kept) => kept == field,
            None => false,
        }
    }

    /// The text that is kept.
    pub(crate) fn text(&self) -> &[u8]
        ensures { result.now ≡ self.now }
    {
        self.text.waiting()
    }
}

/// Tells the text before the paths of a line with this field, as far as there is room for it.
fn put_front(out: &mut Piece, field: Field)
    requires { IsEmpty out.old }
    ensures { out.new.is_failed ≡ false → out.new.waiting.items ≡ line_front field }
{
    let mut full = Full::new();
    out.put(&mut full, b"{\"field\":\"");
    out.put(&mut full, field.name().as_bytes());
    out.put(&mut full, b"\",\"nodes\":");
}
