//! Why structs say nothing.

ghost use Rattle.std.specs.Prelude.{◌≡◌, ◌++◌, ◌∷◌, [], OnOk};
ghost use Rattle.flat_negotiation.specs.declared.parts.unsaid.Unsaid.TheVariants.{NoMemory};

use std::alloc::AllocError;
use sysmem_counts::Field;

/// What is amiss in a list: an item, by its index, and the field of it.
#[derive(Clone, Copy, Debug)]
pub struct Amiss {
    pub index: usize,
    pub field: Field,
}

/// Why the parts of a list aren't there: memory was refused, or an item is amiss.
#[derive(Clone, Copy, Debug, Drop)]
pub enum Unsaid {
    NoMemory,
    Misstated(Amiss),
}

impl From<AllocError> for Unsaid {
    ghost from_gives = { λ _ unsaid. unsaid ≡ NoMemory };

    fn from(_: AllocError) -> Unsaid {
        Unsaid::NoMemory
    }
}

/// Adds an item at the end. It fails where memory is refused.
pub(crate) fn add<T: Drop>(items: &mut Vec<T>, item: T) -> Result<(), AllocError>
    ensures { OnOk result (items.new.items ≡ items.old.items ++ item ∷ []) }
{
    items.push(item)?;
    Ok(())
}
