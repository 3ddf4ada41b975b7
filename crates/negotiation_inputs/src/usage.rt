//! What the buffers are used for.

ghost use Rattle.std.specs.Prelude.{◌≡◌};
ghost use Rattle.negotiation_inputs.specs.Usage.{is_usage};

use bitflags::Flags;
use sysmem_counts::Usage;

/// Whether some families are `none` alone, or others.
pub fn is_usage(usage: Usage) -> bool
    ensures { result ≡ is_usage usage }
{
    usage == Usage::NONE || (!usage.is_empty() && !usage.contains(Usage::NONE))
}
