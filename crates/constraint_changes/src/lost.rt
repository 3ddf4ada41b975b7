//! What other domains lose by changes.

use crate::trials::{Group, RestatedConstraints, restated};
use domain_reasons::Losses;
use script_story::Scenario;
use std::alloc::{AllocError, Global};

/// What other domains lose where calls state this, told so deep.
pub(crate) fn losses_by(
    alloc: Global,
    group: Group<'_, '_>,
    stated: &[RestatedConstraints],
    depth: usize,
) -> Result<Losses, AllocError> {
    let calls = restated(alloc, group.scenario.calls, stated)?;
    let other = Scenario {
        platform: &*group.scenario.platform,
        calls: &calls,
        effort: &*group.scenario.effort,
    };
    Losses::by(alloc, &other, group.document.value, group.story, depth)
}
