//! The buffers that a participant asks for.

ghost use Rattle.std.specs.Prelude.{◌≡◌, OnOk};
ghost use Rattle.record_laws.specs.Ranges.{AreCounts};
ghost use Rattle.record_laws.specs.Sparse.{with_fields, counts_said};
ghost use Rattle.record_writing.specs.Growing.{fields_in};

use crate::fields::Fields;
use std::alloc::AllocError;
use sysmem_counts::{CountConstraints, Field};

/// Puts the five counts, each unless it is what an absent one stands for.
pub(crate) fn put_counts(fields: &mut Fields, counts: &CountConstraints) -> Result<(), AllocError>
    ensures put { OnOk result
        (fields_in fields.new ≡ with_fields (fields_in fields.old) (counts_said counts.now)) }
    ensures in_range { OnOk result (AreCounts counts.now) }
{
    let camping = counts.min_buffer_count_for_camping;
    let dedicated = counts.min_buffer_count_for_dedicated_slack;
    let shared = counts.min_buffer_count_for_shared_slack;
    fields.put_count(Field::MinBufferCountForCamping, camping, 0)?;
    fields.put_count(Field::MinBufferCountForDedicatedSlack, dedicated, 0)?;
    fields.put_count(Field::MinBufferCountForSharedSlack, shared, 0)?;
    fields.put_count(Field::MinBufferCount, counts.min_buffer_count, 0)?;
    Ok(fields.put_count(Field::MaxBufferCount, counts.max_buffer_count, u32::MAX)?)
}
