//! What the participants ask for, and of which platform.

use crate::failure::Failure;
use negotiation_inputs::{Constraints, Platform};
use record_reading::read_platform;
use serde_json::Value;
use std::alloc::Global;
use std::sync::Arc;
use sysmem_sanitise::read_constraints;

pub(crate) const PLATFORM: &str =
    r#"{"heaps":[{"heap_type":"system_ram","domains":["cpu","ram"]},{"heap_type":"cma","contiguous":true,"domains":["cpu","ram"]}],"pairs":[{"pixel_format":"R8G8B8A8"},{"pixel_format":"NV12"},{"pixel_format":"YUY2"}],"color_spaces":["SRGB","REC709"]}"#;

/// The camera keeps four buffers, and leaves room up to ten for who comes later.
pub(crate) const CAMERA: &str =
    r#"{"usage":["video"],"min_buffer_count_for_camping":4,"min_buffer_count":10,"buffer_memory_constraints":{"physically_contiguous_required":true,"ram_domain_supported":true},"image_format_constraints":[{"pixel_format":"NV12","color_spaces":["REC709"],"min_size":{"width":1440,"height":1080},"bytes_per_row_divisor":64}]}"#;

/// The encoder keeps three, with one of slack.
pub(crate) const ENCODER: &str =
    r#"{"usage":["video"],"min_buffer_count_for_camping":3,"min_buffer_count_for_dedicated_slack":1,"buffer_memory_constraints":{"cpu_domain_supported":false,"ram_domain_supported":true},"image_format_constraints":[{"pixel_format":"NV12","color_spaces":["REC709"],"min_size":{"width":128,"height":128},"max_size":{"width":4096,"height":2304},"size_alignment":{"width":16,"height":16}}]}"#;

/// The recorder keeps two.
pub(crate) const RECORDER: &str =
    r#"{"usage":["video"],"min_buffer_count_for_camping":2,"buffer_memory_constraints":{"ram_domain_supported":true},"image_format_constraints":[{"pixel_format":"NV12","color_spaces":["REC709"]}]}"#;

/// The platform of a record.
pub(crate) fn platform(alloc: Global, text: &str) -> Result<Platform, Failure> {
    let Ok(record) = Value::from_str(alloc, text) else {
        return Err(Failure::NotJson);
    };
    Ok(read_platform(alloc, &record)?)
}

/// The constraints of a record.
pub(crate) fn asked(alloc: Global, text: &str) -> Result<Arc<Constraints>, Failure> {
    let Ok(record) = Value::from_str(alloc, text) else {
        return Err(Failure::NotJson);
    };
    let constraints = read_constraints(alloc, &record)?;
    Ok(Arc::new(alloc, constraints)?)
}
