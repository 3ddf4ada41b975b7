//! The words of scripts, and what they do: actions on a node, and constraints to set.

use negotiation_inputs::{Constraints, Platform};
use record_reading::read_platform;
use serde_json::Value;
use std::alloc::Global;
use std::process::Abort;
use std::sync::Arc;
use sysmem_sanitise::read_constraints;
use sysmem_tree::{Action, ActionKind};

const PLATFORM: &str =
    r#"{"heaps":[{"heap_type":"ram","domains":["cpu","ram"]},{"heap_type":"cma","contiguous":true,"domains":["cpu","ram"]},{"heap_type":"vault","contiguous":true,"secure":true,"domains":["inaccessible"]}],"pairs":[{"pixel_format":"B8G8R8A8"},{"pixel_format":"B8G8R8A8","pixel_format_modifier":"INTEL_I915_X_TILED"},{"pixel_format":"NV12"},{"pixel_format":"R8"},{"pixel_format":"R8G8B8A8"}],"color_spaces":["SRGB","REC709"]}"#;

// Eight pairs and eight colour spaces: with them a search through 4,096 selections takes so long
// that it is shared.
const MANY_OFFERS: &str =
    r#"{"heaps":[{"heap_type":"ram","domains":["cpu"]}],"pairs":[{"pixel_format":"R8G8B8A8"},{"pixel_format":"B8G8R8A8"},{"pixel_format":"R8G8B8"},{"pixel_format":"B8G8R8"},{"pixel_format":"R5G6B5"},{"pixel_format":"R8G8"},{"pixel_format":"R8"},{"pixel_format":"NV12"}],"color_spaces":["SRGB","REC601_NTSC","REC601_NTSC_FULL_RANGE","REC601_PAL","REC601_PAL_FULL_RANGE","REC709","REC2020","REC2100"]}"#;

// What participants ask for, by the words for it.
const ASKED: &[(&str, &str)] = &[
    (
        "any",
        r#"{"usage":["video"],"image_format_constraints":[{"pixel_format":"DO_NOT_CARE","color_spaces":["DO_NOT_CARE"]}]}"#,
    ),
    (
        "nv12",
        r#"{"usage":["video"],"image_format_constraints":[{"pixel_format":"NV12","color_spaces":["SRGB"]}]}"#,
    ),
    (
        "r8",
        r#"{"usage":["video"],"image_format_constraints":[{"pixel_format":"R8","color_spaces":["SRGB"]}]}"#,
    ),
    (
        "r8g8b8a8",
        r#"{"usage":["video"],"image_format_constraints":[{"pixel_format":"R8G8B8A8","color_spaces":["SRGB"]}]}"#,
    ),
    (
        "r8_or_nv12",
        r#"{"usage":["video"],"image_format_constraints":[{"pixel_format":"R8","color_spaces":["REC709","SRGB"],"min_bytes_per_row":100},{"pixel_format":"NV12","color_spaces":["DO_NOT_CARE"],"bytes_per_row_divisor":48}]}"#,
    ),
    (
        "three_r8",
        r#"{"usage":["video"],"min_buffer_count":3,"image_format_constraints":[{"pixel_format":"R8","color_spaces":["REC709"]}]}"#,
    ),
    (
        "short_rows",
        r#"{"usage":["video"],"image_format_constraints":[{"pixel_format":"DO_NOT_CARE","color_spaces":["REC709"],"bytes_per_row_divisor":64,"max_bytes_per_row":128}]}"#,
    ),
    ("cpu", r#"{"usage":["cpu"]}"#),
    (
        "never",
        r#"{"usage":["cpu"],"min_buffer_count":2,"max_buffer_count":1}"#,
    ),
    ("at_most_90", r#"{"usage":["cpu"],"max_buffer_count":90}"#),
    (
        "camps_on_1",
        r#"{"usage":["cpu"],"min_buffer_count_for_camping":1}"#,
    ),
    (
        "camps_on_2",
        r#"{"usage":["cpu"],"min_buffer_count_for_camping":2}"#,
    ),
    (
        "camps_on_2_and_slack",
        r#"{"usage":["cpu"],"min_buffer_count_for_camping":2,"min_buffer_count_for_shared_slack":1}"#,
    ),
    (
        "camps_on_3",
        r#"{"usage":["cpu"],"min_buffer_count_for_camping":3,"min_buffer_count_for_dedicated_slack":1,"min_buffer_count_for_shared_slack":2,"min_buffer_count":9}"#,
    ),
    (
        "camps_on_3_and_slack",
        r#"{"usage":["cpu"],"min_buffer_count_for_camping":3,"min_buffer_count_for_dedicated_slack":1,"min_buffer_count_for_shared_slack":2}"#,
    ),
    (
        "camps_on_40",
        r#"{"usage":["cpu"],"min_buffer_count_for_camping":40}"#,
    ),
];

fn platform_of(rt: &impl Abort, alloc: Global, text: &str) -> Platform {
    let record = Value::from_str(alloc, text).expect(rt, text);
    read_platform(alloc, &record).expect(rt, text)
}

/// The platform of all scripts: three heaps, five pairs, two colour spaces.
pub(crate) fn platform(rt: &impl Abort, alloc: Global) -> Platform {
    platform_of(rt, alloc, PLATFORM)
}

/// A platform of many offers, for which a search is long.
pub(crate) fn large_platform(rt: &impl Abort, alloc: Global) -> Platform {
    platform_of(rt, alloc, MANY_OFFERS)
}

fn record_for(word: &str) -> Option<&'static str> {
    for (name, record) in ASKED {
        if *name == word {
            return Some(*record);
        }
    }
    None
}

/// The constraints for which the word stands.
pub(crate) fn asked(rt: &impl Abort, alloc: Global, word: &str) -> Arc<Constraints> {
    let text = record_for(word).expect(rt, word);
    let record = Value::from_str(alloc, text).expect(rt, word);
    let constraints = read_constraints(alloc, &record).expect(rt, word);
    Arc::new(alloc, constraints).expect(rt, word)
}

/// What a word does to a node; one that names no action names the constraints that are set.
pub(crate) fn action(rt: &impl Abort, alloc: Global, word: &str) -> Action {
    match ActionKind::from_name(word) {
        Some(kind) if kind != ActionKind::SetConstraints => Action::plain(kind),
        _ => Action::SetConstraints(Some(asked(rt, alloc, word))),
    }
}
