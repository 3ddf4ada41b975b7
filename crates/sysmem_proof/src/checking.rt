//! Whether what comes with a verdict proves it: the first test that fails.

mod asked_of_nodes;
mod checker;
mod choice_faults;
mod conflict_faults;
mod earlier_faults;
mod fixed_faults;
mod line_faults;
mod line_tests;
mod members;
mod names;
mod offer_faults;
mod offer_lines;
mod offers_before;
mod place_lines;
mod places_before;
mod reading;
mod refutation_faults;
mod settings_faults;

pub(crate) use checker::Checker;
pub(crate) use choice_faults::choice_fault;
pub(crate) use refutation_faults::refutation_fault;
