//! Collections through their handles, beside what was worked out by hand. These tests start threads
//! and wait.

mod gates;
mod handling;
mod limiting;
mod slots;
