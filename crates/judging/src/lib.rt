// The tests of the table, each once, and the searches they rest on: document 01, "Numbers given when a sheet is turned
// back".
#![tactic(auto)]

mod search;
mod tests;

pub use tests::{
    check_angles, check_fixed, check_fixed_sum, check_lengths, check_limit_or_tolerance,
    check_misclosures, check_results, check_rounds, check_sine_entries, check_squares,
};
