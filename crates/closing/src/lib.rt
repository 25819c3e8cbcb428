// A rounding that closes: document 02, M-104. Of each angle the whole tenth just below or just above its exact first correction, so that
// every rest is 0; and the check of any such choice. Ordinary rounding and both passes stay as they are.
// What several functions require of a value, its length or its range, stays a premise of each: the values are slices that callers lend,
// and a type that holds them would be built and taken apart at each of these calls.
#![tactic(auto)]

mod check;
mod choice;
mod directions;
mod exact;
mod operations;

pub use operations::{check_closing, closing_corrections};
