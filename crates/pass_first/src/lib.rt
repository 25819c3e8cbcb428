// The first pass of document 01 over lent slices: every row in its order, the work in arrays of its own that are lent from step to step,
// and the stores last, so that a refusal changes nothing. Every loop ends at the figure's own count.
// What several functions require of a value, its length or its range, stays a premise of each: the values are slices that callers lend,
// and a type that holds them would be built and taken apart at each of these calls.
#![tactic(auto)]

mod corrections;
mod first;
mod misclosures;
mod quotients;

pub use first::{first_pass, first_pass_of};
