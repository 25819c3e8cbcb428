// The steps that both passes share: document 01, "The two passes". Each is lent what it works on and answers every input: where a count is
// not the figure's own, nothing changes.
// What several functions require of a value, its length or its range, stays a premise of each: the values are slices that callers lend,
// and a type that holds them would be built and taken apart at each of these calls.
#![tactic(auto)]

mod conditions;
mod numerators;
mod results;
mod stores;

pub use conditions::condition_sums;
pub use numerators::numerators_into;
pub use results::results_into;
pub use stores::{store, store_rounds};
