// The operations of the crates below for C, as a survey controller links them: slices lent as a pointer and a count, every answer one
// number (specs/Answer.antt). What a slice must be is the caller's to keep: the pointer valid for its count, and no two lent slices
// overlapping.
// Where a step gives a value besides the refusal, the refusal becomes the answer by a match: the C interface has no other way to hand it on.
#![tactic(auto)]

mod answer;
mod checking;
mod look;
mod read;
mod reporting;
mod rounding;
mod working;
mod write;

pub use checking::bienguloc_check_closing;
pub use look::bienguloc_look;
pub use read::bienguloc_read;
pub use reporting::bienguloc_report;
pub use rounding::bienguloc_closing;
pub use working::{bienguloc_first_pass, bienguloc_second_pass};
pub use write::bienguloc_write;
