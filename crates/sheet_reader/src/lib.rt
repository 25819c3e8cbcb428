// The reader of packed sheets: document 01, "Packed sheets". What a sheet holds and when it is turned back are definitions of
// `sheet_rules`.
#![tactic(auto)]

mod columns;
mod read;
mod values;

pub use read::{read_body, read_sheet};
