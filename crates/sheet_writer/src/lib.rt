// The writer of packed sheets: document 01, "Packed sheets". The bytes of a sheet and when values are turned back are definitions of
// `sheet_rules`.
#![tactic(auto)]

mod packer;
mod write;

pub use write::write_sheet;
