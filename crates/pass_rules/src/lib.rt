// The method of both passes: document 01, "The two passes". What each gives and what holds of it are in the definitions
// and theorems; here are the lengths of a sheet's slices, and the rows of each order that need no work but a search.
#![tactic(auto)]

ghost use Rattle.std.specs.Prelude.{◌≡◌};
ghost use Rattle.pass_rules.specs.Pass.{in_force};

mod first;
mod second;

pub use first::{FirstInput, FirstRoom, check_first_given, first_result_lengths, limit_in_force};
pub use second::{
    SecondInput, SecondRoom, SineAnswer, check_second_given, second_result_lengths,
    tolerance_in_force,
};

// L or e in force: 0 stands for the default.
pub fn in_force(value: u32, default: u32) -> u32
    ensures { result ≡ in_force default value }
{
    if value == 0 { default } else { value }
}
