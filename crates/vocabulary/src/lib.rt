// The names of the kit that the house's definitions and proofs use, in one place. No code: specs/ passes them on.
#![tactic(auto)]
