// The demands, and what the program prints, said of the promises of the public functions. No code: specs/ says them, proofs/ proves them.
#![tactic(auto)]
