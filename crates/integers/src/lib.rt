// The ring of the whole numbers, for the proofs of the crates above: its laws, a solver for identities and for what
// follows linearly from equations, the sizes of what code computes, and greatest common divisors. It has no code.
#![tactic(auto)]
