// The algebra behind factoring polynomials over finite fields by Berlekamp's method, over any type of scalars.
// This crate has no code: its definitions and theorems are cited by the crates above it.
#![tactic(auto)]
