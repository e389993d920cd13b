#![tactic(auto)]

// What the proofs by hand share: a struct in a local that is lent by `&mut` to a call, and comes back. No function.
