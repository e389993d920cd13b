#![tactic(auto)]

// Whole conversations with the program, and the reference model that answers the same lines.
