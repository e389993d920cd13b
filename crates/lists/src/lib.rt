#![tactic(auto)]

// Plain lists: the operations that the rules are written with, and their laws. No function.
