#![tactic(auto)]

// The calls on a table, each with its arguments, the areas lent to it and what it leaves.
