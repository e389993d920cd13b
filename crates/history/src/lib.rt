#![tactic(auto)]

// Lists of calls on one table, and the reference model that is kept beside them.
