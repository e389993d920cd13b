#![tactic(auto)]

// Lots: what the drafting of a table by a list of radii names. No function.

// RULES 14.1: the number of the drafting's own refusal, as C has it (`Refusal` of the crate refusals).
pub const BAD_RADII: u32 = 41;

// RULES 21.4: how many radii a call may give.
pub const MOST_RADII: usize = 32;

// RULES 21.5, an entry of the summary: the number of lots by a radius, and the size of the largest. It stays an array
// of two words, as C lends the area.
pub type Summary = [u32; 2];
