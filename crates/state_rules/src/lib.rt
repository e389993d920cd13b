#![tactic(auto)]

// Named states: a snapshot of a table under each of eight names, all in one area of bytes. No function.

// RULES 14.1: the numbers of their own refusals, as C's replies have them (`Refusal` of the crate refusals).
pub const BAD_NAME: u32 = 34;

pub const NOT_SAVED: u32 = 35;

// The bytes of the length that a snapshot begins with.
pub const LENGTH_BYTES: usize = 4;
