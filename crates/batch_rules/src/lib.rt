#![tactic(auto)]

// Range for several queries in one call: what it replies. No function.

// RULES 11.12: at most so many queries.
pub const MOST_QUERIES: usize = 16;

// RULES 14.1: no query, or more than 16; the number as C's reply has it (`Refusal` of the crate refusals).
pub const BAD_BATCH: u32 = 40;

// The reply is C's: a refusal's number, and room for 16 queries however many were asked.
#[repr(C)]
#[derive(Clone, Copy)]
pub struct Ranges {
    pub refusal: u32,
    pub distances: u32,
    pub found: [u32; 16],
}
