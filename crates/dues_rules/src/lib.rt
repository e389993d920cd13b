#![tactic(auto)]

// Yard dues: what a list of tags replies. No function.

// RULES 14.1: the number of the dues' own refusal, as C's reply has it (`Refusal` of the crate refusals).
pub const NO_DUES: u32 = 39;

// RULES 20.5: the sum of what the list pays, in cents. The reply is C's, with a refusal's number beside it.
#[repr(C)]
#[derive(Clone, Copy)]
pub struct Dues {
    pub refusal: u32,
    pub total: u64,
}
