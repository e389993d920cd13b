#![tactic(auto)]

// Herd lists: what the reading of one replies. No function.

// RULES 14.1: the numbers of the list's own refusals, as C's reply has them (`Refusal` of the crate refusals).
pub const BAD_LIST_HEADER: u32 = 30;

pub const BAD_LIST_LINE: u32 = 31;

// The reply is C's: a refusal's number stands beside what was added before it.
#[repr(C)]
#[derive(Clone, Copy)]
pub struct ListRead {
    pub refusal: u32,
    pub line: u32,
    pub added: u32,
    pub distances: u32,
}
