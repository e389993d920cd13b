#![tactic(auto)]

// The image of a table: the bytes it is written as, and the table that they load as.

// RULES 14.1: the numbers of the refusals that name a slot, as C's replies have them (`Refusal` of the crate refusals).
pub const DUPLICATE_TAG: u32 = 36;

pub const MISPLACED_ITEM: u32 = 37;

pub const BAD_THRESHOLD: u32 = 38;

// What has the same number of bytes in every form of an image that has it: its start, the weights, a size, the two
// sizes of a bucket, and a slot's tag.
pub const START_BYTES: usize = 4;

pub const WEIGHT_BYTES: usize = 4;

pub const SIZE_BYTES: usize = 2;

pub const PAIR_BYTES: usize = 2 * SIZE_BYTES;

pub const TAG_BYTES: usize = 8;

// The words of a row that are its tag, and behind them those of its record before the day.
pub const TAG_WORDS: usize = 2;

pub const RECORD_WORDS: usize = 10;

// Their bytes, and behind them those of the day, in a form that has it.
pub const RECORD_WORDS_BYTES: usize = 4 * RECORD_WORDS;

pub const DAY_BYTES: usize = 2;

// The replies are C's: a refusal's number stands beside what an accepted call replies.
#[repr(C)]
#[derive(Clone, Copy)]
pub struct Written {
    pub refusal: u32,
    pub length: u32,
}

#[repr(C)]
#[derive(Clone, Copy)]
pub struct Loaded {
    pub refusal: u32,
    pub slot: u32,
}
