// A table of buckets: its order and geometry, and what add, remove, look up, range and nearest reply.
#![tactic(auto)]

use metric_rules::Profile;

// RULES 14.1: the numbers of the refusals, as the replies that C reads have them; 0 is an accepted call. The code names
// them by the enum `Refusal` of the crate refusals.
pub const BAD_TAG: u32 = 1;

pub const BAD_MEASURE: u32 = 2;

pub const BAD_ORDER: u32 = 3;

pub const BAD_METRIC: u32 = 4;

pub const NO_COUNT: u32 = 5;

pub const NO_ROOM: u32 = 6;

pub const BAD_LENGTH: u32 = 7;

pub const BAD_IMAGE: u32 = 8;

pub const ALREADY_LIVE: u32 = 20;

pub const NOT_LIVE: u32 = 21;

pub const FULL: u32 = 22;

pub const SHORT_AREA: u32 = 23;

pub const BAD_TABLE: u32 = 24;

pub const BAD_WEIGHT: u32 = 32;

pub const BAD_DAY: u32 = 33;

// The replies are C's: a refusal's number stands beside what an accepted call replies.
#[repr(C)]
#[derive(Clone, Copy)]
pub struct Added {
    pub refusal: u32,
    pub bucket: u32,
    pub distances: u32,
}

#[repr(C)]
#[derive(Clone, Copy)]
pub struct Removed {
    pub refusal: u32,
    pub distances: u32,
}

#[repr(C)]
#[derive(Clone, Copy)]
pub struct LookedUp {
    pub refusal: u32,
    pub bucket: u32,
    pub profile: Profile,
    pub day: u32,
}

#[repr(C)]
#[derive(Clone, Copy)]
pub struct Searched {
    pub refusal: u32,
    pub found: u32,
    pub distances: u32,
}
