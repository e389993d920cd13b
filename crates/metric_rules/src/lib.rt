#![tactic(auto)]

// Profiles and rows: what the other crates' definitions and code name them by.

// How many words a slot's row has (`row_width` in the definitions, VPINDEX_ROW_WORDS in C), and the place of each: the
// tag's two, the four measures, the two of each code word, the threshold, the mark and the day.
pub const ROW_WIDTH: usize = 13;

pub const TAG_LOW: usize = 0;

pub const TAG_HIGH: usize = 1;

pub const MEASURE_0: usize = 2;

pub const MEASURE_1: usize = 3;

pub const MEASURE_2: usize = 4;

pub const MEASURE_3: usize = 5;

pub const CODE_0_LOW: usize = 6;

pub const CODE_0_HIGH: usize = 7;

pub const CODE_1_LOW: usize = 8;

pub const CODE_1_HIGH: usize = 9;

pub const THRESHOLD_AT: usize = 10;

pub const MARK_AT: usize = 11;

pub const DAY_AT: usize = 12;

// RULES 4.3: the places of the metric and of the four weights in a table's header row.
pub const METRIC_AT: usize = 1;

pub const WEIGHT_0: usize = 2;

pub const WEIGHT_1: usize = 3;

pub const WEIGHT_2: usize = 4;

pub const WEIGHT_3: usize = 5;

// A slot of a table: thirteen words of 32 bits. Every thirteen words are some slot. It stays an array, with a place for
// each word, since C lends whole tables as such words.
pub type Row = [u32; ROW_WIDTH];

// RULES 3.7: what the difference of each measure is multiplied by.
#[repr(C)]
#[derive(Clone, Copy)]
pub struct Weights {
    pub each: [u32; 4],
}

// Weights with which every measure counts as it is.
pub const WEIGHTS_ONE: Weights = Weights { each: [1, 1, 1, 1] };

// What a distance depends on, in one value: a table's metric and its weights. The metric stays a number, since a header
// row that is lent may have any: `distance` reads one that is no metric as 2.
#[derive(Clone, Copy)]
pub struct Space {
    pub metric: u32,
    pub weights: Weights,
}

// RULES 2.6: four measures in hundredths and the coat code, handed over as one value.
#[repr(C)]
#[derive(Clone, Copy)]
pub struct Profile {
    pub measures: [i32; 4],
    pub code: [u64; 2],
}
