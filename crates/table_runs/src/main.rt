// Runs the calls on the steps of steps.rt, and prints what tools/table_runs.py worked out apart from the code: of each
// step its kind, the last reply, the distances of all its calls together, and both sizes of every bucket.
#![tactic(auto)]

mod steps;

use metric_rules::{Profile, ROW_WIDTH, Row, Weights};
use search_rules::Entry;
use std::{fmt, io};
use steps::STEPS;
use table_rules::{Added, Removed, Searched};
use table_views::{BUILT_AT, LIVE_AT, ORDER_AT};

// Country 36.
const COUNTRY: u64 = 36_000_000_000_000;

// The weights of every table.
const WEIGHTS: Weights = Weights {
    each: [10, 1, 100, 0],
};

// The rows of a table of order 12, the largest.
const TABLE_ROWS: usize = 8205;

const WORK_ROWS: usize = 4096;

const MOST_ORDER: u32 = 12;

// A step: a fresh table of an order and a metric; adds or removals, by the first national and their number; a range
// from a day on with the largest radius; the nearest from a day on, so many.
#[derive(Clone, Copy)]
pub enum Step {
    Fresh(u32, u32),
    Add(u32, u32),
    Remove(u32, u32),
    Range(u32),
    Nearest(u32, u32),
}

impl Step {
    // The number that is printed for its kind.
    fn kind(self) -> u32 {
        match self {
            Step::Fresh(_, _) => 0,
            Step::Add(_, _) => 1,
            Step::Remove(_, _) => 2,
            Step::Range(_) => 3,
            Step::Nearest(_, _) => 4,
        }
    }
}

// What is printed of a step: its last reply, and the distances of all its calls if it is of changes.
#[derive(Clone, Copy, Default)]
pub struct Last {
    pub refusal: u32,
    pub second: u32,
    pub distances: u32,
    pub total: u64,
}

impl Last {
    // This reply, after calls of so many distances.
    fn after(self, so_far: u64) -> Last {
        Last {
            total: so_far.wrapping_add(u64::from(self.distances)),
            ..self
        }
    }
}

impl From<Added> for Last {
    fn from(reply: Added) -> Last {
        Last {
            refusal: reply.refusal,
            second: reply.bucket,
            distances: reply.distances,
            total: 0,
        }
    }
}

impl From<Removed> for Last {
    fn from(reply: Removed) -> Last {
        Last {
            refusal: reply.refusal,
            second: 0,
            distances: reply.distances,
            total: 0,
        }
    }
}

impl From<Searched> for Last {
    fn from(reply: Searched) -> Last {
        Last {
            refusal: reply.refusal,
            second: reply.found,
            distances: reply.distances,
            total: 0,
        }
    }
}

impl fmt::Display for Last {
    fn fmt<W: fmt::Write>(&self, f: &mut fmt::Formatter<W>) -> fmt::Result {
        write!(
            f,
            "{} {} {} {}",
            self.refusal, self.second, self.distances, self.total
        )
    }
}

fn tag_at(national: u32) -> u64 {
    COUNTRY + u64::from(national)
}

// A number as a day; every one here is of 16 bits.
fn day_at(n: u32) -> u16 {
    (n % 0x1_0000) as u16
}

// Profiles that differ in measures and in codes, with ties among them.
fn profile_at(national: u32) -> Profile {
    let n = u64::from(national);
    Profile {
        measures: [
            (national % 97) as i32,
            (national % 31) as i32,
            (national / 97 % 7) as i32,
            0,
        ],
        code: [n % 4096 * 0x1_0001, n / 16 % 256],
    }
}

// So many calls, each with the next national.
fn change<F: FnMut(u32) -> Last>(first: u32, count: u32, mut call: F) -> Last
    requires { F.IsAlwaysCallable call }
{
    let mut last = Last::default();
    for i in 0..count {
        last = call(first.wrapping_add(i)).after(last.total);
    }
    last
}

fn perform(table: &mut [Row], work: &mut [Row], res: &mut [Entry], step: Step) -> Last {
    match step {
        Step::Fresh(order, metric) => Last {
            refusal: vpindex::vpindex_fresh(table, order, metric, WEIGHTS),
            ..Last::default()
        },
        Step::Add(first, count) => change(first, count, |n| {
            vpindex::vpindex_add(table, work, tag_at(n), profile_at(n), day_at(n)).into()
        }),
        Step::Remove(first, count) => change(first, count, |n| {
            vpindex::vpindex_remove(table, work, tag_at(n)).into()
        }),
        Step::Range(first_day) => {
            vpindex::vpindex_range(table, res, profile_at(0), u32::MAX, day_at(first_day)).into()
        }
        Step::Nearest(first_day, k) => {
            vpindex::vpindex_nearest(table, res, profile_at(0), k, day_at(first_day)).into()
        }
    }
}

// Built and live of each bucket. A header row that shows no order counts as that of the largest.
fn print_sizes(rt: &impl Print, table: &[Row]) -> io::Result<()> {
    let Some((header, sizes)) = table.split_first() else {
        return Ok(());
    };
    let last = header[ORDER_AT].min(MOST_ORDER) as usize;
    for row in sizes.iter().take(last + 1) {
        print!(rt; " {} {}", row[BUILT_AT], row[LIVE_AT])?;
    }
    Ok(())
}

fn run(rt: &impl Print, table: &mut [Row], work: &mut [Row], res: &mut [Entry]) -> io::Result<()> {
    for step in STEPS {
        let last = perform(table, work, res, step);
        print!(rt; "{} {last}", step.kind())?;
        print_sizes(rt, table)?;
        println!(rt)?;
    }
    Ok(())
}

fn main(rt: HostRuntime) -> io::Result<()> {
    let mut table = [[0u32; ROW_WIDTH]; TABLE_ROWS];
    let mut work = [[0u32; ROW_WIDTH]; WORK_ROWS];
    let mut result = [[0u64; 2]; WORK_ROWS];
    run(&rt, &mut table, &mut work, &mut result)
}
