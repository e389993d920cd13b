// Runs the metric crate on the vectors of vectors.rt, and prints what tools/metric_vectors.py worked out apart from it.
#![tactic(auto)]

mod vectors;

use metric_rules::{Profile, Row};
use std::{fmt, io};
use vectors::{NEAR_TAGS, OBJECTS};

// The fields of an object, and the row of the same object.
#[derive(Clone, Copy)]
pub struct Object {
    pub tag: u64,
    pub profile: Profile,
    pub threshold: u32,
    pub mark: u32,
    pub day: u32,
    pub row: Row,
}

// A number that is no metric: a distance reads it as 2.
const NO_METRIC: u32 = 0xffff_ffff;

const ONES: [u32; 4] = [1, 1, 1, 1];

// With the first a difference of 2^31 is the least that saturates, and of 2^31 - 1 the largest that does not.
const WEIGHTS: [[u32; 4]; 3] = [[2, 1, 1, 1], [3, 0, 100, 1], [100, 100, 100, 100]];

fn print_words(rt: &impl Print, row: Row) -> io::Result<()> {
    print!(rt; "{:08x}", row[0])?;
    for word in &row[1..] {
        print!(rt; " {word:08x}")?;
    }
    println!(rt)
}

// The row of an object's fields; then the fields of its row in the table, and whether its tag and its measures are
// valid.
fn print_object(rt: &impl Print, object: Object) -> io::Result<()> {
    let Object {
        tag,
        profile,
        threshold,
        mark,
        day,
        row,
    } = object;
    print_words(rt, row_store::row_of(tag, profile, threshold, mark, day))?;
    print!(rt; "{}", rows::tag_of(row))?;
    let found = rows::profile_of(row);
    for (measure, expected) in found.measures.iter().zip(&profile.measures) {
        print!(rt; " {}", u8::from(measure == expected))?;
    }
    let [first, second] = found.code;
    print!(rt; " {first:016x} {second:016x}")?;
    print!(rt;
        " {} {} {}",
        rows::threshold_of(row),
        rows::mark_of(row),
        rows::day_of(row)
    )?;
    let valid = validity::valid_measures(profile);
    println!(rt;
        " {} {}",
        u8::from(validity::valid_tag(tag)),
        u8::from(valid)
    )
}

fn print_objects(rt: &impl Print) -> io::Result<()> {
    for object in OBJECTS {
        print_object(rt, object)?;
    }
    Ok(())
}

// The distance of two rows by a metric's number and these weights.
fn distance(metric: u32, weights: [u32; 4], a: Row, b: Row) -> u32 {
    let [first, second, third, fourth] = weights;
    let header = [0, metric, first, second, third, fourth, 0, 0, 0, 0, 0, 0, 0];
    metric::distance_between(&header, a, b)
}

// The distances of two rows by each metric.
#[derive(Clone, Copy)]
struct Distances {
    sum: u32,
    code: u32,
    largest: u32,
}

impl Distances {
    fn between(weights: [u32; 4], a: Row, b: Row) -> Distances {
        Distances {
            sum: distance(0, weights, a, b),
            code: distance(1, weights, a, b),
            largest: distance(2, weights, a, b),
        }
    }
}

impl fmt::Display for Distances {
    fn fmt<W: fmt::Write>(&self, f: &mut fmt::Formatter<W>) -> fmt::Result {
        let Distances { sum, code, largest } = *self;
        write!(f, "{sum} {code} {largest}")
    }
}

// The distances of two objects: by each metric and by a number that is none, then from a row to a query as a search
// makes it a row, then with other weights.
fn print_pair(rt: &impl Print, a: Object, b: Object) -> io::Result<()> {
    let query = row_store::row_of(0, b.profile, 0, 0, 0);
    let none = distance(NO_METRIC, ONES, a.row, b.row);
    print!(rt; "{} {none}", Distances::between(ONES, a.row, b.row))?;
    print!(rt; " {}", Distances::between(ONES, a.row, query))?;
    for weights in WEIGHTS {
        print!(rt; " {}", Distances::between(weights, a.row, b.row))?;
    }
    println!(rt)
}

// The object at a place, the first again behind the last.
fn object_at(i: usize) -> Object {
    OBJECTS[i % OBJECTS.len()]
}

fn print_distances(rt: &impl Print) -> io::Result<()> {
    for i in 0..OBJECTS.len() {
        print_pair(rt, object_at(i), object_at(i))?;
        print_pair(rt, object_at(i), object_at(i + 1))?;
        print_pair(rt, object_at(i), object_at(i + 5))?;
        print_pair(rt, object_at(i), object_at(i + 11))?;
    }
    Ok(())
}

fn print_tags(rt: &impl Print) -> io::Result<()> {
    for tag in NEAR_TAGS {
        println!(rt; "{tag} {}", u8::from(validity::valid_tag(tag)))?;
    }
    Ok(())
}

fn main(rt: HostRuntime) -> io::Result<()> {
    print_objects(&rt)?;
    print_distances(&rt)?;
    print_tags(&rt)
}
