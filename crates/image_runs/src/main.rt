// Loads damaged images and prints the replies that tools/image_runs.py worked out apart from the code: a sound image of
// each form cut at every length, into a table one row short and into one of the rows that it needs, and with each of
// its bits flipped, that of form 2 by each metric. An accepted image is written again: `=` where its bytes come back,
// `+` where those of its translation to form 2 do.
#![tactic(auto)]

mod bytes;

use bytes::{FORM_0, FORM_1, FORM_2, LENGTH};
use metric_rules::{ROW_WIDTH, Row};
use std::io;

// The rows of a table of order 2.
const ROWS: usize = 11;

const SHORT_ROWS: usize = 10;

// The metric's byte in an image, and how many bytes order and metric take.
const METRIC_AT: usize = 1;

const START: usize = 2;

// What follows in form 2, and the weights of form 0, which has none.
const FORM: [u8; 2] = [2, 0];

const ONES: [u8; 4] = [1, 1, 1, 1];

// The day of a record of an older form, which has none.
const DAY: [u8; 2] = [1, 0];

// The bytes of a record in form 2, of the seven, and of both in an older form.
const RECORD: usize = 42;

const RECORDS: usize = 294;

const OLDER_RECORD: usize = 40;

const OLDER_RECORDS: usize = 280;

const BITS: [u8; 8] = [1, 2, 4, 8, 16, 32, 64, 128];

// Whether the first is a record of form 2, and the second the same record in an older form, which has day 1.
fn is_record(written: &[u8], older: &[u8]) -> bool {
    written
        .strip_suffix(&DAY)
        .is_some_and(|words| words == older)
}

// The same of all seven.
fn are_records(written: &[u8], older: &[u8]) -> bool {
    let mut pairs = written.chunks(RECORD).zip(older.chunks(OLDER_RECORD));
    written.len() == RECORDS
        && older.len() == OLDER_RECORDS
        && pairs.all(|(record, older)| is_record(record, older))
}

// The records of both, where the first begins as the translation of an image in an older form does: with the image's
// order and metric, then form 2, these weights, and the image's sizes and tags.
fn records_of<'a>(
    written: &'a [u8],
    image: &'a [u8],
    weights: &[u8],
) -> Option<(&'a [u8], &'a [u8])> {
    let (start, rest) = image.split_at_checked(START)?;
    let (_, rest) = rest.split_at_checked(FORM.len())?;
    let (front, older) = rest.split_at_checked(rest.len().checked_sub(OLDER_RECORDS)?)?;
    let behind_form = written.strip_prefix(start)?.strip_prefix(&FORM)?;
    Some((
        behind_form.strip_prefix(weights)?.strip_prefix(front)?,
        older,
    ))
}

// Whether bytes are the translation to form 2 of an image in an older form: in form 1 the weights are the image's own.
fn is_translation(written: &[u8], image: &[u8], weights: &[u8]) -> bool {
    records_of(written, image, weights).is_some_and(|(records, older)| are_records(records, older))
}

// How the table, written, gives these bytes back.
fn mark(table: &[Row], image: &[u8]) -> char {
    let mut area = [0u8; LENGTH];
    let length = vpindex::vpindex_write(table, &mut area).length as usize;
    let Some(written) = area.get(..length) else {
        return '!';
    };
    if written == image {
        '='
    } else if is_translation(written, image, &ONES) || is_translation(written, image, &[]) {
        '+'
    } else {
        '!'
    }
}

// The refusal, with the slot behind a colon where it is not 0.
fn print_reply(rt: &impl Print, table: &mut [Row], image: &[u8]) -> io::Result<()> {
    let reply = vpindex::vpindex_load(table, image);
    print!(rt; " {}", reply.refusal)?;
    if reply.slot != 0 {
        print!(rt; ":{}", reply.slot)?;
    }
    if reply.refusal == 0 {
        print!(rt; "{}", mark(table, image))?;
    }
    Ok(())
}

// The replies to the first n bytes.
fn print_cut(rt: &impl Print, bytes: &[u8], n: usize) -> io::Result<()> {
    let mut short = [[0u32; ROW_WIDTH]; SHORT_ROWS];
    let mut table = [[0u32; ROW_WIDTH]; ROWS];
    if let Some(image) = bytes.get(..n) {
        print_reply(rt, &mut short, image)?;
        print_reply(rt, &mut table, image)?;
    }
    Ok(())
}

// An image, with the byte behind it, cut at every length.
fn print_cuts(rt: &impl Print, bytes: &[u8]) -> io::Result<()> {
    for n in 0..=bytes.len() {
        print!(rt; "{n}")?;
        print_cut(rt, bytes, n)?;
        println!(rt)?;
    }
    Ok(())
}

// The reply to an image, without the byte behind it, with one bit of one byte flipped.
fn print_flip<const N: usize>(
    rt: &impl Print,
    sound: [u8; N],
    at: usize,
    bit: u8,
) -> io::Result<()> {
    let mut table = [[0u32; ROW_WIDTH]; ROWS];
    let mut bytes = sound;
    if let Some(byte) = bytes.get_mut(at) {
        *byte ^= bit;
    }
    if let Some((_, image)) = bytes.split_last() {
        print_reply(rt, &mut table, image)?;
    }
    Ok(())
}

fn print_byte<const N: usize>(rt: &impl Print, sound: [u8; N], at: usize) -> io::Result<()> {
    print!(rt; "{at}")?;
    for bit in BITS {
        print_flip(rt, sound, at, bit)?;
    }
    println!(rt)
}

// Of every byte of an image each bit flipped.
fn print_flips<const N: usize>(rt: &impl Print, sound: [u8; N]) -> io::Result<()> {
    for at in 0..N.saturating_sub(1) {
        print_byte(rt, sound, at)?;
    }
    Ok(())
}

fn print_flips_by(rt: &impl Print, metric: u8) -> io::Result<()> {
    let mut image = FORM_2;
    image[METRIC_AT] = metric;
    print_flips(rt, image)
}

fn main(rt: HostRuntime) -> io::Result<()> {
    print_cuts(&rt, &FORM_2)?;
    print_flips_by(&rt, 0)?;
    print_flips_by(&rt, 1)?;
    print_flips_by(&rt, 2)?;
    print_cuts(&rt, &FORM_1)?;
    print_flips(&rt, FORM_1)?;
    print_cuts(&rt, &FORM_0)?;
    print_flips(&rt, FORM_0)
}
