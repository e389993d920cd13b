// Numbers, tags and records put into an area of bytes, each at its place. Every other byte is kept.
#![tactic(auto)]

ghost use Rattle.std.specs.Prelude.{◌≡◌, ◌+◌, ◌*◌, ◌≤◌, length, take, drop};
ghost use mathlib.Core.List.{map, flatten};
ghost use Rattle.std.proofs.lemmas.List.Edits.{sets};
ghost use Rattle.image_rules.specs.Bytes.{written_form, bytes_of, tag_fields, record_fields, bytes_of_fields, tag_bytes};
ghost use Rattle.image_rules.specs.Bytes.{record_bytes, tag_words};
ghost use Rattle.image_rules.specs.Write.{tags_of, records_of};

use image_form::Form;
use image_rules::{DAY_BYTES, RECORD_WORDS, RECORD_WORDS_BYTES, TAG_BYTES, TAG_WORDS};
use metric_rules::Row;
use rows::day_of;

// The bytes of a word.
const WORD_BYTES: usize = 4;

// The W lowest bytes of a number, lowest first, at a place: an image is a lent area in which each thing has its own.
pub fn put<const W: usize>(image: &mut [u8], at: usize, n: u32)
    requires { (W ≤ 4) × (at + W ≤ length image.old) }
    ensures { image.new ≡ sets image.old at (bytes_of W n) }
{
    for (i, byte) in n.to_le_bytes()[..W].iter().enumerate() {
        image[at + i] = *byte;
    }
}

// Words, one after the other.
fn put_words(image: &mut [u8], at: usize, words: &[u32])
    requires { at + 4 * length words.now ≤ length image.old }
    ensures { image.new ≡ sets image.old at (flatten (map (bytes_of 4) words.now)) }
{
    for (i, word) in words.iter().enumerate() {
        put::<WORD_BYTES>(image, at + WORD_BYTES * i, *word);
    }
}

fn put_tag(image: &mut [u8], at: usize, row: Row)
    requires { at + tag_bytes ≤ length image.old }
    ensures { image.new ≡ sets image.old at (bytes_of_fields tag_fields (take tag_words row)) }
{
    put_words(image, at, &row[..TAG_WORDS]);
}

// The record is put in the form that is written.
fn put_record(image: &mut [u8], at: usize, row: Row)
    requires { at + record_bytes written_form ≤ length image.old }
    ensures { image.new ≡ sets image.old at (bytes_of_fields (record_fields written_form) (drop tag_words row)) }
{
    put_words(image, at, &row[TAG_WORDS..TAG_WORDS + RECORD_WORDS]);
    put::<DAY_BYTES>(image, at + RECORD_WORDS_BYTES, day_of(row));
}

// The tags of some rows, one after the other, and their records.
pub fn put_tags(image: &mut [u8], at: usize, rows: &[Row])
    requires { at + length (tags_of rows.now) ≤ length image.old }
    ensures { image.new ≡ sets image.old at (tags_of rows.now) }
{
    for (i, row) in rows.iter().enumerate() {
        put_tag(image, at + TAG_BYTES * i, *row);
    }
}

pub fn put_records(image: &mut [u8], at: usize, rows: &[Row])
    requires { at + length (records_of written_form rows.now) ≤ length image.old }
    ensures { image.new ≡ sets image.old at (records_of written_form rows.now) }
{
    let width = Form::written().record_bytes();
    for (i, row) in rows.iter().enumerate() {
        put_record(image, at + width * i, *row);
    }
}
