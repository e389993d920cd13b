// The image of a table put into an area of bytes: header, sizes, all tags, all records. The bytes after it are kept.
#![tactic(auto)]

ghost use Rattle.std.specs.Prelude.{◌≡◌, ◌++◌, ◌+◌, ◌≤◌, ◌<◌, ◌^◌, length, IfOk};
ghost use Rattle.std.proofs.lemmas.List.Edits.{sets};
ghost use Rattle.metric_rules.specs.Row.{word};
ghost use Rattle.metric_rules.specs.Distance.{space_of};
ghost use Rattle.table_rules.specs.Table.{built_of, live_of};
ghost use Rattle.image_rules.specs.Bytes.{written_form, bytes_of, bytes_of_fields, weight_fields, start_bytes, header_bytes};
ghost use Rattle.image_rules.specs.Bytes.{size_bytes, pair_bytes, sizes_end};
ghost use Rattle.image_rules.specs.Write.{header_bytes_of, sizes_of, tags_of, records_of, all_slots, image_of};
ghost use Rattle.image_rules.specs.Write.{write_refusal, write_reply, image_after_write};
ghost use Rattle.refusals.specs.Number.{refusal_in};

use image_form::Form;
use image_put::{put, put_records, put_tags};
use image_rules::{SIZE_BYTES, TAG_BYTES, Written};
use metric_rules::{METRIC_AT, Row, WEIGHT_0, WEIGHT_1, WEIGHT_2, WEIGHT_3};
use refusals::Refusal;
use table_checks::{Checked, read_check};
use table_views::{HEADER_ROW, ORDER_AT};

// The bytes of the form, behind order and metric.
const FORM_BYTES: usize = 2;

// A byte for each weight, behind the four of the start.
fn put_weights(image: &mut [u8], header: Row)
    requires { header_bytes written_form ≤ length image.old }
    ensures { image.new ≡ sets image.old start_bytes (bytes_of_fields (weight_fields written_form) (space_of header).weights.each) }
{
    put::<1>(image, 4, header[WEIGHT_0]);
    put::<1>(image, 5, header[WEIGHT_1]);
    put::<1>(image, 6, header[WEIGHT_2]);
    put::<1>(image, 7, header[WEIGHT_3]);
}

// Order, metric, form and weights.
fn put_header(image: &mut [u8], header: Row)
    requires { header_bytes written_form ≤ length image.old }
    ensures { image.new ≡ sets image.old 0 (header_bytes_of written_form (word header 0) (space_of header)) }
{
    put::<1>(image, 0, header[ORDER_AT]);
    put::<1>(image, 1, header[METRIC_AT]);
    put::<FORM_BYTES>(image, 2, Form::WRITTEN);
    put_weights(image, header);
}

// The sizes of a bucket.
fn put_pair(image: &mut [u8], at: usize, built: u32, live: u32)
    requires { at + pair_bytes ≤ length image.old }
    ensures { image.new ≡ sets image.old at (bytes_of size_bytes built ++ bytes_of size_bytes live) }
{
    put::<SIZE_BYTES>(image, at, built);
    put::<SIZE_BYTES>(image, at + SIZE_BYTES, live);
}

// Those of every bucket, behind the header.
fn put_sizes(image: &mut [u8], table: Checked<'_>)
    requires { sizes_end written_form table.order.t ≤ length image.old }
    ensures { let t = table.entry in
        let sizes = sizes_of t.order.t (built_of t.rows.now) (live_of t.rows.now) in
        image.new ≡ sets image.old (header_bytes written_form) sizes }
{
    let form = Form::written();
    for k in 0..table.order.buckets() {
        put_pair(image, form.sizes_at(k), table.built(k), table.live(k));
    }
}

// The slots of all buckets, one bucket after the other: their tags from one place on, and behind all of them their
// records from another on.
fn put_all_slots(image: &mut [u8], tags: usize, records: usize, table: Checked<'_>)
    requires apart { tags + length (tags_of (all_slots table.rows.now)) ≤ records }
    requires room { records + length (records_of written_form (all_slots table.rows.now)) ≤ length image.old }
    ensures { let slots = all_slots table.entry.rows.now in
        image.new ≡ sets (sets image.old tags (tags_of slots)) records (records_of written_form slots) }
{
    let form = Form::written();
    let width = form.record_bytes();
    let mut tag_at = tags;
    let mut record_at = records;
    for k in 0..table.order.buckets() {
        let slots = table.slots(k);
        put_tags(image, tag_at, slots);
        put_records(image, record_at, slots);
        tag_at += TAG_BYTES * slots.len();
        record_at += width * slots.len();
    }
}

// The built slots of all buckets.
fn slots_in_all(table: Checked<'_>) -> usize
    ensures { result ≡ length (all_slots table.entry.rows.now) }
{
    let mut slots: usize = 0;
    for k in 0..table.order.buckets() {
        slots += table.built(k) as usize;
    }
    slots
}

fn image_length(table: Checked<'_>) -> usize
    ensures { result ≡ length (image_of table.entry.rows.now) }
{
    let form = Form::written();
    form.image_length(table.order.t, slots_in_all(table))
}

fn put_image(image: &mut [u8], table: Checked<'_>)
    requires { length (image_of table.rows.now) ≤ length image.old }
    ensures { image.new ≡ sets image.old 0 (image_of table.entry.rows.now) }
{
    put_header(image, table.rows[HEADER_ROW]);
    put_sizes(image, table);
    let form = Form::written();
    let slots = slots_in_all(table);
    let t = table.order.t;
    put_all_slots(image, form.sizes_end(t), form.tags_end(t, slots), table);
}

// 23 and 24, then 6, then the image, whose length is the answer.
fn write_image(table: &[Row], image: &mut [u8]) -> Result<usize, Refusal>
    ensures refusal { refusal_in result ≡ write_refusal table.now image.old }
    ensures length { IfOk result (λ n. (n ≡ length (image_of table.now)) × (n < 2 ^ 32)) }
    ensures area { image.new ≡ image_after_write table.now image.old }
{
    let checked = read_check(table)?;
    let length = image_length(checked);
    if image.len() < length {
        return Err(Refusal::NoRoom);
    }
    put_image(image, checked);
    Ok(length)
}

// The whole call: every value of every argument, a table and an area of any length and content.
pub fn write(table: &[Row], image: &mut [u8]) -> Written
    ensures reply { result ≡ write_reply table.now image.old }
    ensures area { image.new ≡ image_after_write table.now image.old }
{
    match write_image(table, image) {
        Err(refusal) => Written {
            refusal: u32::from(refusal),
            length: 0,
        },
        Ok(length) => Written {
            refusal: 0,
            length: length as u32,
        },
    }
}
