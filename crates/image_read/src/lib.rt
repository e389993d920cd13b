// The numbers of an image at their places. Two that stand together are read through a reader, and one by itself at its
// place. An image, its buckets and its slots are types whose values are in the bytes that they are read from.
#![tactic(auto)]

ghost use Rattle.std.specs.Prelude.{◌≡◌, ◌+◌, ◌≤◌, [], ◌∷◌, ◌++◌, length};
ghost use Rattle.image_rules.specs.Bytes.{start_bytes, header_bytes, tag_fields, day_fields, record_fields, tag_bytes};
ghost use Rattle.image_rules.specs.Bytes.{record_bytes};
ghost use Rattle.image_rules.specs.Read.{fields_at, weights_as, day_as};
ghost use Rattle.image_read.specs.InImage.{Started};

pub mod image;
pub mod slots;

pub use image::{Bucket, Image, WholeImage};
use image_form::Form;
use image_reader::{number_at, two_from};
use image_rules::{DAY_BYTES, RECORD_WORDS_BYTES, START_BYTES};
use metric_rules::{Row, Space, WEIGHTS_ONE, Weights};
pub use slots::Slots;
use table_order::Order;

// The bytes of a word, and the place of the form behind order and metric, with its bytes.
const WORD_BYTES: usize = 4;

const FORM_AT: usize = 2;

const FORM_BYTES: usize = 2;

// What an image of any form begins with, its numbers as they stand there.
#[derive(Clone, Copy)]
pub struct Start {
    pub order: u32,
    pub metric: u32,
    pub form: u32,
}

// An image's header once its tests have passed.
#[derive(Clone, Copy)]
pub struct Header {
    pub order: Order,
    pub space: Space,
    pub form: Form,
}

// The sizes of a bucket.
#[derive(Clone, Copy)]
pub struct Sizes {
    pub built: u32,
    pub live: u32,
}

pub fn start_in(image: &[u8]) -> Start
    requires { start_bytes ≤ length image.now }
    ensures { Started image.now result }
{
    let (order, metric) = two_from(image, 0, 1, 1);
    let form = number_at(image, FORM_AT, FORM_BYTES);
    Start {
        order,
        metric,
        form,
    }
}

// The weights, which are 1 in a form that does not have them.
pub fn weights_in(image: &[u8], form: Form) -> Weights
    requires { header_bytes form.number ≤ length image.now }
    ensures { result ≡ weights_as form.number image.now }
{
    if form.number == Form::WITHOUT_WEIGHTS {
        return WEIGHTS_ONE;
    }
    let (first, second) = two_from(image, START_BYTES, 1, 1);
    let (third, fourth) = two_from(image, START_BYTES + 2, 1, 1);
    Weights {
        each: [first, second, third, fourth],
    }
}

// The day in the record at r, which is 1 in a form that does not have it.
fn day_at(image: &[u8], form: Form, r: usize) -> u32
    requires { r + record_bytes form.number ≤ length image.now }
    ensures { (result ∷ []) ≡ fields_at image.now (day_fields form.number) (r + 40) ++ day_as form.number }
{
    if form.number < Form::FIRST_WITH_DAYS {
        return 1;
    }
    number_at(image, r + RECORD_WORDS_BYTES, DAY_BYTES)
}

// The row whose tag stands at t and whose record, of a form, stands at r: two words at a time.
pub fn row_at(image: &[u8], form: Form, t: usize, r: usize) -> Row
    requires { (t + tag_bytes ≤ length image.now) × (r + record_bytes form.number ≤ length image.now) }
    ensures { let rest = fields_at image.now (record_fields form.number) r in
        result ≡ fields_at image.now tag_fields t ++ rest ++ day_as form.number }
{
    let (tag_low, tag_high) = two_from(image, t, WORD_BYTES, WORD_BYTES);
    let (first, second) = two_from(image, r, WORD_BYTES, WORD_BYTES);
    let (third, fourth) = two_from(image, r + 8, WORD_BYTES, WORD_BYTES);
    let (code_0_low, code_0_high) = two_from(image, r + 16, WORD_BYTES, WORD_BYTES);
    let (code_1_low, code_1_high) = two_from(image, r + 24, WORD_BYTES, WORD_BYTES);
    let (threshold, mark) = two_from(image, r + 32, WORD_BYTES, WORD_BYTES);
    let day = day_at(image, form, r);
    [
        tag_low,
        tag_high,
        first,
        second,
        third,
        fourth,
        code_0_low,
        code_0_high,
        code_1_low,
        code_1_high,
        threshold,
        mark,
        day,
    ]
}
