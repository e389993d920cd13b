// Load: the whole image is tested before the first row of the table is written.
#![tactic(auto)]

ghost use Rattle.std.specs.Prelude.{◌≡◌, length, IfOk};
ghost use Rattle.image_rules.specs.Load.{load_reply, table_after_load};
ghost use Rattle.refusals.specs.Number.{refusal_in};
ghost use Rattle.image_entries.specs.Faults.{loaded_of};
ghost use Rattle.image_load.specs.Steps.{start_in, header_in, start_refusal, sizes_refusal};

use image_entries::Fault;
use image_fields::{buckets_read, days_pass, sizes_pass};
use image_fill::put_buckets;
use image_form::Form;
use image_read::{Header, Image, WholeImage, start_in, weights_in};
use image_rules::{Loaded, START_BYTES};
use image_test::trees_fault;
use metric_rules::{Row, Space, WEIGHTS_ONE};
use refusals::Refusal;
use table_fresh::{header_row, put_header};
use table_order::Order;
use validity::{valid_metric, valid_weights};

// What an image begins with, once its tests have passed.
#[derive(Clone, Copy)]
pub struct Beginning {
    pub order: Order,
    pub metric: u32,
    pub form: Form,
}

// Under 4 bytes 7, order 3, metric 4, form 8, weights cut 7. Nothing else of the image is read before its form is
// known.
fn start_check(image: &[u8]) -> Result<Beginning, Refusal>
    ensures refusal { refusal_in result ≡ start_refusal image.now }
    ensures start { IfOk result (λ start. start ≡ start_in image.now) }
{
    if image.len() < START_BYTES {
        return Err(Refusal::BadLength);
    }
    let start = start_in(image);
    let metric = start.metric;
    let order = Order::new(start.order)?;
    let weights = WEIGHTS_ONE;
    if !valid_metric(Space { metric, weights }) {
        return Err(Refusal::BadMetric);
    }
    let form = Form::new(start.form)?;
    if image.len() < form.header_bytes() {
        return Err(Refusal::BadLength);
    }
    Ok(Beginning {
        order,
        metric,
        form,
    })
}

// Size pairs cut 7, sizes 24, total length 7, too few rows in the table 23.
#[tactic(auto, unfolding(crate::specs::Steps::sizes_refusal, crate::specs::Steps::sizes_by))]
fn slots_check(image: &[u8], header: Header, rows: usize) -> Result<WholeImage<'_>, Refusal>
    requires { (header ≡ header_in image.now) × (start_refusal image.now ≡ 0) }
    ensures refusal { refusal_in result ≡ sizes_refusal rows image.now }
    ensures image { IfOk result (λ whole. whole.image.bytes.now ≡ image.now) }
{
    let form = header.form;
    let order = header.order;
    if image.len() < form.sizes_end(order.t) {
        return Err(Refusal::BadLength);
    }
    let bytes = image;
    let image = Image { bytes, header };
    if !sizes_pass(image) {
        return Err(Refusal::BadTable);
    }
    let count = image.slots();
    if bytes.len() != form.image_length(order.t, count) {
        return Err(Refusal::BadLength);
    }
    if rows < order.table_rows() {
        return Err(Refusal::ShortArea);
    }
    Ok(WholeImage { image, count })
}

// All tests, the last that of the trees, by whose first fault the reply names a slot.
fn image_check(image: &[u8], rows: usize) -> Result<WholeImage<'_>, Fault>
    ensures reply { loaded_of result ≡ load_reply rows image.now }
    ensures image { IfOk result (λ whole. whole.image.bytes.now ≡ image.now) }
{
    let Beginning {
        order,
        metric,
        form,
    } = start_check(image)?;
    let weights = weights_in(image, form);
    if !valid_weights(weights) {
        return Err(Fault::from(Refusal::BadWeight));
    }
    let space = Space { metric, weights };
    let header = Header { order, space, form };
    let whole = slots_check(image, header, rows)?;
    if !days_pass(whole) {
        return Err(Fault::from(Refusal::BadDay));
    }
    if !buckets_read(whole) {
        return Err(Fault::from(Refusal::BadImage));
    }
    let row = header_row(order, space);
    trees_fault(whole, &row)?;
    Ok(whole)
}

// The reply, all zeros if accepted. An accepted image's table has every row written once.
pub fn load(table: &mut [Row], image: &[u8]) -> Loaded
    ensures reply { result ≡ load_reply (length table.old) image.now }
    ensures area { table.new ≡ table_after_load image.now table.old }
{
    let whole = match image_check(image, table.len()) {
        Err(fault) => return Loaded::from(fault),
        Ok(whole) => whole,
    };
    let header = whole.image.header;
    put_header(table, header.order, header.space);
    put_buckets(table, whole);
    Loaded {
        refusal: 0,
        slot: 0,
    }
}
