// An image with its header, as far as its tests have passed: its sizes are there, and then it is as long as they say.
#![tactic(auto)]

ghost use Rattle.std.specs.Prelude.{◌≡◌, ◌≤◌};
ghost use Rattle.table_rules.specs.Geometry.{most_order};
ghost use Rattle.image_rules.specs.Read.{order_in, slots_in};
ghost use Rattle.image_read.specs.InImage.{Headed, HasSizes, Whole};

use crate::slots::Slots;
use crate::{Header, Sizes};
use image_reader::two_from;
use image_rules::SIZE_BYTES;

// An image that has the sizes of all its buckets, and its header.
#[derive(Clone, Copy)]
pub struct Image<'a> {
    pub bytes: &'a [u8],
    pub header: Header,
    pub ghost headed: { Headed bytes.now header },
    pub ghost order_fits: { order_in bytes.now ≤ most_order },
    pub ghost has_sizes: { HasSizes bytes.now header.form (order_in bytes.now) },
}

impl<'a> Image<'a> {
    ghost use Rattle.image_rules.specs.Read.{built_in, live_in};

    // The sizes of bucket k.
    pub fn sizes(self, k: u32) -> Sizes
        requires { HasSizes self.bytes.now self.header.form k }
        ensures { (result.built ≡ built_in self.entry.bytes.now k) × (result.live ≡ live_in self.entry.bytes.now k) }
    {
        let at = self.header.form.sizes_at(k);
        let (built, live) = two_from(self.bytes, at, SIZE_BYTES, SIZE_BYTES);
        Sizes { built, live }
    }

    // The built slots of all buckets.
    pub fn slots(self) -> usize
        ensures { result ≡ slots_in self.entry.bytes.now }
    {
        let mut slots = 0;
        for k in 0..self.header.order.buckets() {
            slots += self.sizes(k).built as usize;
        }
        slots
    }
}

// An image whose sizes pass and which is as long as they say, with the number of all its slots.
#[derive(Clone, Copy)]
pub struct WholeImage<'a> {
    pub image: Image<'a>,
    pub count: usize,
    pub ghost whole: { Whole image.bytes.now image.header },
    pub ghost counted: { count ≡ slots_in image.bytes.now },
}

// A bucket of an image: its slots, and how many of them are live.
#[derive(Clone, Copy)]
pub struct Bucket<'a> {
    pub slots: Slots<'a>,
    pub live: u32,
}

impl<'a> WholeImage<'a> {
    ghost use Rattle.std.specs.Prelude.{◌+◌};
    ghost use Rattle.table_rules.specs.Geometry.{room};
    ghost use Rattle.image_rules.specs.Read.{slots_before, built_in, live_in, bucket_in};
    ghost use Rattle.image_read.specs.Slots.{slots_at};

    // Buckets 0 to T.
    pub fn buckets(self) -> u32
        ensures { result ≡ order_in self.entry.image.bytes.now + 1 }
    {
        self.image.header.order.buckets()
    }

    // All its slots.
    pub fn slots(self) -> Slots<'a>
        ensures { (result.image ≡ self.entry.image.bytes) × (result.first ≡ 0) × (result.count ≡ self.entry.count) }
    {
        let Header { form, order, .. } = self.image.header;
        Slots {
            image: self.image.bytes,
            form,
            tags: form.sizes_end(order.t),
            records: form.tags_end(order.t, self.count),
            first: 0,
            count: self.count,
        }
    }
    // Bucket k, whose first slot has this number among all.
    pub fn bucket(self, k: u32, first: usize) -> Bucket<'a>
        requires { (k ≤ order_in self.image.bytes.now) × (first ≡ slots_before self.image.bytes.now k) }
        ensures place { (result.slots.image ≡ self.entry.image.bytes) × (result.slots.first ≡ first) }
        ensures sizes { (result.slots.count ≡ built_in self.entry.image.bytes.now k)
            × (result.live ≡ live_in self.entry.image.bytes.now k) }
        ensures room { result.slots.count ≤ room k }
        ensures rows { slots_at result.slots ≡ bucket_in self.entry.image.bytes.now k }
    {
        let sizes = self.image.sizes(k);
        Bucket {
            slots: self.slots().part(first, sizes.built as usize),
            live: sizes.live,
        }
    }
}
