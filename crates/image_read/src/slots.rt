// Slots of an image, each of which is read as a row.
#![tactic(auto)]

ghost use Rattle.image_read.specs.InImage.{InImage};

use crate::row_at;
use image_form::Form;
use image_rules::TAG_BYTES;
use metric_rules::Row;

// Slots of an image that stand one behind the other, as all slots do and those of a bucket: the image and its form, the
// places of all tags and of all records, the number of the first slot among all, and how many there are.
#[derive(Clone, Copy)]
pub struct Slots<'a> {
    pub image: &'a [u8],
    pub form: Form,
    pub tags: usize,
    pub records: usize,
    pub first: usize,
    pub count: usize,
    pub ghost in_image: { InImage image.now form tags records first count },
}

impl<'a> Slots<'a> {
    ghost use Rattle.std.specs.Prelude.{◌≡◌, ◌+◌, ◌≤◌, ◌<◌};
    ghost use Rattle.image_rules.specs.Read.{slots_in};
    ghost use Rattle.image_read.specs.Slots.{slot_in};

    // As many from one on.
    pub fn part(self, first: usize, count: usize) -> Slots<'a>
        requires { first + count ≤ slots_in self.image.now }
        ensures { (result.image ≡ self.entry.image) × (result.first ≡ first) × (result.count ≡ count) }
    {
        Slots {
            image: self.image,
            form: self.form,
            tags: self.tags,
            records: self.records,
            first,
            count,
        }
    }

    // Slot i of them.
    pub fn slot(self, i: usize) -> Row
        requires { i < self.count }
        ensures { result ≡ slot_in self.entry i }
    {
        let slot = self.first + i;
        row_at(
            self.image,
            self.form,
            self.tags + TAG_BYTES * slot,
            self.records + self.form.record_bytes() * slot,
        )
    }
}
