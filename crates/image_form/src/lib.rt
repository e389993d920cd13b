// The form of an image. Every length and place that goes by the form is worked out here and nowhere else.
#![tactic(auto)]

ghost use Rattle.std.specs.Prelude.{◌≡◌, ◌+◌, ◌*◌, ◌<◌, ◌^◌, IfOk};
ghost use Rattle.refusals.specs.Number.{refusal_in};
ghost use Rattle.image_rules.specs.Bytes.{written_form, header_bytes, tag_bytes, record_bytes, pair_bytes, sizes_end};
ghost use Rattle.image_rules.specs.Bytes.{image_length};
ghost use Rattle.image_form.specs.Numbers.{form_refusal};

use image_rules::{
    DAY_BYTES, PAIR_BYTES, RECORD_WORDS_BYTES, START_BYTES, TAG_BYTES, WEIGHT_BYTES,
};
use refusals::Refusal;

// A form is its number: an image's bytes have it, and every clause below is an equation in it. An enum would have to be
// turned back into it in each.
#[derive(Clone, Copy)]
pub struct Form {
    pub number: u32,
}

impl Form {
    // The last form that is read, and the one that is written.
    pub const LAST: u32 = 2;

    pub const WRITTEN: u32 = 2;

    // The one whose images have no weights.
    pub const WITHOUT_WEIGHTS: u32 = 0;

    // The first whose records have a day.
    pub const FIRST_WITH_DAYS: u32 = 2;

    // The form with this number.
    #[tactic(auto, using(crate::proofs::Forms::form_passes, crate::proofs::Forms::form_refused))]
    pub fn new(number: u32) -> Result<Form, Refusal>
        ensures refusal { refusal_in result ≡ form_refusal number }
        ensures form { IfOk result (λ form. form.number ≡ number) }
    {
        if Form::LAST < number {
            return Err(Refusal::BadImage);
        }
        Ok(Form { number })
    }

    pub fn written() -> Form
        ensures { result.number ≡ written_form }
    {
        Form {
            number: Form::WRITTEN,
        }
    }

    // The bytes of the header, and of a record.
    pub fn header_bytes(self) -> usize
        ensures { result ≡ header_bytes self.number }
    {
        if self.number == Form::WITHOUT_WEIGHTS {
            START_BYTES
        } else {
            START_BYTES + WEIGHT_BYTES
        }
    }

    pub fn record_bytes(self) -> usize
        ensures { result ≡ record_bytes self.number }
    {
        if self.number < Form::FIRST_WITH_DAYS {
            RECORD_WORDS_BYTES
        } else {
            RECORD_WORDS_BYTES + DAY_BYTES
        }
    }

    // The place of the sizes of bucket k.
    pub fn sizes_at(self, k: u32) -> usize
        ensures { result ≡ header_bytes self.number + pair_bytes * k }
    {
        self.header_bytes() + PAIR_BYTES * k as usize
    }

    // The place behind all sizes of an image of order t, where its tags begin.
    pub fn sizes_end(self, t: u32) -> usize
        ensures { result ≡ sizes_end self.number t }
    {
        self.sizes_at(t) + PAIR_BYTES
    }

    // The place behind the tags of so many slots, where their records begin, and the one behind the records, where the
    // image ends.
    pub fn tags_end(self, t: u32, slots: usize) -> usize
        requires { slots < 2 ^ 32 }
        ensures { result ≡ sizes_end self.number t + tag_bytes * slots }
    {
        self.sizes_end(t) + TAG_BYTES * slots
    }

    pub fn image_length(self, t: u32, slots: usize) -> usize
        requires { slots < 2 ^ 32 }
        ensures { result ≡ image_length self.number t slots }
    {
        self.tags_end(t, slots) + self.record_bytes() * slots
    }
}
