// Restore: the image in the part of a name is loaded. The states are only read.
#![tactic(auto)]

ghost use Rattle.std.specs.Prelude.{◌≡◌, length, IfOk};
ghost use Rattle.refusals.specs.Number.{refusal_in};
ghost use Rattle.state_rules.specs.Parts.{part_of, saved_image};
ghost use Rattle.state_rules.specs.Restore.{part_refusal, name_refusal, restore_reply, table_after_restore};

use image_load::load;
use image_reader::number_at;
use image_rules::Loaded;
use metric_rules::Row;
use refusals::Refusal;
use state_part::Name;
use state_rules::LENGTH_BYTES;

// The part of a name.
fn part_of(states: &[u8], name: Name) -> &[u8]
    ensures { result.now ≡ part_of states.now name.number }
{
    let start = name.part_start(states.len());
    let end = name.part_end(states.len());
    &states[start..end]
}

// The image in a part, as many bytes as its length says: no snapshot in the part 35, a length past what lies behind it
// 7.
fn saved_image(part: &[u8]) -> Result<&[u8], Refusal>
    ensures refusal { refusal_in result ≡ part_refusal part.now }
    ensures image { IfOk result (λ image. image.now ≡ saved_image part.now) }
{
    if part.len() < LENGTH_BYTES {
        return Err(Refusal::NotSaved);
    }
    let length = number_at(part, 0, LENGTH_BYTES) as usize;
    if length == 0 {
        return Err(Refusal::NotSaved);
    }
    if part.len() - LENGTH_BYTES < length {
        return Err(Refusal::BadLength);
    }
    Ok(&part[LENGTH_BYTES..LENGTH_BYTES + length])
}

// The image in the part of the name with this number.
fn named_image(states: &[u8], name: u32) -> Result<&[u8], Refusal>
    ensures refusal { refusal_in result ≡ name_refusal states.now name }
    ensures image { IfOk result (λ image. image.now ≡ saved_image (part_of states.now name)) }
{
    let name = Name::new(name)?;
    saved_image(part_of(states, name))
}

// The reply, all zeros if accepted: 34, those of the part, and then what a load replies.
pub fn restore(table: &mut [Row], states: &[u8], name: u32) -> Loaded
    ensures reply { result ≡ restore_reply (length table.old) states.now name }
    ensures table { table.new ≡ table_after_restore states.now name table.old }
{
    match named_image(states, name) {
        Err(refusal) => Loaded {
            refusal: u32::from(refusal),
            slot: 0,
        },
        Ok(image) => load(table, image),
    }
}
