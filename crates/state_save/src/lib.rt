// Save: a snapshot of the table goes into the part of a name, its image by the writer and the image's length before it.
#![tactic(auto)]

ghost use Rattle.std.specs.Prelude.{◌≡◌, ◌≤◌, min, length};
ghost use Rattle.std.proofs.lemmas.List.Edits.{sets};
ghost use Rattle.image_rules.specs.Bytes.{bytes_of};
ghost use Rattle.image_rules.specs.Write.{write_reply};
ghost use Rattle.state_rules.specs.Parts.{length_bytes, behind_length};
ghost use Rattle.state_rules.specs.Save.{save_reply, states_after_save};
ghost use Rattle.state_save.specs.Part.{part_after_save};

use image_put::put;
use image_rules::Written;
use image_write::write;
use metric_rules::Row;
use state_part::Name;
use state_rules::LENGTH_BYTES;

// Where the image goes in a part of so many bytes: behind the length, or at the end of a part that is too short for
// one.
fn image_start(bytes: usize) -> usize
    ensures { result ≡ min length_bytes bytes }
{
    LENGTH_BYTES.min(bytes)
}

// The four bytes of a length, in place of the one before.
fn put_length(part: &mut [u8], n: u32)
    requires { length_bytes ≤ length part.old }
    ensures { part.new ≡ sets part.old 0 (bytes_of length_bytes n) }
{
    put::<LENGTH_BYTES>(part, 0, n);
}

// The snapshot in its part: 23 and 24, then 6, then the image and its length. The writer's reply is C's, with a
// refusal's number.
fn save_part(table: &[Row], part: &mut [u8]) -> Written
    ensures reply { result ≡ write_reply table.now (behind_length part.old) }
    ensures area { part.new ≡ part_after_save table.now part.old }
{
    let start = image_start(part.len());
    let reply = write(table, &mut part[start..]);
    if reply.refusal != 0 {
        return reply;
    }
    put_length(part, reply.length);
    reply
}

// The whole call: 34 before all.
pub fn save(table: &[Row], states: &mut [u8], name: u32) -> Written
    ensures reply { result ≡ save_reply table.now states.old name }
    ensures states { states.new ≡ states_after_save table.now states.old name }
{
    let name = match Name::new(name) {
        Err(refusal) => {
            return Written {
                refusal: u32::from(refusal),
                length: 0,
            };
        }
        Ok(name) => name,
    };
    let start = name.part_start(states.len());
    let end = name.part_end(states.len());
    save_part(table, &mut states[start..end])
}
