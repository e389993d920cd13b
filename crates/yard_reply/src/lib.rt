// The replies of the calls as bytes, at the start of an area.
#![tactic(auto)]

ghost use Rattle.std.specs.Prelude.{[], ◌∷◌, ◌+◌, ◌*◌, ◌<◌, ◌≤◌, length, get_or, drop};
ghost use Rattle.yard_reply.specs.Put.{Puts};
ghost use Rattle.yard_rules.specs.Reply.{reply_line, reply_numbers, add_text, remove_text, search_text};

use search_rules::Entry;
use table_rules::{Added, Removed, Searched};

// A letter and one number: a refusal, or a line that is `?`.
pub fn put_one(out: &mut [u8], letter: u8, n: u64) -> usize
    requires { 65 ≤ length out.old }
    ensures { Puts out.old out.new result (reply_line letter (n ∷ [])) × (result ≤ 65) }
{
    yard_print::put_line(out, letter, &[n])
}

// A letter and a reply's numbers, its refusal first: a refused one has no others.
fn put_reply(out: &mut [u8], letter: u8, numbers: &[u64]) -> usize
    requires { (0 < length numbers.now) × (length numbers.now ≤ 3) × (65 ≤ length out.old) }
    ensures { Puts out.old out.new result
        (reply_line letter (reply_numbers (get_or numbers.now 0 0) (drop 1 numbers.now)))
        × (result ≤ 65) }
{
    let refusal = numbers[0];
    if refusal == 0 {
        yard_print::put_line(out, letter, numbers)
    } else {
        put_one(out, letter, refusal)
    }
}

pub fn put_added(out: &mut [u8], reply: Added) -> usize
    requires { 65 ≤ length out.old }
    ensures { Puts out.old out.new result (add_text reply) }
{
    let numbers = [
        reply.refusal as u64,
        reply.bucket as u64,
        reply.distances as u64,
    ];
    put_reply(out, b'A', &numbers)
}

pub fn put_removed(out: &mut [u8], reply: Removed) -> usize
    requires { 65 ≤ length out.old }
    ensures { Puts out.old out.new result (remove_text reply) }
{
    let numbers = [reply.refusal as u64, reply.distances as u64];
    put_reply(out, b'R', &numbers)
}

// A search's first line, and its entries' lines behind it.
pub fn put_searched(out: &mut [u8], letter: u8, reply: Searched, area: &[Entry]) -> usize
    requires { (reply.found ≤ length area.now) × (65 + 37 * reply.found ≤ length out.old) }
    ensures { Puts out.old out.new result (search_text letter reply area.now) }
{
    let numbers = [
        reply.refusal as u64,
        reply.found as u64,
        reply.distances as u64,
    ];
    let at = put_reply(out, letter, &numbers);
    at + yard_print::put_entries(&mut out[at..], &area[..reply.found as usize])
}
