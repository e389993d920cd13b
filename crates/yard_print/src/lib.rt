// Numbers and replies as bytes, put at the start of an area. Every other byte is kept.
#![tactic(auto)]

ghost use Rattle.std.specs.Prelude.{◌≡◌, ◌+◌, ◌*◌, ◌≤◌, length};
ghost use Rattle.std.proofs.lemmas.List.Edits.{sets};
ghost use Rattle.text_rules.specs.Text.{digits, width, decimal};
ghost use Rattle.yard_rules.specs.Reply.{reply_line, entry_text, entries_text};

use search_rules::Entry;

// The last digits of a number, as many as fill the area.
pub fn put_digits(out: &mut [u8], number: u64)
    ensures { out.new ≡ digits (length out.old) number }
{
    let mut n = number;
    // By places from the end: the place is how many digits are left, which the rules' digits go by.
    for i in (0..out.len()).rev() {
        out[i] = (48 + n % 10) as u8;
        n /= 10;
    }
}

// How many digits a number takes. The rules' width divides likewise, and 0 has a digit, which ilog10 has not.
fn width(number: u64) -> usize
    ensures { (result ≡ width number) × (result ≤ 20) }
{
    let mut n = number;
    let mut w: usize = 1;
    while 10 <= n {
        n /= 10;
        w += 1;
    }
    w
}

// A number without leading zeros; its length comes back.
pub fn put_decimal(out: &mut [u8], number: u64) -> usize
    requires { 20 ≤ length out.old }
    ensures { (out.new ≡ sets out.old 0 (decimal number)) × (result ≡ length (decimal number)) × (result ≤ 20) }
{
    let w = width(number);
    put_digits(&mut out[..w], number);
    w
}

// A letter, numbers and a line feed.
pub fn put_line(out: &mut [u8], letter: u8, numbers: &[u64]) -> usize
    requires { 2 + 21 * length numbers.now ≤ length out.old }
    ensures { (out.new ≡ sets out.old 0 (reply_line letter numbers.now))
        × (result ≡ length (reply_line letter numbers.now))
        × (result ≤ 2 + 21 * length numbers.now) }
{
    out[0] = letter;
    let mut at = 1;
    for number in numbers {
        out[at] = b' ';
        at += 1;
        at += put_decimal(&mut out[at..], *number);
    }
    out[at] = b'\n';
    at + 1
}

// An entry's line: its tag as 15 digits, and its distance.
fn put_entry(out: &mut [u8], entry: Entry) -> usize
    requires { 37 ≤ length out.old }
    ensures { (out.new ≡ sets out.old 0 (entry_text entry)) × (result ≡ length (entry_text entry)) × (result ≤ 37) }
{
    put_digits(&mut out[..15], entry[0]);
    out[15] = b' ';
    let end = 16 + put_decimal(&mut out[16..], entry[1]);
    out[end] = b'\n';
    end + 1
}

// The lines of entries.
pub fn put_entries(out: &mut [u8], entries: &[Entry]) -> usize
    requires { 37 * length entries.now ≤ length out.old }
    ensures { (out.new ≡ sets out.old 0 (entries_text entries.now))
        × (result ≡ length (entries_text entries.now))
        × (result ≤ 37 * length entries.now) }
{
    let mut at = 0;
    for entry in entries {
        at += put_entry(&mut out[at..], *entry);
    }
    at
}
