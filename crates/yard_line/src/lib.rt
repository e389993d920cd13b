// What a line says: a header, a command with its day, its profile. Every line of bytes is one of them or of another
// form. The fields are read in turn.
#![tactic(auto)]

ghost use Rattle.std.specs.Prelude.{◌≡◌, true, ◌≤◌, ◌<◌, ◌^◌, length};
ghost use Rattle.text_rules.specs.Text.{space};
ghost use Rattle.text_read.specs.Parts.{parts_behind};
ghost use Rattle.yard_rules.specs.Line.{has_profile, profile_in, header_in, command_in};
ghost use Rattle.yard_line.specs.Found.{word_in, code_at, ProfileAt, usual_day, day_in, day_for, command_of};

use metric_rules::Profile;
use yard_rules::{Command, Header};

// A profile and where its code ends.
#[derive(Clone, Copy)]
pub struct ProfileRead {
    pub profile: Profile,
    pub end: usize,
}

// A number has 32 bits, a day 16.
const NUMBER_BOUND: u64 = 0x1_0000_0000;

const DAY_BOUND: u64 = 0x1_0000;

// The number of a text of one to `most` digits, below a bound.
fn word(text: &[u8], most: usize, bound: u64) -> Option<u32>
    requires { (most ≤ 16) × (bound ≤ 2 ^ 32) }
    ensures { result ≡ word_in most bound text.now }
{
    let n = text_read::number(text, 10, 1, most)?;
    if n < bound { Some(n as u32) } else { None }
}

// The first line, if it is a header: two numbers.
pub fn header(line: &[u8]) -> Option<Header>
    requires { length line.now < 2 ^ 32 }
    ensures { result ≡ header_in line.now }
{
    let (first, second) = text_read::two_parts(line, b' ')?;
    let order = word(first, 10, NUMBER_BOUND)?;
    let metric = word(second, 10, NUMBER_BOUND)?;
    Some(Header { order, metric })
}

// A code's two words: the first half of the digits is the first word.
fn code(text: &[u8]) -> Option<[u64; 2]>
    ensures { result ≡ code_at text.now }
{
    if text == b"-".as_slice() {
        return Some([0; 2]);
    }
    if text.len() != 32 {
        return None;
    }
    let first = text_read::number(&text[..16], 16, 16, 16)?;
    let second = text_read::number(&text[16..], 16, 16, 16)?;
    Some([first, second])
}

// The profile behind the field that ends at a place, four measures and a code.
fn profile_behind(line: &[u8], end: usize) -> Option<ProfileRead>
    ensures { ProfileAt line.now (parts_behind space line.now end) result }
{
    let read = text_read::measures(line, end, b' ', b'.')?;
    if line.len() <= read.end {
        return None;
    }
    let end = text_read::part_end(line, b' ', read.end + 1);
    let code = code(&line[read.end + 1..end])?;
    let measures = read.measures;
    let profile = Profile { measures, code };
    Some(ProfileRead { profile, end })
}

// The profile of a line that has one.
pub fn profile(line: &[u8]) -> Profile
    requires { (length line.now < 2 ^ 32) × (has_profile line.now ≡ true) }
    ensures { result ≡ profile_in line.now }
{
    let first_end = text_read::part_end(line, b' ', 0);
    let second_end = text_read::part_end(line, b' ', first_end + 1);
    let read = profile_behind(line, second_end).unwrap();
    read.profile
}

// The day behind a code that ends at a place: the usual one where nothing stands there, and none where it is not one
// day and nothing more.
fn day_behind(line: &[u8], code_end: usize, usual: u32) -> Option<u32>
    ensures { result ≡ day_in usual (parts_behind space line.now code_end) }
{
    if line.len() <= code_end {
        return Some(usual);
    }
    let day_end = text_read::part_end(line, b' ', code_end + 1);
    if day_end < line.len() {
        return None;
    }
    word(&line[code_end + 1..day_end], 5, DAY_BOUND)
}

// The day of a line that has none: an item's, and the first day of a search.
fn usual_day(letter: u8) -> u32
    ensures { result ≡ usual_day letter }
{
    if letter == b'A' { 1 } else { 0 }
}

// The day of a line behind whose second field stands what the letter asks for; a removal's is 0. The letter is the
// line's own byte, any one, as the definitions have it.
fn day_for(line: &[u8], letter: u8, end: usize) -> Option<u32>
    ensures { result ≡ day_for letter (parts_behind space line.now end) }
{
    if letter == b'R' {
        return (line.len() <= end).then_some(0);
    }
    let read = profile_behind(line, end)?;
    day_behind(line, read.end, usual_day(letter))
}

// The command of a letter, by the field behind it and the line's day.
fn command_of(letter: u8, text: &[u8], day: u32) -> Option<Command>
    ensures { result ≡ command_of letter text.now day }
{
    match letter {
        b'A' => Some(Command::Add(text_read::number(text, 10, 15, 15)?, day)),
        b'R' => Some(Command::Remove(text_read::number(text, 10, 15, 15)?)),
        b'W' => Some(Command::Within(word(text, 10, NUMBER_BOUND)?, day)),
        b'N' => Some(Command::Nearest(word(text, 10, NUMBER_BOUND)?, day)),
        _ => None,
    }
}

// A later line, if it is a command.
pub fn command(line: &[u8]) -> Option<Command>
    requires { length line.now < 2 ^ 32 }
    ensures { result ≡ command_in line.now }
{
    let first_end = text_read::part_end(line, b' ', 0);
    if first_end != 1 || line.len() <= first_end {
        return None;
    }
    let second_end = text_read::part_end(line, b' ', first_end + 1);
    let letter = line[0];
    let day = day_for(line, letter, second_end)?;
    command_of(letter, &line[first_end + 1..second_end], day)
}
