// What herd lists and `yard` read alike: the parts of a text, found one after the other, a part's number, and measures
// in turn.
#![tactic(auto)]

ghost use Rattle.std.specs.Prelude.{◌≡◌, ◌≢◌, ◌^◌, ◌≤◌, ◌<◌, [], ◌∷◌, length, MatchOption};
ghost use Rattle.text_rules.specs.Text.{parted, parts_in};
ghost use Rattle.text_rules.specs.Fields.{is_negative, unsigned};
ghost use Rattle.text_read.specs.Parts.{PartEnd, parts_behind};
ghost use Rattle.text_read.specs.Found.{digit_in, number_in, size_in, signed, MeasureBehind, MeasuresAt};

// A measure and where its part ends.
#[derive(Clone, Copy)]
pub struct MeasureRead {
    pub value: i32,
    pub end: usize,
}

// Four measures and where the last one's part ends: a place and no rest of the text, since the definitions
// (`parts_behind`) count parts from a place.
#[derive(Clone, Copy)]
pub struct MeasuresRead {
    pub measures: [i32; 4],
    pub end: usize,
}

// The value of a digit of a base: the letters, all lower case, go on from ten.
fn digit(base: u64, b: u8) -> Option<u64>
    ensures { result ≡ digit_in base b }
{
    let value = match b {
        b'0'..=b'9' => b - b'0',
        b'a'..=b'f' => b - b'a' + 10,
        _ => return None,
    };
    let value = u64::from(value);
    (value < base).then_some(value)
}

// The number of a text of `least` to `most` digits and nothing else: sixteen fill 64 bits.
pub fn number(text: &[u8], base: u64, least: usize, most: usize) -> Option<u64>
    requires { (base ≤ 16) × (most ≤ 16) }
    ensures { result ≡ number_in base least most text.now }
{
    if text.len() < least || most < text.len() {
        return None;
    }
    let mut n: u64 = 0;
    for b in text {
        n = base * n + digit(base, *b)?;
    }
    Some(n)
}

// Where the part that begins at a place ends: at the next separator, or at the end of the text, where the last part
// ends as any other does: so no Option.
pub fn part_end(text: &[u8], separator: u8, from: usize) -> usize
    requires { from ≤ length text.now }
    ensures { PartEnd separator text.now from result }
{
    match text[from..].iter().position(|b| *b == separator) {
        Some(n) => from + n,
        None => text.len(),
    }
}

// The two parts of a text that has just two.
pub fn two_parts(text: &[u8], separator: u8) -> Option<(&[u8], &[u8])>
    ensures { MatchOption result
        (parts_in separator text.now ≢ 2)
        (λ p. parted separator text.now ≡ p.0.now ∷ p.1.now ∷ []) }
{
    let end = part_end(text, separator, 0);
    if text.len() <= end {
        return None;
    }
    let rest = &text[end + 1..];
    if part_end(rest, separator, 0) < rest.len() {
        return None;
    }
    Some((&text[..end], rest))
}

// A measure without its sign: the digits before the mark and the two behind it as one number.
fn hundredths(size: &[u8], mark: u8) -> Option<u64>
    ensures { result ≡ size_in mark size.now }
{
    let (before, behind) = two_parts(size, mark)?;
    let whole = number(before, 10, 1, 5)?;
    let rest = number(behind, 10, 2, 2)?;
    Some(100 * whole + rest)
}

fn is_negative(text: &[u8]) -> bool
    ensures { result ≡ is_negative text.now }
{
    text.starts_with(b"-")
}

// A measure without its sign.
fn unsigned(text: &[u8]) -> &[u8]
    ensures { result.now ≡ unsigned text.now }
{
    text.strip_prefix(b"-").unwrap_or(text)
}

// One sign covers all digits.
fn signed(size: u64, negative: bool) -> i32
    requires { size < 10 ^ 7 }
    ensures { result ≡ signed negative size }
{
    let size = size as i32;
    if negative { -size } else { size }
}

// The measure in the part behind one that ends at a place.
fn measure(text: &[u8], end: usize, separator: u8, mark: u8) -> Option<MeasureRead>
    ensures { MeasureBehind separator mark text.now end result }
{
    if text.len() <= end {
        return None;
    }
    let next = part_end(text, separator, end + 1);
    let part = &text[end + 1..next];
    let size = hundredths(unsigned(part), mark)?;
    let value = signed(size, is_negative(part));
    Some(MeasureRead { value, end: next })
}

// The measures in the four parts behind one that ends at a place.
pub fn measures(text: &[u8], end: usize, separator: u8, mark: u8) -> Option<MeasuresRead>
    ensures { MeasuresAt separator mark text.now (parts_behind separator text.now end) result }
{
    let kg = measure(text, end, separator, mark)?;
    let hip = measure(text, kg.end, separator, mark)?;
    let girth = measure(text, hip.end, separator, mark)?;
    let gain = measure(text, girth.end, separator, mark)?;
    Some(MeasuresRead {
        measures: [kg.value, hip.value, girth.value, gain.value],
        end: gain.end,
    })
}
