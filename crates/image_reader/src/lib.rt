// A reader of an image: it holds the image and its position. Callers need none: `two_from` has plain parameters, and
// `number_at` is what a reader's next number is read by.
#![tactic(auto)]

ghost use Rattle.std.specs.Prelude.{◌≡◌, true, ◌+◌, ◌≤◌, length};
ghost use Rattle.image_rules.specs.Read.{number_at};
ghost use Rattle.image_reader.specs.Widths.{is_width};
ghost use Rattle.image_reader.specs.Moved.{moved_on};

#[derive(Drop)]
pub struct Reader<'a> {
    pub image: &'a [u8],
    pub at: usize,
}

// The number that stands in w bytes at a place: w is 1, 2 or 4.
pub fn number_at(image: &[u8], at: usize, w: usize) -> u32
    requires { (is_width w ≡ true) × (at + w ≤ length image.now) }
    ensures { result ≡ number_at image.now w at }
{
    match w {
        1 => u32::from(image[at]),
        2 => u32::from(u16::from_le_bytes([image[at], image[at + 1]])),
        _ => u32::from_le_bytes([image[at], image[at + 1], image[at + 2], image[at + 3]]),
    }
}

pub fn reader_at(image: &[u8], at: usize) -> Reader
    ensures { (result.image ≡ image.entry) × (result.at ≡ at) }
{
    Reader { image, at }
}

// The next number of w bytes; the reader is moved on behind it.
pub fn next(r: &mut Reader, w: usize) -> u32
    requires { (is_width w ≡ true) × (r.old.at + w ≤ length r.old.image.now) }
    ensures { (result ≡ number_at r.old.image.now w r.old.at) × (r.new ≡ moved_on r.old w) }
{
    let n = number_at(r.image, r.at, w);
    r.at += w;
    n
}

// Two numbers from a place on, of v bytes and of w.
pub fn two_from(image: &[u8], at: usize, v: usize, w: usize) -> (u32, u32)
    requires { (is_width v ≡ true) × (is_width w ≡ true) × (at + v + w ≤ length image.now) }
    ensures { (result.0 ≡ number_at image.now v at) × (result.1 ≡ number_at image.now w (at + v)) }
{
    let mut r = reader_at(image, at);
    let first = next(&mut r, v);
    let second = next(&mut r, w);
    (first, second)
}
