// An image's slots as entries, the first slot whose tag an earlier one has, and which of two faults is earlier. An
// entry's first word is tag · 2^13 + place, the place being the slot's number in its bucket or among all, and its
// second a distance.
#![tactic(auto)]

ghost use Rattle.std.specs.Prelude.{◌≡◌, ◌+◌, ◌≤◌, ◌<◌, ◌^◌, IfSome, map, length};
ghost use Rattle.lists.specs.Lists.{All};
ghost use Rattle.search_rules.specs.Range.{ordered};
ghost use Rattle.image_read.specs.Slots.{slot_in};
ghost use Rattle.refusals.specs.Number.{number_of};
ghost use Rattle.image_entries.specs.Entries.{places, first_word, tag_entry, Fresh, TagsFit, slot_entries};
ghost use Rattle.image_entries.specs.Duplicates.{found_place, less_repeated, least_repeated, duplicate_fault};
ghost use Rattle.image_entries.specs.Faults.{loaded_of, earlier};

use entry_sort::sort_entries;
use image_read::Slots;
use image_rules::Loaded;
use refusals::Refusal;
use rows::tag_of;
use search_rules::Entry;

// An entry's first word has room for so many places below the tag, more than an image has slots.
pub const PLACES: u64 = 8192;

// The first slot that a test refuses, by its number among all.
#[derive(Clone, Copy)]
pub struct Fault {
    pub refusal: Refusal,
    pub slot: u32,
}

// A refusal of an image that names no slot.
impl From<Refusal> for Fault {
    ghost from_gives = { λ refusal fault. fault ≡ record { refusal = refusal; slot = 0 } };

    fn from(refusal: Refusal) -> Fault {
        Fault { refusal, slot: 0 }
    }
}

// A fault as load replies it.
impl From<Fault> for Loaded {
    ghost from_gives = { λ fault loaded. loaded ≡ record { refusal = number_of fault.refusal; slot = fault.slot } };

    fn from(fault: Fault) -> Loaded {
        Loaded {
            refusal: u32::from(fault.refusal),
            slot: fault.slot,
        }
    }
}

// The entry of a tag and a place.
pub fn tag_entry(tag: u64, place: usize) -> Entry
    requires { (tag < 2 ^ 50) × (place < places) }
    ensures { result ≡ tag_entry tag place }
{
    [tag * PLACES + place as u64, 0]
}

// The entries of a bucket's slots.
pub fn enter_slots(slots: Slots, entries: &mut [Entry])
    requires { (slots.count ≤ places) × (length entries.old ≡ slots.count) × TagsFit (slot_in slots) slots.count }
    ensures { entries.new ≡ slot_entries (slot_in slots.entry) slots.entry.count }
{
    for (i, entry) in entries.iter_mut().enumerate() {
        *entry = tag_entry(tag_of(slots.slot(i)), i);
    }
}

// The lesser of a place and that of the second of two words, if both have one tag.
fn less_repeated(least: Option<u64>, before: u64, word: u64) -> Option<u64>
    requires { IfSome least (λ place. place < places) }
    ensures found { found_place result ≡ less_repeated (found_place least) before word }
    ensures within { IfSome result (λ place. place < places) }
{
    if before / PLACES != word / PLACES {
        return least;
    }
    let place = word % PLACES;
    match least {
        Some(least) if least <= place => Some(least),
        _ => Some(place),
    }
}

// The least place of an entry whose tag the one before it has.
fn least_repeated(entries: &[Entry]) -> Option<u64>
    ensures found { found_place result ≡ least_repeated places (map first_word entries.now) }
    ensures within { IfSome result (λ place. place < places) }
{
    let mut least = None;
    for pair in entries.windows(2) {
        least = less_repeated(least, pair[0][0], pair[1][0]);
    }
    least
}

// The first slot whose tag an earlier one has, of entries without a distance; place 0 is slot `first` among all.
// Sorted, the entries of one tag stand side by side, by place.
pub fn duplicate_fault(entries: &mut [Entry], first: usize) -> Result<(), Fault>
    requires { All Fresh entries.old × (first + places ≤ 2 ^ 32) }
    ensures fault { loaded_of result ≡ duplicate_fault first (ordered entries.old) }
    ensures sorted { entries.new ≡ ordered entries.old }
{
    sort_entries(entries);
    match least_repeated(entries) {
        None => Ok(()),
        Some(place) => Err(Fault {
            refusal: Refusal::DuplicateTag,
            slot: first as u32 + place as u32,
        }),
    }
}

// The earlier of two faults, and the first of them where both are of one slot.
pub fn earlier(a: Result<(), Fault>, b: Result<(), Fault>) -> Result<(), Fault>
    ensures { loaded_of result ≡ earlier (loaded_of a) (loaded_of b) }
{
    match (a, b) {
        (Ok(()), _) => b,
        (Err(_), Ok(())) => a,
        (Err(first), Err(second)) => { if second.slot < first.slot { b } else { a } }
    }
}
