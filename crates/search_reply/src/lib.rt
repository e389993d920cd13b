// The result area and the reply of a search, once its entries stand at the front of the area or are known not to fit.
#![tactic(auto)]

ghost use Rattle.std.specs.Prelude.{◌≡◌, ◌++◌, ◌-◌, ◌≤◌, ◌<◌, ◌^◌, length, take, replicate};
ghost use Rattle.table_rules.specs.Refusals.{no_room};
ghost use Rattle.table_rules.specs.Search.{zero_entry};

use search_rules::Entry;
use table_rules::{NO_ROOM, Searched};

// Every entry becomes zero.
pub fn zero_entries(area: &mut [Entry])
    ensures { area.new ≡ replicate (length area.old) zero_entry }
{
    for entry in area.iter_mut() {
        *entry = [0u64; 2];
    }
}

// The entries behind the first n become zero. How much of a lent area is filled goes along as a number: with no heap it
// has no length of its own.
pub fn zero_behind(area: &mut [Entry], n: usize)
    requires { n ≤ length area.old }
    ensures { area.new ≡ take n area.old ++ replicate (length area.old - n) zero_entry }
{
    zero_entries(&mut area[n..]);
}

// A refusal returns its number and zeros. The number is any, as the contract has it: a Refusal would be a narrower
// type.
pub fn refused(refusal: u32) -> Searched
    ensures { result ≡ record { refusal = refusal; found = 0; distances = 0 } }
{
    Searched {
        refusal,
        found: 0,
        distances: 0,
    }
}

// The area is shorter than the reply: it is left all zero.
pub fn too_short(area: &mut [Entry]) -> Searched
    ensures reply { result ≡ record { refusal = no_room; found = 0; distances = 0 } }
    ensures area { area.new ≡ replicate (length area.old) zero_entry }
{
    zero_entries(area);
    refused(NO_ROOM)
}

// The first entries of the area are the reply, and the rest becomes zero.
pub fn accepted(area: &mut [Entry], found: usize, count: usize) -> Searched
    requires { (found ≤ length area.old) × (found < 2 ^ 32) × (count < 2 ^ 32) }
    ensures reply { result ≡ record { refusal = 0; found = found; distances = count } }
    ensures area { area.new ≡ take found area.old ++ replicate (length area.old - found) zero_entry }
{
    zero_behind(area, found);
    Searched {
        refusal: 0,
        found: found as u32,
        distances: count as u32,
    }
}
