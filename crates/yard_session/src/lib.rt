// The conversation in steps: a piece of the input up to its next line feed or its end, and the end of the input. Each
// step leaves its reply in an area.
#![tactic(auto)]

ghost use Rattle.std.specs.Prelude.{◌≡◌, true, false, List, [], ◌∷◌, ℕ, suc, ◌+◌, ◌-◌, ◌^◌, ◌≤◌, ◌<◌, length};
ghost use Rattle.text_rules.specs.Text.{line_feed};
ghost use Rattle.yard_rules.specs.Conversation.{Areas};
ghost use Rattle.yard_lines.specs.Held.{Holds};
ghost use Rattle.yard_command.specs.Lent.{areas_in, SameAreas};
ghost use Rattle.yard_session.specs.Fed.{Midway, begun, last_of, has_ended, stretch};
ghost use Rattle.yard_session.specs.Matches.{AnsweredAs, Matches, Takes, Ends};

use yard_command::Lent;
use yard_rules::Stage;

// How far the conversation is: the stage, the number of the line that comes in and how many bytes of it are held, none
// where it is longer than the area; and of the last step the place in the piece where it ended, and how many bytes it
// printed.
#[derive(Clone, Copy)]
pub struct Place {
    pub stage: Stage,
    pub number: u64,
    pub held: Option<usize>,
    pub from: usize,
    pub printed: usize,
}

// Before the first byte.
pub fn begin() -> Place
    ensures { ((areas : Areas) (area : List ℕ) → Matches (begun areas) areas area result)
        × (result.from ≡ 0) × (result.number ≡ 1) }
{
    Place {
        stage: Stage::Waiting,
        number: 1,
        held: Some(0),
        from: 0,
        printed: 0,
    }
}

// The line held in this much of the area. No command is longer than 96 bytes, so one that is longer than the area is
// answered as an empty one is, with `?`.
fn held_line(area: &[u8], held: Option<usize>) -> &[u8]
    requires { 96 ≤ length area.now }
    ensures result_in_bounds { length result.now ≤ length area.now }
    ensures by_index { (line : List ℕ) → Holds area.now held line → AnsweredAs result.now line }
{
    let length = held.unwrap_or(0);
    &area[..length.min(area.len())]
}

// A line feed, or the end of the input after a last line: the line that is held is answered. The next byte of the piece
// is at a place.
fn end_line(lent: &mut Lent<'_>, area: &[u8], at: Place, next: usize) -> Place
    requires { (96 ≤ length area.now) × (length area.now < 2 ^ 32) × (at.number < 2 ^ 64 - 1) }
    ensures same { SameAreas lent.old lent.new }
    ensures from_value { (result.from ≡ next) × (result.number ≡ at.number + 1)
        × (result.printed ≤ length lent.old.out.now) }
    ensures takes { (m : Midway) → Matches m (areas_in lent.old) area.now at
        → Takes m (line_feed ∷ []) (areas_in lent.new) area.now lent.old.out.now lent.new.out.now result }
{
    let line = held_line(area, at.held);
    let stepped = yard_step::step(lent, at.stage, at.number, line);
    Place {
        stage: stepped.stage,
        number: at.number + 1,
        held: Some(0),
        from: next,
        printed: stepped.length,
    }
}

// A piece from a place up to its next line feed, or to its end.
pub fn take_line(
    lent: &mut Lent<'_>,
    area: &mut [u8],
    piece: &[u8],
    from: usize,
    at: Place,
) -> Place
    requires { (96 ≤ length area.old) × (length area.old < 2 ^ 32)
        × (at.number < 2 ^ 64 - 1) × (from < length piece.now) }
    ensures same { SameAreas lent.old lent.new }
    ensures from_lt_from { (from < result.from) × (result.from ≤ length piece.now) × (result.number ≤ at.number + 1)
        × (result.printed ≤ length lent.old.out.now) }
    ensures takes { (m : Midway) → Matches m (areas_in lent.old) area.old at
        → Takes m (stretch piece.now from result.from) (areas_in lent.new) area.new
        lent.old.out.now lent.new.out.now result }
{
    let more = yard_lines::gather(area, at.held, piece, from);
    let gathered = Place {
        held: more.held,
        from: piece.len(),
        printed: 0,
        ..at
    };
    if piece.len() <= more.end {
        return gathered;
    }
    end_line(lent, area, gathered, more.end + 1)
}

// After the last line feed there is a line where there is a byte; no line at all is an empty first line.
fn is_line(number: u64, held: Option<usize>) -> bool
    ensures { (area line : List ℕ) (lines : ℕ) → Holds area held line → number ≡ suc lines
        → last_of lines line ≡ elim result [ true ↦ line ∷ [] | false ↦ [] ] }
{
    // By cases, as `Holds` says by cases what is held.
    match held {
        Some(n) => n > 0 || number == 1,
        None => true,
    }
}

// The end of the input.
pub fn take_end(lent: &mut Lent<'_>, area: &[u8], at: Place) -> Place
    requires { (96 ≤ length area.now) × (length area.now < 2 ^ 32) × (at.number < 2 ^ 64 - 1) }
    ensures same { SameAreas lent.old lent.new }
    ensures number_bound { (result.number ≤ at.number + 1) × (result.printed ≤ length lent.old.out.now) }
    ensures ends { (m : Midway) → Matches m (areas_in lent.old) area.now at
        → Ends m (areas_in lent.new) lent.old.out.now lent.new.out.now result }
{
    if !is_line(at.number, at.held) {
        return Place {
            stage: Stage::Ended,
            held: Some(0),
            from: 0,
            printed: 0,
            ..at
        };
    }
    let last = end_line(lent, area, at, 0);
    Place {
        stage: Stage::Ended,
        ..last
    }
}

// Whether the program has ended: nothing that comes later is printed to.
pub fn is_ended(stage: Stage) -> bool
    ensures { result ≡ has_ended stage }
{
    matches!(stage, Stage::Ended)
}
