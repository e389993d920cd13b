// The program: reads standard input in pieces, has the conversation take each piece line by line, and writes at once
// what a line prints.
#![tactic(auto)]

ghost use Rattle.std.specs.Prelude.{◌+◌, ◌^◌, ◌≤◌, ◌<◌, length, IfOk};
ghost use Rattle.yard_rules.specs.Conversation.{Ample};
ghost use Rattle.yard_command.specs.Lent.{areas_in};
ghost use Rattle.yard_session.specs.Fed.{Midway, fed};
ghost use Rattle.yard_session.specs.Matches.{Matches};

use metric_rules::ROW_WIDTH;
use std::io::{self, Read};
use yard_command::Lent;
use yard_session::Place;

// The areas for order 8, the largest that the program takes: a table's rows, its work area, and an entry for each item
// that can be live.
const TABLE_ROWS: usize = 521;

const WORK_ROWS: usize = 256;

const ENTRIES: usize = 256;

// The first line of a reply, and 37 bytes for each entry.
const OUT: usize = 65 + 37 * ENTRIES;

// No command is longer than 96 bytes.
const LINE: usize = 128;

// The most bytes that one read takes.
const PIECE: usize = 4096;

// So many pieces of 4,096 bytes are fewer than 2^64 bytes.
const MOST_PIECES: u64 = u64::MAX / 4096;

// A whole piece, line by line: what a line prints is written before the next one is looked at, and a write that fails
// ends it.
fn take_piece(
    rt: &HostRuntime,
    lent: &mut Lent<'_>,
    area: &mut [u8],
    piece: &[u8],
    before: Place,
) -> io::Result<Place>
    requires { (96 ≤ length area.old)
        × (length area.old < 2 ^ 32)
        × (before.number + length piece.now < 2 ^ 64) }
    ensures number_bound { IfOk result (λ at. at.number ≤ before.number + length piece.now) }
    ensures cases { IfOk result (λ at.
        (m : Midway) → Matches m (areas_in lent.old) area.old before
        → Matches (fed m piece.now) (areas_in lent.new) area.new at) }
{
    let mut at = before;
    let mut from = 0;
    while from < piece.len() {
        at = yard_session::take_line(lent, area, piece, from, at);
        from = at.from;
        rt.write_all(&lent.out[..at.printed])?;
    }
    Ok(at)
}

// The input piece by piece, until a reply, the end of the input or a write that fails ends the program; a read that
// fails is the end of the input. A proved loop has to end, and nothing says that the input does: it takes more pieces
// than any run has. A piece has no more lines than bytes, so the number of a line fits its type.
fn converse(
    rt: &HostRuntime,
    lent: &mut Lent<'_>,
    area: &mut [u8],
    piece: &mut [u8],
) -> io::Result<()>
    requires { (96 ≤ length area.old)
        × (length area.old < 2 ^ 32)
        × (length piece.old ≤ 4096)
        × Ample (areas_in lent.old) }
{
    let mut at = yard_session::begin();
    for _ in 0..MOST_PIECES {
        if yard_session::is_ended(at.stage) {
            break;
        }
        let end = rt.stdin().read(piece).unwrap_or(0);
        if end == 0 {
            let last = yard_session::take_end(lent, area, at);
            return rt.write_all(&lent.out[..last.printed]);
        }
        at = take_piece(rt, lent, area, &piece[..end], at)?;
    }
    Ok(())
}

fn main(rt: HostRuntime) {
    let mut table = [[0u32; ROW_WIDTH]; TABLE_ROWS];
    let mut work = [[0u32; ROW_WIDTH]; WORK_ROWS];
    let mut result = [[0u64; 2]; ENTRIES];
    let mut out = [0u8; OUT];
    let mut area = [0u8; LINE];
    let mut piece = [0u8; PIECE];
    let mut lent = Lent {
        table: &mut table,
        work: &mut work,
        res: &mut result,
        out: &mut out,
    };
    // A write that fails ends the program as the end of the input does.
    converse(&rt, &mut lent, &mut area, &mut piece).unwrap_or(());
}
