// Lines out of pieces of the input, held in an area of bounded length: a longer line is only known to be longer.
#![tactic(auto)]

ghost use Rattle.std.specs.Prelude.{List, [], ◌∷◌, ◌++◌, ℕ, ◌≤◌, length};
ghost use Rattle.yard_lines.specs.Held.{Holds, Gathers};

// One byte more of the line. What is held of it is a number of bytes, and none where the line is longer than the area.
fn hold(area: &mut [u8], held: Option<usize>, b: u8) -> Option<usize>
    ensures { (line : List ℕ) → Holds area.old held line → Holds area.new result (line ++ (b ∷ [])) }
{
    let at = held?;
    if at < area.len() {
        area[at] = b;
        Some(at + 1)
    } else {
        None
    }
}

// What is held of a line so far, and the place in the piece where its line feed stands or the piece ends.
#[derive(Clone, Copy)]
pub struct Gathered {
    pub held: Option<usize>,
    pub end: usize,
}

// The bytes of a piece from a place up to a line feed or to its end, held after what is held already.
pub fn gather(area: &mut [u8], held: Option<usize>, piece: &[u8], from: usize) -> Gathered
    requires { from ≤ length piece.now }
    ensures { Gathers area.old held piece.now from area.new result }
{
    let mut held = held;
    // By places, as the place of the line feed is the reply.
    for i in from..piece.len() {
        if piece[i] == b'\n' {
            return Gathered { held, end: i };
        }
        held = hold(area, held, piece[i]);
    }
    Gathered {
        held,
        end: piece.len(),
    }
}
