// The conversation: a line and what stands before it, the areas after it and the bytes to print.
#![tactic(auto)]

ghost use Rattle.std.specs.Prelude.{◌≡◌, List, ℕ, ◌≤◌, ◌<◌, ◌^◌, length, Some};
ghost use Rattle.metric_rules.specs.Row.{Row};
ghost use Rattle.search_rules.specs.Range.{Entry};
ghost use Rattle.yard_rules.specs.Line.{header_in};
ghost use Rattle.yard_rules.specs.Conversation.{header_refusal, header_outcome, line_outcome};
ghost use Rattle.yard_command.specs.Lent.{lent, areas_in, SameAreas};
ghost use Rattle.yard_step.specs.StepLeaves.{table_after_header, StepLeaves};

use metric_rules::{Row, Space, WEIGHTS_ONE};
use search_rules::Entry;
use table_rules::BAD_ORDER;
use yard_command::Lent;
use yard_rules::{Header, Stage};

// How far the conversation is after a line, and how many bytes it prints.
#[derive(Clone, Copy)]
pub struct Stepped {
    pub stage: Stage,
    pub length: usize,
}

// The largest order that the program takes.
const MOST_ORDER: u32 = 8;

// What a header is refused with, 0 if accepted: then the table is a fresh one. The refusal stays a number, as the call
// has it in C and as the reply prints it.
fn set_up(table: &mut [Row], header: Header) -> u32
    ensures reply { result ≡ header_refusal table.old header.order header.metric }
    ensures table { table.new ≡ table_after_header header.order header.metric table.old }
{
    if MOST_ORDER < header.order {
        return BAD_ORDER;
    }
    let space = Space {
        metric: header.metric,
        weights: WEIGHTS_ONE,
    };
    table_fresh::fresh(table, header.order, space)
}

// A line of the form of a header.
fn accept_header(table: &mut [Row], out: &mut [u8], header: Header) -> Stepped
    requires { 65 ≤ length out.old }
    ensures { (work : List Row) (res : List Entry) (number : ℕ) →
        StepLeaves (header_outcome (lent table.old work res) number (Some header)) (lent table.new work res)
        out.old out.new result }
{
    let refusal = set_up(table, header);
    if refusal == 0 {
        return Stepped {
            stage: Stage::Serving,
            length: 0,
        };
    }
    Stepped {
        stage: Stage::Ended,
        length: yard_reply::put_one(out, b'F', refusal as u64),
    }
}

// The first line.
fn first_line(table: &mut [Row], out: &mut [u8], number: u64, line: &[u8]) -> Stepped
    requires { (65 ≤ length out.old) × (length line.now < 2 ^ 32) }
    ensures { (work : List Row) (res : List Entry) →
        StepLeaves (header_outcome (lent table.old work res) number (header_in line.now)) (lent table.new work res)
        out.old out.new result }
{
    match yard_line::header(line) {
        Some(header) => accept_header(table, out, header),
        None => Stepped {
            stage: Stage::Ended,
            length: yard_reply::put_one(out, b'?', number),
        },
    }
}

// A line and its number, counted from 1: every line of every conversation.
pub fn step(lent: &mut Lent<'_>, stage: Stage, number: u64, line: &[u8]) -> Stepped
    requires { length line.now < 2 ^ 32 }
    ensures same { SameAreas lent.old lent.new }
    ensures leaves { StepLeaves (line_outcome (areas_in lent.old) number stage line.now) (areas_in lent.new)
        lent.old.out.now lent.new.out.now result }
{
    match stage {
        Stage::Waiting => first_line(lent.table, lent.out, number, line),
        Stage::Serving => Stepped {
            stage: Stage::Serving,
            length: yard_command::answer(lent, number, line),
        },
        Stage::Ended => Stepped {
            stage: Stage::Ended,
            length: 0,
        },
    }
}
