#![tactic(auto)]

// The program's lines: what a line says, and how far the conversation is. No function.

// The first line: an order and a metric. A line of another form is no header.
#[derive(Clone, Copy)]
pub struct Header {
    pub order: u32,
    pub metric: u32,
}

// A later line, with its tag, radius or k, and behind it the day of an add or the first day of a search; the profile of
// these stands beside it. A line of another form is no command.
#[derive(Clone, Copy)]
pub enum Command {
    Add(u64, u32),
    Remove(u64),
    Within(u32, u32),
    Nearest(u32, u32),
}

// Before the header, after an accepted one, and after a header that ends the program.
#[derive(Clone, Copy)]
pub enum Stage {
    Waiting,
    Serving,
    Ended,
}
