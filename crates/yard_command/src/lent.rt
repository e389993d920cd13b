// What is lent to a conversation.
ghost use Rattle.std.specs.Prelude.{◌+◌, ◌*◌, ◌≤◌, length};

use metric_rules::Row;
use search_rules::Entry;

// The areas that a conversation is lent: a table, its work area, an area for a search's result, and the bytes to print,
// with room for a reply of as many entries as the result area has.
#[derive(Drop)]
pub struct Lent<'a> {
    pub table: &'a mut [Row],
    pub work: &'a mut [Row],
    pub res: &'a mut [Entry],
    pub out: &'a mut [u8],
    ghost room: { 65 + 37 * length res.now ≤ length out.now },
}
