// A line after an accepted header: the command that it is, and what answering it leaves in the areas. Each command has
// a function: the call, and its reply as bytes.
#![tactic(auto)]

ghost use Rattle.std.specs.Prelude.{◌≡◌, ◌+◌, ◌*◌, ◌≤◌, ◌<◌, ◌^◌, length};
ghost use Rattle.table_rules.specs.Add.{add_reply, table_after_add, work_after_add};
ghost use Rattle.table_rules.specs.Remove.{remove_reply, table_after_remove, work_after_remove};
ghost use Rattle.table_rules.specs.Search.{range_reply, result_after_range, nearest_reply, result_after_nearest};
ghost use Rattle.yard_rules.specs.Line.{letter_n, letter_w, command_in, profile_in};
ghost use Rattle.yard_rules.specs.Reply.{add_text, remove_text, search_text};
ghost use Rattle.yard_rules.specs.Conversation.{areas_after, text_after};
ghost use Rattle.yard_reply.specs.Put.{Puts};
ghost use Rattle.yard_command.specs.Lent.{areas_in, SameAreas};

mod lent;

pub use lent::Lent;
use metric_rules::{Profile, Row};
use search_rules::Entry;
use yard_rules::Command;

fn run_add(
    table: &mut [Row],
    work: &mut [Row],
    out: &mut [u8],
    tag: u64,
    profile: Profile,
    day: u32,
) -> usize
    requires { 65 ≤ length out.old }
    ensures table { table.new ≡ table_after_add table.old work.old tag profile day }
    ensures work { work.new ≡ work_after_add table.old work.old tag profile day }
    ensures text { Puts out.old out.new result (add_text (add_reply table.old work.old tag profile day)) }
{
    yard_reply::put_added(out, table_add::add(table, work, tag, profile, day))
}

fn run_remove(table: &mut [Row], work: &mut [Row], out: &mut [u8], tag: u64) -> usize
    requires { 65 ≤ length out.old }
    ensures table { table.new ≡ table_after_remove table.old work.old tag }
    ensures work { work.new ≡ work_after_remove table.old work.old tag }
    ensures text { Puts out.old out.new result (remove_text (remove_reply table.old work.old tag)) }
{
    yard_reply::put_removed(out, table_remove::remove(table, work, tag))
}

// A search's reply needs room for as many entries as the result area has.
fn run_range(
    table: &[Row],
    res: &mut [Entry],
    out: &mut [u8],
    query: Profile,
    radius: u32,
    first_day: u32,
) -> usize
    requires { 65 + 37 * length res.old ≤ length out.old }
    ensures res { res.new ≡ result_after_range table.now res.old query radius first_day }
    ensures text { Puts out.old out.new result
        (search_text letter_w (range_reply table.now res.old query radius first_day)
        (result_after_range table.now res.old query radius first_day)) }
{
    let reply = table_range::range(table, res, query, radius, first_day);
    yard_reply::put_searched(out, b'W', reply, res)
}

fn run_nearest(
    table: &[Row],
    res: &mut [Entry],
    out: &mut [u8],
    query: Profile,
    k: u32,
    first_day: u32,
) -> usize
    requires { 65 + 37 * length res.old ≤ length out.old }
    ensures res { res.new ≡ result_after_nearest table.now res.old query k first_day }
    ensures text { Puts out.old out.new result
        (search_text letter_n (nearest_reply table.now res.old query k first_day)
        (result_after_nearest table.now res.old query k first_day)) }
{
    let reply = table_nearest::nearest(table, res, query, k, first_day);
    yard_reply::put_searched(out, b'N', reply, res)
}

// A line, as the command that it is.
pub fn answer(lent: &mut Lent<'_>, number: u64, line: &[u8]) -> usize
    requires { length line.now < 2 ^ 32 }
    ensures same { SameAreas lent.old lent.new }
    ensures areas { areas_in lent.new ≡ areas_after (areas_in lent.old) (command_in line.now) (profile_in line.now) }
    ensures text { Puts lent.old.out.now lent.new.out.now result
        (text_after (areas_in lent.old) number (command_in line.now) (profile_in line.now)) }
{
    let Some(command) = yard_line::command(line) else {
        return yard_reply::put_one(lent.out, b'?', number);
    };
    // A reborrow of its own: the searches only read the table, and the proof has to see that they leave it as it was.
    let table = &mut *lent.table;
    match command {
        Command::Add(tag, day) => {
            let profile = yard_line::profile(line);
            run_add(table, lent.work, lent.out, tag, profile, day)
        }
        Command::Remove(tag) => run_remove(table, lent.work, lent.out, tag),
        Command::Within(radius, first_day) => {
            let query = yard_line::profile(line);
            run_range(table, lent.res, lent.out, query, radius, first_day)
        }
        Command::Nearest(k, first_day) => {
            let query = yard_line::profile(line);
            run_nearest(table, lent.res, lent.out, query, k, first_day)
        }
    }
}
