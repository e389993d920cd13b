// A herd list read into a table: its header, then line by line an add, up to the first line refused.
#![tactic(auto)]

ghost use Rattle.std.specs.Prelude.{◌≡◌};
ghost use Rattle.list_rules.specs.Lines.{lines_of};
ghost use Rattle.list_rules.specs.ReadList.{reading, read_list_reply, table_after_read_list, work_after_read_list};

use list_line::line;
use list_rules::ListRead;
use metric_rules::Row;
use refusals::Refusal;
use table_add::add;

// The lines behind the header. A line's number is two more than the lines before it, which are all added.
fn read_lines(table: &mut [Row], work: &mut [Row], lines: &[u8], day: u32) -> ListRead
    ensures reply { result ≡ (reading day table.old work.old 2 (lines_of lines.now)).reply }
    ensures table { table.new ≡ (reading day table.old work.old 2 (lines_of lines.now)).table }
    ensures work { work.new ≡ (reading day table.old work.old 2 (lines_of lines.now)).work }
{
    let mut at: usize = 0;
    let mut added: u32 = 0;
    let mut distances: u32 = 0;
    // Each step goes on by a whole line: no index is counted. The reply of an add is C's, with a refusal's number.
    while at < lines.len() {
        let number = added + 2;
        let Some(item) = line(lines, at) else {
            return ListRead {
                refusal: u32::from(Refusal::BadListLine),
                line: number,
                added,
                distances,
            };
        };
        let reply = add(table, work, item.tag, item.profile, day);
        if reply.refusal != 0 {
            return ListRead {
                refusal: reply.refusal,
                line: number,
                added,
                distances,
            };
        }
        added += 1;
        distances += reply.distances;
        at = item.next;
    }
    ListRead {
        refusal: 0,
        line: 0,
        added,
        distances,
    }
}

// A herd list of one day, for every table, work area and string of bytes. The header is told with its line feed.
pub fn read_list(table: &mut [Row], work: &mut [Row], list: &[u8], day: u32) -> ListRead
    ensures reply { result ≡ read_list_reply table.old work.old list.now day }
    ensures table { table.new ≡ table_after_read_list table.old work.old list.now day }
    ensures work { work.new ≡ work_after_read_list table.old work.old list.now day }
{
    let Some(lines) = list.strip_prefix(b"tag;kg;hip;girth;gain\n") else {
        return ListRead {
            refusal: u32::from(Refusal::BadListHeader),
            line: 1,
            added: 0,
            distances: 0,
        };
    };
    read_lines(table, work, lines, day)
}
