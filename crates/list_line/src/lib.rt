// A line of a herd list, read where it lies: first where it ends, then its fields in turn.
#![tactic(auto)]

ghost use Rattle.std.specs.Prelude.{◌≡◌};
ghost use Rattle.list_rules.specs.Lines.{line_of};
ghost use Rattle.list_line.specs.Places.{as_line, LineAt};

use metric_rules::Profile;

// An item and the place behind its line feed.
#[derive(Clone, Copy)]
pub struct LineRead {
    pub tag: u64,
    pub profile: Profile,
    pub next: usize,
}

// The item of a line without its line feed: a tag, four measures, the code zero.
fn item(line: &[u8]) -> Option<(u64, Profile)>
    ensures { as_line result ≡ line_of line.now }
{
    let tag_end = text_read::part_end(line, b';', 0);
    let tag = text_read::number(&line[..tag_end], 10, 15, 15)?;
    let read = text_read::measures(line, tag_end, b';', b',')?;
    if read.end < line.len() {
        return None;
    }
    let measures = read.measures;
    let profile = Profile {
        measures,
        code: [0, 0],
    };
    Some((tag, profile))
}

// The item of the line that begins at a place, if the line has its line feed and is of the form.
pub fn line(list: &[u8], at: usize) -> Option<LineRead>
    ensures { LineAt list.now at result }
{
    if list.len() <= at {
        return None;
    }
    let end = text_read::part_end(list, b'\n', at);
    if list.len() <= end {
        return None;
    }
    let (tag, profile) = item(&list[at..end])?;
    Some(LineRead {
        tag,
        profile,
        next: end + 1,
    })
}
