// What a search goes by, made once and handed on by one reference: range and nearest share it.
#![tactic(auto)]

ghost use Rattle.std.specs.Prelude.{◌≡◌};
ghost use Rattle.metric_rules.specs.Row.{query_row, may_report};
ghost use Rattle.search_asked.specs.Asked.{asked_of};

use metric_rules::{Profile, Row};
use row_store::row_of;
use rows::{day_of, is_live};

// The table's header row, and the query as a row whose threshold word is the radius of a range search or the k of a
// nearest one, and whose day word is the first day.
pub type Asked = [Row; 2];

// The query's row.
pub fn query_row(query: Profile, number: u32, first_day: u32) -> Row
    ensures { result ≡ query_row query number first_day }
{
    row_of(0, query, number, 0, first_day)
}

// What a search of a table with this header goes by.
pub fn asked_of(header: Row, query: Profile, number: u32, first_day: u32) -> Asked
    ensures { result ≡ asked_of header query number first_day }
{
    [header, query_row(query, number, first_day)]
}

// Whether a search by this query may report a slot: a live item, weighed on the first day or later.
#[tactic(auto, unfolding(metric_rules::specs::Row::may_report))]
pub fn may_report(query: &Row, row: Row) -> bool
    ensures { result ≡ may_report query.now row }
{
    is_live(row) & (day_of(*query) <= day_of(row))
}
