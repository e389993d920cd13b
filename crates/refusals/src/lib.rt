// RULES 14.1: what stops a call, and the number of each refusal in a reply.
#![tactic(auto)]

ghost use Rattle.std.specs.Prelude.{◌≡◌};
ghost use Rattle.refusals.specs.Number.{number_of};

use batch_rules::BAD_BATCH;
use dues_rules::NO_DUES;
use image_rules::{BAD_THRESHOLD, DUPLICATE_TAG, MISPLACED_ITEM};
use list_rules::{BAD_LIST_HEADER, BAD_LIST_LINE};
use lots_rules::BAD_RADII;
use state_rules::{BAD_NAME, NOT_SAVED};
use table_rules::{
    ALREADY_LIVE, BAD_DAY, BAD_IMAGE, BAD_LENGTH, BAD_MEASURE, BAD_METRIC, BAD_ORDER, BAD_TABLE,
    BAD_TAG, BAD_WEIGHT, FULL, NO_COUNT, NO_ROOM, NOT_LIVE, SHORT_AREA,
};

#[derive(Clone, Copy, PartialEq, Eq)]
pub enum Refusal {
    BadTag,
    BadMeasure,
    BadOrder,
    BadMetric,
    NoCount,
    NoRoom,
    BadLength,
    BadImage,
    AlreadyLive,
    NotLive,
    Full,
    ShortArea,
    BadTable,
    BadListHeader,
    BadListLine,
    BadWeight,
    BadDay,
    BadName,
    NotSaved,
    DuplicateTag,
    MisplacedItem,
    BadThreshold,
    NoDues,
    BadBatch,
    BadRadii,
}

// The replies of a refused call are written out where they are made: nine structs, each with its own zeros, would take
// an impl each.
impl From<Refusal> for u32 {
    ghost from_gives = { λ refusal n. n ≡ number_of refusal };

    fn from(refusal: Refusal) -> u32 {
        match refusal {
            Refusal::BadTag => BAD_TAG,
            Refusal::BadMeasure => BAD_MEASURE,
            Refusal::BadOrder => BAD_ORDER,
            Refusal::BadMetric => BAD_METRIC,
            Refusal::NoCount => NO_COUNT,
            Refusal::NoRoom => NO_ROOM,
            Refusal::BadLength => BAD_LENGTH,
            Refusal::BadImage => BAD_IMAGE,
            Refusal::AlreadyLive => ALREADY_LIVE,
            Refusal::NotLive => NOT_LIVE,
            Refusal::Full => FULL,
            Refusal::ShortArea => SHORT_AREA,
            Refusal::BadTable => BAD_TABLE,
            Refusal::BadListHeader => BAD_LIST_HEADER,
            Refusal::BadListLine => BAD_LIST_LINE,
            Refusal::BadWeight => BAD_WEIGHT,
            Refusal::BadDay => BAD_DAY,
            Refusal::BadName => BAD_NAME,
            Refusal::NotSaved => NOT_SAVED,
            Refusal::DuplicateTag => DUPLICATE_TAG,
            Refusal::MisplacedItem => MISPLACED_ITEM,
            Refusal::BadThreshold => BAD_THRESHOLD,
            Refusal::NoDues => NO_DUES,
            Refusal::BadBatch => BAD_BATCH,
            Refusal::BadRadii => BAD_RADII,
        }
    }
}
