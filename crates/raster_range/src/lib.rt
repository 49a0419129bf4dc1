#![tactic(auto)]

// A part of a row or of the rows: from start up to end, end left out. std's Range is an iterator, and so not Copy.
// That start is at most end is no ghost field: Kept and Inner say it with the other bounds that their users need.
#[derive(Clone, Copy)]
pub struct Range {
    pub start: u32,
    pub end: u32,
}
