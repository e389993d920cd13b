#![tactic(auto)]

// Range and nearest over one tree: what their definitions name.

// An entry of a result area: a tag and its distance. It stays an array of two words, as C lends the area.
pub type Entry = [u64; 2];
