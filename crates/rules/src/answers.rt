// What the calls of a station answer.

// A row of a plan: a setting (action) and the mark (reward) that its step earns.
#[derive(Clone, Copy, PartialEq, Eq, Debug)]
pub struct Row {
    pub setting: u8,
    pub mark: u16,
}

// Why work stopped, in the order in which it is checked.
#[derive(Clone, Copy, PartialEq, Eq, Debug)]
pub enum Stop {
    // the gap is at most the wanted gap
    Near,
    // this call has made its number of expansions
    Spent,
    // the leaf to expand has the greatest depth, 32
    Deep,
    // fewer than K node cells are free
    Full,
}

// What work answers.
#[derive(Clone, Copy, PartialEq, Eq, Debug)]
pub struct Report {
    pub stop: Stop,
    // nodes expanded by this call
    pub expansions: usize,
    // nodes expanded since the search began
    pub search_expansions: usize,
    // all nodes, with node 0
    pub nodes: usize,
    // the greatest depth of an expanded node, or 0
    pub reach: u8,
    // the greatest low worth (lower bound) of a leaf, in grains
    pub promise: u64,
    // the most, in grains, by which any other plan could beat the promise
    pub gap: u64,
}

// What take answers.
#[derive(Clone, Copy, PartialEq, Eq, Debug)]
pub struct Taken {
    // whether the plan replaced the rows behind the kept ones; no `Option`, since both worths are told either way,
    // and no question of the two, since who is told need not know how a take compares them
    pub replaced: bool,
    // the low worth of the plan
    pub promise: u64,
    // the low worth of the rows behind the kept ones, before
    pub standing: u64,
    pub gap: u64,
}
