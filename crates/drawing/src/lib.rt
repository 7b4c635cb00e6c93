// The matrix straight from the edges: what marks a cell of the grid of both boxes' lines. There is no code here.
#![tactic(auto)]

// The part of its way that an edge spends between two lines of one axis: from the moment `from` to the moment `to`, in `of` parts.
#[derive(Clone, Copy)]
pub struct Stay {
    pub from: u64,
    pub to: u64,
    pub of: u64,
}
