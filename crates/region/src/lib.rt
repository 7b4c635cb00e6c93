// What a region is, rules 1 to 7 (SCOPE 3.1), and the numbers of all refusals. The only code gives a refusal its number.
#![tactic(auto)]

pub mod refusals;

use refusals::Refusal;

pub const MOST_RINGS: usize = 8;

pub const MOST_VERTICES: usize = 64;

// An outline as it is lent: x and y of vertex after vertex, and the ring ends.
#[derive(Clone, Copy)]
pub struct Outline<'a> {
    pub coordinates: &'a [i32],
    pub ends: &'a [u16],
}

// What refuses a region: the lowest of the rules 1 to 7 that some ring breaks, and the first ring, from 0 on, that breaks it.
#[derive(Clone, Copy, PartialEq, Eq)]
pub struct Broken {
    pub rule: Refusal,
    pub ring: u16,
}

// What refuses two regions that are asked about together: which of them, 1 or 2, and what refuses it.
#[derive(Clone, Copy, PartialEq, Eq)]
pub struct RefusedRegion {
    pub region: u16,
    pub broken: Broken,
}
