// The functions that look at a sheet's lists: rule 11 and every number to 0, what stands in a slot, the relation table, rule 12 and the
// refusals 11, 8 and 12 in their order.
#![tactic(auto)]

pub mod lists;
pub mod refused;
pub mod slots;
pub mod table;
