// The build: its refusals, the plan, and the table's bytes written into the lent room.
#![tactic(auto)]

pub mod build;
mod offsets;
mod plan;
mod starts;
mod stored;
mod write_header;
mod write_heap;
mod write_structure;
mod write_table;
