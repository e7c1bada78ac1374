//! The stages of a connection that is served by turns, as data, and what holds in each. Each thing that a turn does leads from
//! one stage to the next, and what holds goes on to hold.
//!
//! - `laws`: each law as the contract of a function.
#![tactic(auto)]

mod laws;

pub use laws::{
    answerings_lead_on, closings_lead_on, connection_begins, ends_are_ends, failures_lead_on,
    gatherings_lead_on, readings_lead_on, reads_lead_on, refusals_lead_on, stages_write_fronts,
    walkings_lead_on, writes_lead_on,
};
