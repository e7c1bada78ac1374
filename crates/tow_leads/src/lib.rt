//! What each part of a turn leads a connection to. The parts say what they do in words of their own: a port, a walk, a reply, a
//! source, an answer under way. Here it is proved that what they say leads from state to state.
//!
//! - `laws`: each law as the contract of a function.
#![tactic(auto)]

mod laws;

pub use laws::{
    drains_lead_on, gatherings_lead_on, ports_lead_on, replies_lead_on, sends_lead_on,
    walks_lead_on,
};
