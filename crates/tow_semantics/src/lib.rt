//! What a handlers text does to a request: values, predicates, effects, pages, and the walk over a text with its
//! outcome and its listeners. The definitions stand in specs/, and their laws in `laws`.
#![tactic(auto)]

pub mod laws;
