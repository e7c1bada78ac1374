//! How far an exchange under way has come to the outcome that is owed, whoever takes its steps and in whatever parts.
//! Definitions in `specs/`, no running code:
//!
//! - `Course`: what an exchange got so far, and that what is left to play comes to the outcome of its text;
//! - `Breaks`: what is true of an exchange that is cut short;
//! - `Growing`: listeners are only ever added, from stop to stop.
//!
//! `laws` states how a course opens and goes on, each law as the contract of a function that does nothing.
#![tactic(auto)]

mod laws;

pub use laws::{
    course_advances, course_breaks, course_hears, course_looks, course_opens, course_reads,
    course_stops, course_waits_for_content, course_waits_for_verdict, listeners_grow,
};
