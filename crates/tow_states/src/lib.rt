//! What holds in each state of a connection that is served by turns, and that each step leads from one to the next.
//! Definitions in `specs/`, no running code:
//!
//! - `Leaving`: the limits that the open request is inside, whatever the outside tells;
//! - `Known`: what is known of the connection and of the exchange of its open request;
//! - `Reading`: between requests, and the answer to a head that is refused;
//! - `Opening`: a head was read;
//! - `Walking`: an exchange walks, or waits for a verdict, a page, a worker;
//! - `Gathering`: it waits for its content, which is read;
//! - `Sending`: it has stopped, and its answer is put piece by piece;
//! - `Completing`: all of its answer was put;
//! - `Closing`: its listeners run;
//! - `Ending`: no listener is left: the next request is read, or the connection ends;
//! - `Serving`: which files an answer names;
//! - `Calling`: how many calls of limits a request may still make;
//! - `Moving`: the link is read and written in any state;
//! - `Breaking`: a fault, or want of memory, in any state;
//! - `States`: all states by their names, and what is true in each of them.
//!
//! `laws` states the steps, each law as the contract of a function that does nothing.
#![tactic(auto)]

mod laws;

pub use laws::{
    answer_is_decided, answer_is_sent, calls_have_places, closing_comes_to_end, closing_is_kept,
    content_is_short, content_is_taken, course_is_met, cut_has_ended, exchange_completes,
    exchange_opens, files_are_of_pages, found_files_have_bytes, last_is_done, reading_begins,
    reading_ends, refusal_is_put, refusing_begins, request_stays_inside, states_are_sound,
    states_break, states_move, walk_comes_to_content, walk_is_kept,
};
