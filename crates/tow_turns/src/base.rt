//! What a connection has beside its stage.

use tow_model::Call;
use tow_port::Port;

/// What a connection has beside its stage.
#[derive(Drop)]
pub struct Base<L> {
    /// Its number, from 0.
    pub number: u32,
    /// How many of its requests were begun.
    pub begun: u32,
    pub port: Port<L>,
    /// Its calls of limits.
    pub calls: Vec<Call>,
    /// Its log failed for it, or a line found no memory: no more lines are put.
    pub silent: bool,
}
