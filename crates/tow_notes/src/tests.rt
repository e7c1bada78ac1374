//! What is noted on texts without a fault.

mod noting;
mod remarks;
mod right;
mod unbuilt;
