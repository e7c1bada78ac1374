use tow_model::List;

/// What was numbered so far, in the order of the text.
#[derive(Debug, Drop)]
pub struct Counts {
    /// How many limits were met; at most 16.
    pub limits: u32,
    /// How many access logs were met.
    pub logs: u32,
    /// The offset of each pattern's value.
    pub patterns: List<usize>,
}
