use tow_model::{List, Tree};

/// The tree of a text.
#[derive(Debug, Drop)]
pub struct Parsed {
    pub tree: Tree,
    /// The offset of each pattern's value, in the order of the text.
    pub patterns: List<usize>,
}
