//! Where an exchange stands in the program of its text.

/// Where an exchange goes on.
#[derive(Clone, Copy, Debug, PartialEq, Eq)]
pub enum Place {
    /// At the instruction of this number, from 0. The number after the last one stands for the end of the text.
    InText(usize),
    /// After the look of the default handler for a page.
    AtDefault,
}
