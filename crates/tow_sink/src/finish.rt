/// What the end of a feed has come to.
#[derive(Clone, Copy, Debug, PartialEq, Eq)]
pub enum Finish {
    /// All is put into the pipe.
    Finished,
    /// The pipe is full, and more is pending: call `finish` again when it has room.
    Full,
}
