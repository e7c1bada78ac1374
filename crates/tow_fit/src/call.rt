use tow_model::{Bytes, List};

/// A Word's bytes, or those for which a Quoted stands, and the offset at which the token begins.
#[derive(Debug, Drop)]
pub struct WrittenText {
    pub bytes: Bytes,
    pub place: usize,
}

/// One text, or an array with the offset of its opening brace.
#[derive(Debug, Drop)]
pub enum WrittenValue {
    One(WrittenText),
    Array {
        place: usize,
        texts: List<WrittenText>,
    },
}

/// A parameter with its name.
#[derive(Debug, Drop)]
pub struct WrittenPair {
    pub name: WrittenText,
    pub value: WrittenValue,
}

/// What stands between a call's brackets, in the order of the text: values alone, or each with a name.
#[derive(Debug, Drop)]
pub enum WrittenParameters {
    Unnamed(List<WrittenValue>),
    Named(List<WrittenPair>),
}

/// A call as it is written.
#[derive(Debug, Drop)]
pub struct Call {
    pub name: WrittenText,
    pub parameters: WrittenParameters,
}
