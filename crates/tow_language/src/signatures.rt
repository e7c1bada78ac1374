//! The table of the language: the name of each predicate and handler, and its parameters in their order. The fit looks calls up
//! here, and the printer prints from here. `specs/Table.antt` has the same rows for contracts to cite, and the contracts of this
//! file tie the two.

ghost use Rattle.std.specs.Prelude.{◌≡◌};
ghost use Rattle.tow_language.specs.Signatures.{handler_signature, signature_as, test_signature};
ghost use Rattle.tow_language.specs.Table as table;

use crate::table::{Handler, Shape, TestName};
use tow_model::limits::MAX_ADMITTED;

/// What a parameter stands for if it is not written.
#[derive(Clone, Copy, Debug, PartialEq, Eq)]
pub enum Standard {
    /// The template `%R`.
    ThePath,
    Truth(bool),
    /// The format `common`.
    Common,
}

/// A parameter of a call.
#[derive(Clone, Copy, Debug)]
pub struct Parameter {
    pub name: &'static [u8],
    pub shape: Shape,
    /// If there is none, the parameter has to be written.
    pub standard: Option<Standard>,
}

/// The name of a predicate or handler, and its parameters in their order.
#[derive(Clone, Copy, Debug)]
pub struct Signature {
    pub name: &'static [u8],
    pub parameters: &'static [Parameter],
}

/// All predicates.
pub const PREDICATES: [TestName; 11] = [
    TestName::True,
    TestName::False,
    TestName::Path,
    TestName::PathPrefix,
    TestName::PathSuffix,
    TestName::PathTemplate,
    TestName::Regex,
    TestName::Method,
    TestName::Equals,
    TestName::Contains,
    TestName::Exists,
];

/// All handlers.
pub const HANDLERS: [Handler; 12] = [
    Handler::Set,
    Handler::Clear,
    Handler::Rewrite,
    Handler::Redirect,
    Handler::ResponseCode,
    Handler::Header,
    Handler::AllowedMethods,
    Handler::RequestLimit,
    Handler::Resource,
    Handler::Blocking,
    Handler::AccessLog,
    Handler::Echo,
];

impl TestName {
    /// The predicate of this name.
    pub fn named(name: &[u8]) -> Option<TestName>
        ensures { result ≡ table.test_named name.now }
    {
        PREDICATES
            .iter()
            .copied()
            .find(|test| test.signature().name == name)
    }

    /// The predicate's row of the table.
    pub fn signature(self) -> Signature
        ensures { signature_as result ≡ test_signature self }
    {
        match self {
            TestName::True => Signature {
                name: b"true",
                parameters: &[],
            },
            TestName::False => Signature {
                name: b"false",
                parameters: &[],
            },
            TestName::Path => Signature {
                name: b"path",
                parameters: &[Parameter {
                    name: b"path",
                    shape: Shape::Paths,
                    standard: None,
                }],
            },
            TestName::PathPrefix => Signature {
                name: b"path-prefix",
                parameters: &[Parameter {
                    name: b"path",
                    shape: Shape::Prefixes,
                    standard: None,
                }],
            },
            TestName::PathSuffix => Signature {
                name: b"path-suffix",
                parameters: &[Parameter {
                    name: b"path",
                    shape: Shape::Texts,
                    standard: None,
                }],
            },
            TestName::PathTemplate => Signature {
                name: b"path-template",
                parameters: &[
                    Parameter {
                        name: b"match",
                        shape: Shape::Match,
                        standard: None,
                    },
                    Parameter {
                        name: b"value",
                        shape: Shape::OneTemplate,
                        standard: Some(Standard::ThePath),
                    },
                ],
            },
            TestName::Regex => Signature {
                name: b"regex",
                parameters: &[
                    Parameter {
                        name: b"pattern",
                        shape: Shape::Pattern,
                        standard: None,
                    },
                    Parameter {
                        name: b"value",
                        shape: Shape::OneTemplate,
                        standard: Some(Standard::ThePath),
                    },
                ],
            },
            TestName::Method => Signature {
                name: b"method",
                parameters: &[Parameter {
                    name: b"value",
                    shape: Shape::Texts,
                    standard: None,
                }],
            },
            TestName::Equals => Signature {
                name: b"equals",
                parameters: &[Parameter {
                    name: b"value",
                    shape: Shape::Templates,
                    standard: None,
                }],
            },
            TestName::Contains => Signature {
                name: b"contains",
                parameters: &[
                    Parameter {
                        name: b"value",
                        shape: Shape::OneTemplate,
                        standard: None,
                    },
                    Parameter {
                        name: b"search",
                        shape: Shape::Texts,
                        standard: None,
                    },
                ],
            },
            TestName::Exists => Signature {
                name: b"exists",
                parameters: &[Parameter {
                    name: b"value",
                    shape: Shape::OneTemplate,
                    standard: None,
                }],
            },
        }
    }
}

impl Handler {
    /// The handler of this name.
    pub fn named(name: &[u8]) -> Option<Handler>
        ensures { result ≡ table.handler_named name.now }
    {
        HANDLERS
            .iter()
            .copied()
            .find(|handler| handler.signature().name == name)
    }

    /// The handler's row of the table.
    pub fn signature(self) -> Signature
        ensures { signature_as result ≡ handler_signature self }
    {
        match self {
            Handler::Set => Signature {
                name: b"set",
                parameters: &[
                    Parameter {
                        name: b"attribute",
                        shape: Shape::Writable,
                        standard: None,
                    },
                    Parameter {
                        name: b"value",
                        shape: Shape::OneTemplate,
                        standard: None,
                    },
                ],
            },
            Handler::Clear => Signature {
                name: b"clear",
                parameters: &[Parameter {
                    name: b"attribute",
                    shape: Shape::Writable,
                    standard: None,
                }],
            },
            Handler::Rewrite => Signature {
                name: b"rewrite",
                parameters: &[Parameter {
                    name: b"value",
                    shape: Shape::OneTemplate,
                    standard: None,
                }],
            },
            Handler::Redirect => Signature {
                name: b"redirect",
                parameters: &[Parameter {
                    name: b"value",
                    shape: Shape::OneTemplate,
                    standard: None,
                }],
            },
            Handler::ResponseCode => Signature {
                name: b"response-code",
                parameters: &[Parameter {
                    name: b"value",
                    shape: Shape::Status,
                    standard: None,
                }],
            },
            Handler::Header => Signature {
                name: b"header",
                parameters: &[
                    Parameter {
                        name: b"header",
                        shape: Shape::FieldName,
                        standard: None,
                    },
                    Parameter {
                        name: b"value",
                        shape: Shape::OneTemplate,
                        standard: None,
                    },
                    Parameter {
                        name: b"override",
                        shape: Shape::Truth,
                        standard: Some(Standard::Truth(true)),
                    },
                ],
            },
            Handler::AllowedMethods => Signature {
                name: b"allowed-methods",
                parameters: &[Parameter {
                    name: b"methods",
                    shape: Shape::Tokens,
                    standard: None,
                }],
            },
            Handler::RequestLimit => Signature {
                name: b"request-limit",
                parameters: &[Parameter {
                    name: b"requests",
                    shape: Shape::Number {
                        low: 1,
                        high: MAX_ADMITTED,
                    },
                    standard: None,
                }],
            },
            Handler::Resource => Signature {
                name: b"resource",
                parameters: &[
                    Parameter {
                        name: b"location",
                        shape: Shape::Location,
                        standard: None,
                    },
                    Parameter {
                        name: b"allow-listing",
                        shape: Shape::Truth,
                        standard: Some(Standard::Truth(false)),
                    },
                ],
            },
            Handler::Blocking => Signature {
                name: b"blocking",
                parameters: &[],
            },
            Handler::AccessLog => Signature {
                name: b"access-log",
                parameters: &[Parameter {
                    name: b"format",
                    shape: Shape::Format,
                    standard: Some(Standard::Common),
                }],
            },
            Handler::Echo => Signature {
                name: b"echo",
                parameters: &[],
            },
        }
    }
}
