//! Texts without a fault that `ask` refuses, and what is said of them.

use super::remarks::Noted;

pub(crate) const UNBUILT: &[Noted] = &[
    (
        b"resource(/site)",
        "note: 1:1: this is not built yet, so ask refuses the text: `resource`\n",
    ),
    (
        b"path(/a) -> done\npath(/b) -> { header(header=x, value=echo); echo }\nelse access-log",
        "note: 2:45: this is not built yet, so ask refuses the text: `echo`\nnote: 3:6: this is not built yet, so ask refuses the text: `access-log`\n",
    ),
    (
        b"path(echo, resource) -> request-limit(1)",
        "note: 1:25: this is not built yet, so ask refuses the text: `request-limit`\n",
    ),
    (b"path(echo) -> blocking", ""),
    (b"path('/a -> echo", ""),
];
