//! The numbers that bound what is read, kept and written. Each stands here once, and specs and contracts cite it.

/// The bytes of the longest handlers text.
pub const MAX_TEXT_LEN: usize = 65_536;

/// The levels of blocks, conditions and `else` that may be open at one place of a text.
pub const MAX_LEVELS: usize = 32;

/// The `request-limit` handlers that a text may have.
pub const MAX_LIMITS: usize = 16;

/// The most exchanges that one `request-limit` may admit at a time.
pub const MAX_ADMITTED: u32 = 65_535;

/// The restarts of an exchange. The next one is answered 500.
pub const MAX_RESTARTS: usize = 16;

/// The bytes up to which the value of a template is kept. What is longer is cut.
pub const MAX_VALUE_LEN: usize = 65_536;

/// The response fields past which `set` and `header` add none.
pub const MAX_RESPONSE_FIELDS: usize = 256;

/// The bytes of the longest request head, with the empty lines before it.
pub const MAX_HEAD_LEN: usize = 65_536;

/// The field lines of a request head.
pub const MAX_HEAD_FIELDS: usize = 200;

/// The bytes of the longest content of a request.
pub const MAX_CONTENT_LEN: u64 = 1_048_576;

/// The bytes of the longest line of a chunk's size, with its line end.
pub const MAX_CHUNK_LINE_LEN: usize = 256;

/// The bytes of the longest trailer, with its empty line.
pub const MAX_TRAILER_LEN: usize = 8_192;

/// The requests of a connection. The answer to the last one closes it.
pub const MAX_REQUESTS: u32 = 1_000;

/// The bytes that each of the two pipes of a connection holds.
pub const PIPE_LEN: usize = 65_536;

/// The bytes of a block of content that is written, but for the last one, which may be shorter.
pub const BLOCK_LEN: usize = 16_384;

/// The connections of a run.
pub const MAX_CONNECTIONS: u32 = 2_147_483_647;

/// The first second since 1970 that no date field can show: that of the year 10000.
pub const FIRST_UNDATED: u64 = 253_402_300_800;

/// The address 127.0.0.1, as a number.
pub const LOCAL_PEER: u32 = 0x7F00_0001;
