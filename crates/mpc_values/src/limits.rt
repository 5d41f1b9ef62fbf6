//! Every limit of mpc, each with its name. docs/LIMITS.md tells what comes at each.

/// The most bytes of a source.
pub const MAX_SOURCE_BYTES: usize = 1_048_576;

/// The most bytes of a machine file.
pub const MAX_MACHINE_BYTES: usize = 262_144;

/// The most bytes of a journal's text.
pub const MAX_JOURNAL_BYTES: usize = 1_073_741_824;

/// The most constructs of the grammar that are open at one place of a source.
pub const MAX_NESTING: usize = 128;

/// The most tokens of one expression.
pub const MAX_EXPRESSION_TOKENS: usize = 1_024;

/// The greatest length of an array.
pub const MAX_ARRAY_LENGTH: u32 = 1_048_576;

/// The most static variables of a program.
pub const MAX_STATIC_VARIABLES: usize = 4_096;

/// The most words that all static variables of a program have together.
pub const MAX_STATIC_WORDS: u64 = 262_144;

/// The most `single` and `barrier` statements of a program.
pub const MAX_CONSTRUCTS: usize = 256;

/// The most tasks of a run.
pub const MAX_TASKS: u32 = 64;

/// The most cores of a machine.
pub const MAX_CORES: usize = 256;

/// The deepest call of a function; main is at depth 1.
pub const MAX_DEPTH: usize = 1_024;

/// The most turns of loops and calls of functions that a task may make.
pub const MAX_TURNS: u32 = 10_000_000;

/// The most bytes that a task may print.
pub const MAX_OUTPUT_BYTES: usize = 1_048_576;

/// The most words of one sender's eager messages that are not yet matched.
pub const MAX_HELD_WORDS: u32 = 262_144;

/// The greatest length of a message that may be eager, which `--eager` can set.
pub const MAX_EAGER: u32 = 65_536;

/// The length up to which a message is eager where `--eager` is not given.
pub const DEFAULT_EAGER: u32 = 1_024;

/// The most words in live locals and blocks of a task that `--quota` can set.
pub const MAX_QUOTA: u32 = 1_048_576;

/// The most words in live locals and blocks of a task where `--quota` is not given.
pub const DEFAULT_QUOTA: u32 = 65_536;

/// The most journal entries that all tasks may have together, and that `--calls` can set for one: one entry more ends the run.
pub const MAX_CALLS: u32 = 16_000_000;

/// The most journal entries of a task where `--calls` is not given.
pub const DEFAULT_CALLS: u32 = 250_000;

/// The greatest number of a posting, request, object, communicator or arrival.
pub const MAX_GIVEN: u32 = 4_294_967_000;
