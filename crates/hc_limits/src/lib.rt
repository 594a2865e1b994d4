//! The limits of the language and of its runs, each with its unit. `specs/Limits.antt` has the same numbers for
//! definitions.
#![tactic(auto)]

/// The most bytes of a source.
pub const MOST_SOURCE_BYTES: usize = 1_048_576;

/// The most bytes of a word of a source: a name, a keyword, or a rate with its `_dot`.
pub const MOST_WORD_BYTES: usize = 64;

/// The most items (brackets, bodies, branches) that are open at once in a source.
pub const MOST_OPEN_ITEMS: u32 = 64;

/// The most nodes of one expression, or of one condition with its expressions: signs, numbers and names.
pub const MOST_NODES: u32 = 200;

/// The most nodes of all expressions and conditions of a system.
pub const MOST_NODES_IN_ALL: u32 = 50_000;

/// The most statements of a system, those inside others counted; guards count none.
pub const MOST_STATEMENTS: u32 = 10_000;

/// The most processes of a system.
pub const MOST_PROCESSES: usize = 64;

/// The most channels of a system.
pub const MOST_CHANNELS: usize = 256;

/// The most variables of a process.
pub const MOST_VARIABLES: usize = 64;

/// The most guards of a choice.
pub const MOST_GUARDS: usize = 32;

/// The most steps to which a run may be limited, silent ones counted. The least is 1.
pub const MOST_STEPS: u64 = 1_000_000;

/// The most silent steps of one event of a process.
pub const MOST_SILENT_STEPS: u32 = 4_096;

/// The steps to which a run is limited where the words give no limit.
pub const DEFAULT_STEPS: u32 = 10_000;

/// The horizon, in time units, where the words give none.
pub const DEFAULT_HORIZON: i64 = 100;

/// The most bytes of a C text, and of a source with its trace.
pub const MOST_TEXT_BYTES: usize = 67_108_864;

/// The most threads among which processes are shared. The least is 1.
pub const MOST_WORKERS: u32 = 64;

/// The most steps of the thread machine. The least is 1.
pub const MOST_MACHINE_STEPS: u32 = 10_000_000;

/// The steps of the thread machine where the words give none.
pub const DEFAULT_MACHINE_STEPS: u32 = 100_000;

/// The most pairs of processes of a made source. The least is 1.
pub const MOST_PAIRS: u32 = 32;
