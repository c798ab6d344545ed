//! The limits of the numbers of options. The program is built only if engines with such a limit agree.

pub const MAX_LIMIT: u64 = 1 << 40;

pub const MAX_RING: u64 = 64;

pub const MAX_ROUNDS: u64 = 1 << 40;

pub const MAX_WORKERS: u64 = 64;

pub const MAX_TURNS: u64 = 1 << 40;

pub const MAX_TRACE_ROWS: u64 = 1 << 20;

pub const MAX_PROCESSES: u64 = 1 << 22;
