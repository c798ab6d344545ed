//! The commands of the program: a table of their operands, their options and their help.

use crate::limits::{
    MAX_LIMIT, MAX_PROCESSES, MAX_RING, MAX_ROUNDS, MAX_TRACE_ROWS, MAX_TURNS, MAX_WORKERS,
};

/// A command.
pub struct CommandRow {
    pub name: &'static str,
    /// What it does, on one line.
    pub about: &'static str,
    /// The end of its help: what the lists do not say, the exit statuses and an example.
    pub after_help: &'static str,
    /// Its operands and its options.
    pub arguments: &'static [&'static ArgumentRow],
}

/// An operand or an option of a command.
pub struct ArgumentRow {
    /// The name of an option, without the two hyphens before it.
    pub name: &'static str,
    pub help: &'static str,
    pub is: Argument,
}

/// The kind of an argument.
pub enum Argument {
    /// An operand: a file that must be named.
    File,
    /// An operand: a word that may be missing.
    Word,
    /// An operand: a number that may be missing.
    Number,
    /// An option without a value.
    Flag,
    /// An option with the name of a file.
    FileOption,
    /// An option with a number: the letter for it in the help, the least and the most.
    NumberOption(&'static str, u64, u64),
}

pub const GRAPH: &ArgumentRow = &ArgumentRow {
    name: "GRAPH",
    help: "The graph, as JSON",
    is: Argument::File,
};

pub const CHIPS: &ArgumentRow = &ArgumentRow {
    name: "CHIPS",
    help: "The chips at the start (the configuration): rows vertex,chips",
    is: Argument::File,
};

pub const DROPS: &ArgumentRow = &ArgumentRow {
    name: "DROPS",
    help: "The chips to drop, in this order: rows vertex,chips",
    is: Argument::File,
};

pub const SCHEDULE: &ArgumentRow = &ArgumentRow {
    name: "SCHEDULE",
    help: "The events, in this order: rows event,at,count",
    is: Argument::File,
};

pub const TRACE_FILE: &ArgumentRow = &ArgumentRow {
    name: "TRACE",
    help: "What each vertex took and fired: rows vertex,kind,edge,count",
    is: Argument::File,
};

pub const LOG: &ArgumentRow = &ArgumentRow {
    name: "LOG",
    help: "What each process did: rows process,kind,channel",
    is: Argument::File,
};

pub const REPORT: &ArgumentRow = &ArgumentRow {
    name: "REPORT",
    help: "A report of version 1 or 2 that chipfire wrote",
    is: Argument::File,
};

pub const FAULT_NUMBER: &ArgumentRow = &ArgumentRow {
    name: "NUMBER",
    help: "The number of a fault, as in `fault 21 Shape`, or the word `rule`",
    is: Argument::Word,
};

pub const RULE_NUMBER: &ArgumentRow = &ArgumentRow {
    name: "RULE",
    help: "After the word `rule`: the number of a rule, as in `not-now 11`",
    is: Argument::Number,
};

pub const LIMIT: &ArgumentRow = &ArgumentRow {
    name: "limit",
    help: "How often each vertex may fire, 0 to 2^40 [default: 2^40]",
    is: Argument::NumberOption("F", 0, MAX_LIMIT),
};

pub const LARGE: &ArgumentRow = &ArgumentRow {
    name: "large",
    help: "Allows 2^21 vertices, 2^23 edges, 2^28 bytes per file [default: 4096, 65536, 16777216]",
    is: Argument::Flag,
};

pub const LARGE_LOG: &ArgumentRow = &ArgumentRow {
    name: "large",
    help: "Allows 2^22 processes, 2^24 channels, 2^28 bytes [default: 8192, 131072, 16777216]",
    is: Argument::Flag,
};

pub const PAST: &ArgumentRow = &ArgumentRow {
    name: "past",
    help: "Lists after each early claim how many rows of each process must come before the claim",
    is: Argument::Flag,
};

pub const FIRST: &ArgumentRow = &ArgumentRow {
    name: "first",
    help: "Stops at the first early claim (the lowest process, then the lowest row)",
    is: Argument::Flag,
};

pub const PROCESSES: &ArgumentRow = &ArgumentRow {
    name: "processes",
    help: "Expects a row of each process from 0 to N - 1, where N is 1 to 2^22 [default: of none]",
    is: Argument::NumberOption("N", 1, MAX_PROCESSES),
};

pub const GUESS: &ArgumentRow = &ArgumentRow {
    name: "guess",
    help: "Begins with these counts of firings: rows vertex,fired, or a report",
    is: Argument::FileOption,
};

pub const WRITTEN_REPORT: &ArgumentRow = &ArgumentRow {
    name: "report",
    help: "Writes into this file the report of all chips: those at the start and those dropped",
    is: Argument::FileOption,
};

pub const COMPLETE: &ArgumentRow = &ArgumentRow {
    name: "complete",
    help: "Lists what is left after all rows",
    is: Argument::Flag,
};

pub const RING: &ArgumentRow = &ArgumentRow {
    name: "ring",
    help: "How many messages an edge holds in its ring, 1 to 64 [default: 1]",
    is: Argument::NumberOption("R", 1, MAX_RING),
};

pub const ROUNDS: &ArgumentRow = &ArgumentRow {
    name: "rounds",
    help: "How many rounds of turns may follow the schedule, 0 to 2^40 [default: 0]",
    is: Argument::NumberOption("N", 0, MAX_ROUNDS),
};

pub const BOOKS: &ArgumentRow = &ArgumentRow {
    name: "books",
    help: "Writes after each reply the books of the detector: deficits, parents, messages owed",
    is: Argument::Flag,
};

pub const FED: &ArgumentRow = &ArgumentRow {
    name: "fed",
    help: "Lets the schedule feed chips, until its event `end`",
    is: Argument::Flag,
};

pub const WORKERS: &ArgumentRow = &ArgumentRow {
    name: "workers",
    help: "How many threads share the vertices, 1 to 64 [default: 2]",
    is: Argument::NumberOption("W", 1, MAX_WORKERS),
};

pub const DEALT: &ArgumentRow = &ArgumentRow {
    name: "dealt",
    help: "Gives each thread vertices of its own [default: one queue for all threads]",
    is: Argument::Flag,
};

pub const TURNS: &ArgumentRow = &ArgumentRow {
    name: "turns",
    help: "How many turns each thread may make, 1 to 2^40 [default: 2^30]",
    is: Argument::NumberOption("N", 1, MAX_TURNS),
};

pub const FEED: &ArgumentRow = &ArgumentRow {
    name: "feed",
    help: "Adds the chips of this file while the vertices fire: rows vertex,chips",
    is: Argument::FileOption,
};

pub const TRACE: &ArgumentRow = &ArgumentRow {
    name: "trace",
    help: "Writes into this file, for `replay`, what each vertex took and fired",
    is: Argument::FileOption,
};

pub const TRACE_ROWS: &ArgumentRow = &ArgumentRow {
    name: "trace-rows",
    help: "How many rows of the trace each vertex has room for, 0 to 2^20 [default: 1024 with --trace]",
    is: Argument::NumberOption("K", 0, MAX_TRACE_ROWS),
};

pub const PROGRESS: &ArgumentRow = &ArgumentRow {
    name: "progress",
    help: "Writes to standard error how far the play has come, at most once a second",
    is: Argument::Flag,
};

pub const CLAIM_PROGRESS: &ArgumentRow = &ArgumentRow {
    name: "progress",
    help: "Writes to standard error which claim is being judged, at most once a second",
    is: Argument::Flag,
};

static CHECK: CommandRow = CommandRow {
    name: "check",
    about: "Shows a graph: each vertex with its out-degree and its distance to the sink",
    after_help: "\
Exit status: 0 it is a graph; 1 a fault, which `chipfire explain N` explains.

Example: chipfire check graph.json",
    arguments: &[GRAPH, LARGE],
};

static PLAIN: CommandRow = CommandRow {
    name: "plain",
    about: "Plays a game to its end (stabilizes it) on one thread, and writes its report",
    after_help: "\
The report has the chips at the end, and how often each vertex fired (the odometer).

A guess never changes the report. If its counts pass a test, the play begins at them, and the
report comes sooner. Otherwise chipfire lowers the counts until they pass, or drops the guess.
A vertex that the guess does not name has the count 0. If the guess is a report, only its
counts are read. The test can refuse even true counts if some vertex other than the sink has a
greater in-degree than out-degree.

Suppose that no vertex other than the sink has a greater in-degree than out-degree, as on
undirected graphs. Then no vertex fires more often than the number of all chips times the
distance from the vertex to the sink. `chipfire check` writes this distance.

Exit status: 0 no vertex can fire; 2 the limit stopped the vertices that the report lists
under \"over\"; 1 a fault, which `chipfire explain N` explains.

Example: chipfire plain graph.json chips.csv --limit 1000 >report.json",
    arguments: &[GRAPH, CHIPS, LIMIT, LARGE, GUESS, PROGRESS],
};

static AVALANCHES: CommandRow = CommandRow {
    name: "avalanches",
    about: "Drops chips row by row, and writes the size of each avalanche",
    after_help: "\
chipfire plays the game to its end. Then it drops the chips of each row of DROPS in order, and
plays to the end after each row. Several rows of DROPS may name the same vertex. Each row of
the output has the vertex, the number of chips dropped, the number of firings (size), the
number of vertices that fired (extent), and the number of chips that these firings sent to the
sink (lost).

No vertex fires more than 2^40 times in all. If this limit stops a drop, the output has no row
for this drop, and no later chips are dropped. With --report, the report includes the chips of
this drop.

Exit status: 0 all drops were played; 2 some vertex was stopped after 2^40 firings; 1 a
fault, which `chipfire explain N` explains.

Example: chipfire avalanches graph.json chips.csv drops.csv >avalanches.csv",
    arguments: &[GRAPH, CHIPS, DROPS, LARGE, WRITTEN_REPORT, PROGRESS],
};

static RECURRENT: CommandRow = CommandRow {
    name: "recurrent",
    about: "Says whether a configuration is recurrent, and writes the recurrent one equivalent to it",
    after_help: "\
Chips on the sink do not count. A configuration is recurrent if it is stable and can be reached
from every other configuration by adding chips and firing. Two configurations are equivalent if
firings, forwards or backwards, lead from one to the other. Exactly one recurrent configuration
is equivalent to CHIPS. The output is this configuration as a chips file, with 0 on the sink.

Exit status: 0 CHIPS is recurrent; 2 CHIPS is not recurrent, and the output is another
configuration; 1 a fault, which `chipfire explain N` explains.

Example: chipfire recurrent graph.json chips.csv >recurrent.csv",
    arguments: &[GRAPH, CHIPS, LARGE],
};

static IDENTITY: CommandRow = CommandRow {
    name: "identity",
    about: "Writes the identity of the graph's sandpile group",
    after_help: "\
The recurrent configurations form the sandpile group. To add two of them, add their chips on
each vertex and stabilize the sum. The output is the identity of this group as a chips file,
with 0 on the sink.

Exit status: 0 done; 1 a fault, which `chipfire explain N` explains.

Example: chipfire identity graph.json >identity.csv",
    arguments: &[GRAPH, LARGE],
};

static RUN: CommandRow = CommandRow {
    name: "run",
    about: "Plays a game to its end on threads, and writes the same report as plain",
    after_help: "\
The vertices work like the processes of a distributed machine: they send messages, until a root
detects that the game is over. Use `run` to record a trace, to feed chips, or to watch this
machine. If you need only the report, use `plain`: on two games of 4,000 vertices, `run` with
four threads on four processors took 10 and 22 times as long.

The number of threads, the ring and --dealt change only the time: the report is the same, byte
for byte. For a small game, one thread is fastest. For a large game, use --dealt, with one
thread for each core of the machine. Without --dealt, use two threads: four threads took 0.95
to 1.5 times as long. With a longer ring, a vertex can send its next message before its last
one is taken. But a ring of 64 took 1.4 to 12 times as long as a ring of 1.

With --feed, the report is the same as if all chips were there at the start. The trace is
written before the report. If a vertex has more rows than fit, the trace is cut: a line on
standard error says so, and `replay` may refuse the trace.

Exit status: 0 no vertex can fire; 2 the limit stopped the vertices that the report lists
under \"over\"; 3 the turns were too few (fault 61); 1 another fault.
`chipfire explain N` explains the faults.

Example: chipfire run graph.json chips.csv --dealt --workers 4 >report.json",
    arguments: &[
        GRAPH, CHIPS, LIMIT, LARGE, RING, WORKERS, DEALT, TURNS, FEED, TRACE, TRACE_ROWS, PROGRESS,
    ],
};

static SIMULATE: CommandRow = CommandRow {
    name: "simulate",
    about: "Runs a schedule on the detector, and writes each reply and, if the root closes, the report",
    after_help: "\
With --fed, the schedule feeds chips by the events clear, feed and put on root edges. Then the
root closes only after the event `end`.

In a round, each vertex makes a turn, and then the root settles its edges. The rounds stop when
the root closes. Let F be the limit, or a smaller number of firings that no vertex exceeds:
`chipfire plain --help` gives one. A game with N vertices, M edges of any multiplicity and C
chips closes within (N + 5 M) F + 5 C + N + 1 rounds. If a game is fed without `end`, or if the
root claims a message and does not put it, no number of rounds closes the root.

Exit status: 0 the root closed; 2 the root closed, and the report lists halted vertices; 3 the
root is open; 1 a fault, which `chipfire explain N` explains.

Example: chipfire simulate graph.json chips.csv schedule.csv --rounds 10",
    arguments: &[
        GRAPH, CHIPS, SCHEDULE, LIMIT, LARGE, RING, ROUNDS, BOOKS, FED,
    ],
};

static REPLAY: CommandRow = CommandRow {
    name: "replay",
    about: "Replays a recorded run, and writes its firings in a possible order",
    after_help: "\
With --complete, the lines after the firings list each edge with messages left, each vertex
that can fire, and each vertex that has enough chips but has fired as often as the limit
allows.

Exit status: 0 the rows fit together; 2 the rows fit together, and --complete lists something;
1 a fault, which `chipfire explain N` explains: 70 if the rows do not fit together.

Example: chipfire replay graph.json chips.csv trace.csv",
    arguments: &[GRAPH, CHIPS, TRACE_FILE, LIMIT, LARGE, COMPLETE],
};

static RESUME: CommandRow = CommandRow {
    name: "resume",
    about: "Continues a play from its report, and writes the report of the new stage",
    after_help: "\
The limit counts only the firings of the new stage. A report does not name its graph, so give
the graph of the earlier play as GRAPH.

Exit status: 0 no vertex can fire; 2 the limit stopped the vertices that the report lists
under \"over\"; 1 a fault, which `chipfire explain N` explains.

Example: chipfire resume graph.json report.json --limit 1000 >next.json",
    arguments: &[GRAPH, REPORT, LIMIT, LARGE, PROGRESS],
};

static VERIFY: CommandRow = CommandRow {
    name: "verify",
    about: "Says whether a report is right for a game: its counts, chips and halted vertices",
    after_help: "\
`verified` means that every play of this game within this limit agrees with the report: it
fires each vertex as often in all, leaves the same chips, and halts the same vertices at the
limit. `verify` may refuse a right report with fault 53 if a stage was stopped, or if a vertex
fired more often in all stages together than the limit allows.

Exit status: 0 the report is right; 1 a fault, which `chipfire explain N` explains: 53 if the
report differs.

Example: chipfire verify graph.json chips.csv report.json",
    arguments: &[GRAPH, CHIPS, REPORT, LIMIT, LARGE, PROGRESS],
};

static JUDGE: CommandRow = CommandRow {
    name: "judge",
    about: "Says which claims of termination in a log of a distributed program are right",
    after_help: "\
LOG can come from any program whose processes send messages and detect when their computation
is over. A row of the kind `over` claims that the computation is over. The claim is early
exactly if, in some possible order of the rows, a message is in transit or a process is active,
at the claim or later. Otherwise the claim is right. The line of an early claim says what is
left at this claim, in an order with the fewest rows before the claim. `end missed` says that
the computation is over, but no claim is right.

The rows of each process are in the order in which it acts. Rows of different processes may be
mixed in any way: the output stays the same.

With --first, `judge` writes the lines of the first early claim and then `end early`, and
nothing else. If no claim is early, `judge` writes the lines of all claims.

Exit status: 0 a claim is right, and none is early; 2 a claim is early; 3 there is no claim; 1 a
fault, which `chipfire explain N` explains: 70 if the rows do not fit together.

Example: (echo process,kind,channel; cat process-*.rows) | chipfire judge -",
    arguments: &[LOG, PAST, FIRST, PROCESSES, LARGE_LOG, CLAIM_PROGRESS],
};

static EXPLAIN: CommandRow = CommandRow {
    name: "explain",
    about: "Explains a fault or a rule by its number, or lists them all",
    after_help: "\
If `simulate` reports `not-now N`, `chipfire explain rule N` explains rule N.

Exit status: 0 done; 1 a fault: 91 if no fault or rule has this number.

Example: chipfire explain 21",
    arguments: &[FAULT_NUMBER, RULE_NUMBER],
};

/// The commands, in the order in which the help lists them.
pub fn commands() -> [&'static CommandRow; 12] {
    [
        &CHECK,
        &PLAIN,
        &AVALANCHES,
        &RECURRENT,
        &IDENTITY,
        &RUN,
        &SIMULATE,
        &REPLAY,
        &RESUME,
        &VERIFY,
        &JUDGE,
        &EXPLAIN,
    ]
}
