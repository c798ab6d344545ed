//! The table of faults: what each means, and what to do.

/// The meaning of the numbers after a fault's name.
#[derive(Clone, Copy)]
pub struct Place {
    /// A letter for each number, each after a space.
    pub letters: &'static str,
    /// What the letters mean, as lines.
    pub reading: &'static str,
}

impl Place {
    /// No numbers.
    pub const NOWHERE: Place = Place {
        letters: "",
        reading: "",
    };

    /// An edge of the graph.
    pub const EDGE: Place = Place {
        letters: " i",
        reading: "\
i is an edge: row i of \"edges\", where the first row is row 0.
",
    };

    /// A vertex.
    pub const VERTEX: Place = Place {
        letters: " v",
        reading: "\
v is a vertex. Vertices are numbered from 0.
",
    };

    /// A process of a log.
    pub const PROCESS: Place = Place {
        letters: " p",
        reading: "\
p is a process. Processes are numbered from 0.
",
    };

    /// A row of a file of rows, from 0 after the header.
    pub const ROW: Place = Place {
        letters: " i",
        reading: "\
i is a row. Row 0 is the first row after the header. So row i is line i + 2 of the file, if
you do not count empty lines.
",
    };

    /// A drop or a configuration, from 0.
    pub const DROP: Place = Place {
        letters: " i",
        reading: "\
i is a drop or a configuration. Both are numbered from 0.
",
    };

    /// A vertex or a process, and one of its own rows in a trace or a log, from 0.
    pub const OWN_ROW: Place = Place {
        letters: " v i",
        reading: "\
v is a vertex of a trace, or a process of a log. i is one of the rows of v in the file. The
first row of v is row 0.
",
    };

    /// An argument after the command, from 1.
    pub const ARGUMENT: Place = Place {
        letters: " n",
        reading: "\
n is the argument that names the file. The first argument after the command is 1. Options and
their values count as arguments.
",
    };

    /// The number of bytes written.
    pub const BYTES: Place = Place {
        letters: " n",
        reading: "\
n bytes were written before the fault.
",
    };

    /// The number of messages of the root that are not acknowledged.
    pub const MESSAGES: Place = Place {
        letters: " n",
        reading: "\
n messages of the root were not yet acknowledged.
",
    };
}

/// A row of a table of faults or rules.
#[derive(Clone, Copy)]
pub struct Explanation {
    pub number: u64,
    pub name: &'static str,
    /// The numbers after the name.
    pub place: Place,
    /// What is wrong, on one line.
    pub meaning: &'static str,
    /// What was expected and what to do, as lines.
    pub advice: &'static str,
}

/// A row of a table: its number, its name, the numbers after that, what is wrong, and the advice.
macro_rules! row {
    ($number:literal $name:ident $place:ident: $meaning:literal, $advice:literal) => {
        Explanation {
            number: $number,
            name: stringify!($name),
            place: Place::$place,
            meaning: $meaning,
            advice: $advice,
        }
    };
}

pub(crate) use row;

static VERTICES: Explanation = row!(1 Vertices NOWHERE:
    "the graph has no vertices, or more than 4096", "\
\"vertices\" of the graph file is the number of vertices, 1 to 4096. With `--large` each command
takes up to 2097152.
");

static SINK: Explanation = row!(2 Sink NOWHERE: "the sink is not a vertex", "\
\"sink\" of the graph file is the vertex that never fires. It is at least 0, and less than
\"vertices\".
");

static EDGE_COUNT: Explanation = row!(3 EdgeCount NOWHERE: "the graph has more than 65536 edges", "\
You can merge rows with the same tail and head into one row, and add their third numbers: the
game stays the same. With `--large` each command takes up to 8388608 edges.
");

static ENDPOINT: Explanation = row!(4 Endpoint EDGE: "an end of edge i is not a vertex", "\
A row is [tail, head, mult]. tail and head are at least 0, and less than \"vertices\". If the
file numbers vertices from 1, number them from 0.
");

static MULT: Explanation = row!(5 Mult EDGE: "edge i sends no chips, or more than 1048576", "\
A row is [tail, head, mult]. When the tail fires, it sends mult chips to the head: 1 to
1048576. Leave out an edge that sends no chips.
");

static LOOP: Explanation = row!(6 Loop EDGE: "edge i is a loop", "\
A row is [tail, head, mult]. tail and head must differ: chipfire plays no games with loops.
");

static FROM_SINK: Explanation = row!(7 FromSink EDGE: "edge i leaves the sink", "\
The sink never fires, so this edge sends nothing: leave it out. The file of an undirected graph
has an edge in each direction between two neighbours, but no edge out of the sink.
");

static UNREACHED: Explanation = row!(8 Unreached VERTEX:
    "no walk leads from vertex v to the sink", "\
v is the least such vertex. Chips on v could never reach the sink, and the game might never
end. Every vertex needs a walk to the sink along edges, from tail to head. Add an edge, or leave
the vertex out.
");

static START_LENGTH: Explanation = row!(9 StartLength NOWHERE:
    "the chips are not one number for each vertex", "\
Only callers of the libraries meet this fault.
");

static TOTAL: Explanation = row!(10 Total NOWHERE:
    "there are more than 1099511627776 chips in all", "\
The limit is 2^40. It holds for the chips of all vertices, including the sink, those of `--feed`
and those of all drops together. `recurrent` and `identity` add chips themselves, and count only
chips off the sink.
");

static LIMIT: Explanation = row!(11 Limit NOWHERE: "the firing limit is above 1099511627776", "\
The greatest firing limit is 2^40. Only callers of the libraries meet this fault. The command
line reports fault 91 instead.
");

static LENGTHS: Explanation = row!(12 Lengths NOWHERE:
    "arrays that belong together have different lengths", "\
Only callers of libchipfire meet this fault. chipfire.h says how long each array is.
");

static STOPPED: Explanation = row!(13 Stopped DROP:
    "the limit stopped the play of drop i, or of configuration i", "\
In `recurrent` and `identity`, some vertex would fire more than 1099511627776 times, which is
2^40. Then i is 0. Callers of libchipfire meet this fault too. They can raise the limit, or
leave out drop i and all later drops. If the limit stopped the play before the first drop, i is
also 0. `chipfire avalanches` has no such fault: it writes the rows of the drops before drop i.
");

static NO_PILE: Explanation = row!(14 NoPile NOWHERE: "there is no pile", "\
Only callers of libchipfire meet this fault. `chipfire_pile_new` makes a pile in a struct of
zeros. After `chipfire_pile_free` the struct has no pile.
");

static NOT_JSON: Explanation = row!(20 NotJson NOWHERE: "the graph file is not JSON", "\
The file is not UTF-8, or is not a single JSON value. Perhaps the file is empty or was cut off,
a comma or a bracket is missing, something follows the value, or the file begins with a
byte-order mark. `python3 -m json.tool FILE` shows the place. Perhaps you named the chips file
first: the graph file comes first.
");

static SHAPE: Explanation = row!(21 Shape NOWHERE: "the JSON is not a graph", "\
A graph file is one object with exactly these four members, in any order:
    {\"edges\":[[0,1,1]],\"sink\":1,\"version\":1,\"vertices\":2}
Four mistakes are common. A member is missing or misspelt. There is a fifth member. A row of
\"edges\" does not have exactly three values. A value is not a whole number in JSON: it has a
sign, a point, an exponent or quotes (-1, 1.0, 1e3, \"2\").
");

static VERSION: Explanation = row!(22 Version NOWHERE: "the version of the graph file is not 1", "\
Write \"version\":1. No other version of graph files exists.
");

static HEADER: Explanation = row!(23 Header NOWHERE:
    "a file of rows does not begin with its header", "\
The first line of each file is its header, without spaces:
    vertex,chips               a chips file, or drops
    vertex,fired               a guess
    event,at,count             a schedule
    vertex,kind,edge,count     a trace
    process,kind,channel       a log
Only the Python package reads a fourth column, note, of a schedule. Leave this column out, as
write_schedule(.., notes=False) does. An empty file has no header. Perhaps you named the files
in the wrong order: `--help` after the command shows the order.
");

static ROW: Explanation = row!(24 Row ROW: "row i has fewer or more fields than the header", "\
A row of chips, drops or a guess has two fields. A row of a schedule or a log has three, and a
row of a trace has four. Commas separate the fields. No comma follows the last field.
");

static NUMBER: Explanation = row!(25 Number ROW: "a field of row i is not a number", "\
A number has 1 to 20 digits, and is at most 18446744073709551615. It has no sign, space, point
or exponent. An unused field, such as the count of a take, must be a number too.
");

static VERTEX: Explanation = row!(26 Vertex ROW:
    "row i names a vertex, an edge, a process or a channel that does not exist", "\
Vertices are numbered from 0, and are less than \"vertices\" of the graph file. Schedules and
traces also name edges. The m edges of the graph are numbered from 0. Edge m + v is the root
edge of vertex v, which brings v its first chips. A log has processes 0 to 8191 and channels 0
to 131071; with `--large`, up to 4194303 and 16777215. For libchipfire i is a drop, counted
from 0.
");

static REPEATED: Explanation = row!(27 Repeated ROW:
    "row i names a vertex that an earlier row named", "\
A file of chips or a guess has at most one row for each vertex: add up the rows of this vertex.
A vertex without a row has 0.
");

static KIND: Explanation = row!(28 Kind ROW: "row i has an unknown kind", "\
The events of a schedule are take, ack, fire, clear, claim, put, halt, settle, seal, read, feed
and end. The kinds of a trace are take and fire. The kinds of a log are send, receive, tell,
hear, passive, active and over. Write them in lower case, without spaces.
");

static READ: Explanation = row!(29 Read NOWHERE: "a file could be opened, but not read", "\
Perhaps the file is a folder, or is - while standard input is closed. Otherwise the system
refused a read: try again, or copy the file.
");

static TOO_LONG: Explanation = row!(30 TooLong NOWHERE: "a file has more than 16777216 bytes", "\
The limit is 16 MiB. The largest graph fits if you write it without spaces. With `--large` each
command reads files of up to 268435456 bytes (256 MiB).
");

static END: Explanation = row!(31 End ROW:
    "row i uses an end of a stream that another process has used", "\
Each channel has two streams: its basic messages (send and receive), and its control messages
(tell and hear). Only one process may put messages into a stream, and only one may take them
out. If several processes send to the same process, use one channel for each pair.
");

static PASSIVE: Explanation = row!(32 Passive ROW: "row i sends, and its process is passive", "\
A process is active from a receive to its next passive. If a process is active from the
beginning, its first row is active. Log send before you send a message, and receive after the
message has come. Log messages that passive processes send as tell and hear.
");

static WOKEN: Explanation = row!(33 Woken ROW:
    "row i says active, and is not the first row of its process", "\
A process that is not active from the beginning becomes active only by a basic message. Log the
message that made it active as a send and a receive. If the row begins another computation,
write a separate log for that computation.
");

static ABSENT: Explanation = row!(34 Absent PROCESS: "process p is expected, and has no row", "\
With `--processes N` each of the processes 0 to N - 1 needs a row. If the log of p was lost, and
p was active at the beginning, `judge` might call an early claim right. If p did nothing, add
the row passive for p.
");

static NOT_LEGAL: Explanation = row!(40 NotLegal NOWHERE: "a vertex may not fire this often", "\
Only callers of the library chip_sequence meet this fault. The vertex is the sink, or has too
few chips for these firings, or would fire 0 times.
");

static NEGATIVE: Explanation = row!(41 Negative VERTEX: "vertex v would have fewer than 0 chips", "\
Only callers of the library chip_sequence meet this fault. With the given counts of firings, v
sends more chips than it has and gets. v is the least such vertex.
");

static NOT_CLOSED: Explanation = row!(42 NotClosed NOWHERE:
    "the root is not closed, so there is no outcome", "\
Only callers of the library chip_world meet this fault. `simulate` writes `root open` instead.
");

static NO_EDGE: Explanation = row!(43 NoEdge NOWHERE: "the graph has no edge with this number", "\
Only callers of the library chip_net meet this fault. They can seal the edges of the graph, but
not root edges.
");

static ENDED: Explanation = row!(44 Ended NOWHERE: "chips are fed after the end of feeding", "\
Only callers of the library chip_net meet this fault. In a net without feeding, the end of
feeding is noted at the start.
");

static FULL: Explanation = row!(45 Full NOWHERE:
    "chips are fed while the next cell of the ring is full", "\
Only callers of the library chip_net meet this fault. Try again after a turn of the vertex, as
`chipfire run --feed` does.
");

static BOOKS: Explanation = row!(46 Books NOWHERE:
    "no such edge, a count is too high, or the books of the process are not sound", "\
Only callers of libchipfire meet this fault. `chipfire_books_check` checks the books of a
process. Each array is in ascending order of edges, and edges are below 2^64 - 1. On no edge are
more messages acknowledged than there are. If the process has a parent edge, it owes an
acknowledgement on this edge. If it has none, it owes nothing.
");

static NOT_YET: Explanation = row!(47 NotYet NOWHERE:
    "not all of these messages may be acknowledged yet", "\
Only callers of libchipfire meet this fault. `chipfire_may_ack` writes how many messages may be
acknowledged now. The message that engaged a process waits until the process is passive, owes no
other acknowledgement, and has deficit 0.
");

static NOT_REPORT: Explanation = row!(50 NotReport NOWHERE: "the file is not a report", "\
chipfire accepts a report only byte for byte as it wrote it, with the newline at the end. Write
the output of the command into a file, and name that file. In the output of `simulate`, only the
last line is the report. A report has up to 4096 vertices, and with `--large` up to 2097152.
");

static PRIOR: Explanation = row!(51 Prior VERTEX:
    "vertex v fired more than 1152921504606846976 times in all stages", "\
The limit is 2^60. Begin a new play from a chips file with the chips of the report: the
configuration is the same.
");

static MISMATCH: Explanation = row!(52 Mismatch NOWHERE:
    "the report has another number of vertices than the graph", "\
A report belongs to the graph of its play, but does not name this graph. Give the graph file of
the earlier command.
");

static DIFFERS: Explanation = row!(53 Differs VERTEX:
    "the report is not of this game, and v is the least vertex that differs", "\
v has another number of firings in the report than in the game, or other chips, or is halted
in only one of the two. Give the graph, the chips and the `--limit` of the report. If a stage was
stopped, or several stages had limits of their own, even a right report may differ: `chipfire
verify` plays in one stage, with one limit.
");

static PLAN: Explanation = row!(60 Plan NOWHERE:
    "a number of the plan for the threads is out of its range", "\
Only callers of the libraries meet this fault. A plan has 1 to 64 workers, rings of 1 to 64
cells, 1 to 2^40 turns for each worker, and up to 2^20 rows of the trace for each vertex. If the
plan seals an edge, it must be an edge of the graph.
");

static UNFINISHED: Explanation = row!(61 Unfinished MESSAGES:
    "the threads made all their turns before the game was over", "\
So there is no report. Allow more turns with `--turns`, or leave this option out. With `--feed`,
n may be 0: then some chips were not fed.
");

static GATE_SHUT: Explanation = row!(62 GateShut NOWHERE:
    "a worker was refused its next turn", "\
Only callers of the libraries meet this fault. The gate that they gave to the crew returned
false.
");

static LOST: Explanation = row!(63 Lost VERTEX:
    "the actor of vertex v was missing after the threads ended", "\
This is a bug in chipfire. Please report it, with the files.
");

static DOUBLED: Explanation = row!(64 Doubled VERTEX:
    "vertex v had two actors after the threads ended", "\
This is a bug in chipfire. Please report it, with the files.
");

static SPAWN: Explanation = row!(65 Spawn NOWHERE: "a thread could not be started", "\
The system allows no more threads, or has no memory for another one. Use fewer threads with
`--workers`. The other threads have ended, and no report was written.
");

static STUCK: Explanation = row!(70 Stuck OWN_ROW:
    "the rows of a trace or a log have no possible order", "\
In each order some row does not fit. A row of a trace takes a message that was not sent or that
had another count, or fires chips that the vertex does not have. Look first at row i of v:
docs/TRACES.md says how. Perhaps the trace was cut, or belongs to other chips, another graph or
another limit. Row i of a process of a log gets a message that was not sent before. Perhaps the
log of the sender was cut, the message is logged twice, or the row is too early.
");

static NO_MEMORY: Explanation = row!(90 NoMemory NOWHERE: "memory ran out", "\
Allow the process more memory, or use smaller files. The output so far is incomplete.
");

static USAGE: Explanation = row!(91 Usage NOWHERE: "the arguments do not form a command", "\
`chipfire --help` lists the commands. `--help` after a command lists its files, its options and
their ranges. Perhaps there are too few or too many files, the command does not have this
option, an option is repeated, a number is out of range, or a name is not UTF-8.
");

static OPEN: Explanation = row!(92 Open ARGUMENT:
    "the file that argument n names could not be opened", "\
The file does not exist, or you may not read or write it. Relative names begin at the folder in
which you started the program. The file of `--trace` or `--report` must not be an input, since
the program would empty it. Only one input may be -, which means standard input.
");

static WRITE: Explanation = row!(93 Write BYTES: "the output could not be written to its end", "\
Perhaps the disk is full, or the reader ended early, as `head` does. The output is incomplete, so
do not use it. Without a number, the fault concerns the file of `--trace`, and nothing of the
report was written; or it concerns the file of `--report`, and all rows were written.
");

/// All faults, by their numbers.
pub fn explanations() -> [&'static Explanation; 52] {
    [
        &VERTICES,
        &SINK,
        &EDGE_COUNT,
        &ENDPOINT,
        &MULT,
        &LOOP,
        &FROM_SINK,
        &UNREACHED,
        &START_LENGTH,
        &TOTAL,
        &LIMIT,
        &LENGTHS,
        &STOPPED,
        &NO_PILE,
        &NOT_JSON,
        &SHAPE,
        &VERSION,
        &HEADER,
        &ROW,
        &NUMBER,
        &VERTEX,
        &REPEATED,
        &KIND,
        &READ,
        &TOO_LONG,
        &END,
        &PASSIVE,
        &WOKEN,
        &ABSENT,
        &NOT_LEGAL,
        &NEGATIVE,
        &NOT_CLOSED,
        &NO_EDGE,
        &ENDED,
        &FULL,
        &BOOKS,
        &NOT_YET,
        &NOT_REPORT,
        &PRIOR,
        &MISMATCH,
        &DIFFERS,
        &PLAN,
        &UNFINISHED,
        &GATE_SHUT,
        &LOST,
        &DOUBLED,
        &SPAWN,
        &STUCK,
        &NO_MEMORY,
        &USAGE,
        &OPEN,
        &WRITE,
    ]
}

/// The name of the fault with this number.
pub(crate) fn name_of(number: u64) -> &'static str {
    for row in &explanations() {
        if row.number == number {
            return row.name;
        }
    }
    ""
}
