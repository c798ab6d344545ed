//! Readers of the files that chipfire takes: graphs as JSON; chips, drops, guesses, logs, schedules and traces as rows of
//! CSV. Chips are written too.
//!
//! `read_source` reads the whole of an input. A function from bytes then returns what they mean, or their first fault.
//! The meaning of a text is a definition: of a graph over the value that `serde_json` reads (`specs/GraphText.antt`),
//! of rows over the records that `csv` gives (`specs/ChipsText.antt`, `specs/DropsText.antt`, `specs/GuessText.antt`,
//! `specs/LogText.antt`, `specs/ScheduleText.antt`, `specs/TraceText.antt`). Contracts speak of readers whose bytes are
//! known, such as a slice. `docs/FORMATS.md` shows the files.
#![tactic(auto)]

pub use chips::{chips_of_source, chips_of_text, read_chips_within, text_of_chips};
pub use drops::drops_of_text;
pub use fault::FileFault;
pub use graph::{graph_of_source, graph_of_text, read_graph_within};
pub use guess::guess_of_text;
pub use log::{Log, log_of_source, log_of_text, read_log_within};
pub use schedule::{read_schedule_within, schedule_of_source, schedule_of_text};
pub use source::{LastRead, Source};
pub use standard::{read_chips, read_graph, read_schedule, read_trace, read_whole};
pub use trace::{read_trace_within, trace_of_source, trace_of_text};
pub use whole::{read_source, read_whole_within};

mod chips;
mod drops;
mod fault;
mod graph;
mod graph_text;
mod guess;
mod kind;
pub mod laws;
mod log;
mod number;
mod rows;
mod schedule;
mod source;
mod standard;
mod trace;
mod vertex_rows;
mod whole;
