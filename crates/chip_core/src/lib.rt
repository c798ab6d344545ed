//! The core of the machine over lists of events: the state of its parts after any list, and the theorems on every list.
//!
//! Nothing runs here. `specs/` has the definitions: the parts, what each event sees and the step of the core (`Core`),
//! the messages of an edge in terms of events and replies (`Messages`), where all chips are (`Positions`), the tree of
//! the detector (`Detection`), the core as a diffusing computation (`Instance`), the events of one part (`Histories`),
//! the effects of replies (`Replies`), and which steps count as work (`Work`). The theorems use them: the core theorem
//! (`Headline`), that the root closes (`Closing`), and the others (`Laws`); `Worked` and `WorkedClosing` have worked
//! runs. `laws` states all theorems as the contracts of functions that do nothing, and `proofs/` has lemmas for the
//! crates that depend on this one.
#![tactic(auto)]

pub mod laws;
