//! Texts of JSON, read token by token, or byte by byte if plain edges come first: no JSON value is built.
//!
//! The meaning of a text is a definition over the value that `serde_json` reads (`specs/GraphFile.antt`). The result is
//! that meaning, for every text (`GivesFile` in `specs/JsonParts.antt`).

pub(crate) use file::{GraphFile, file_of_text};
pub(crate) use number::leading_number;

mod file;
mod number;
mod passing;
mod plain;
mod rows;
