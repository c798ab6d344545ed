//! A graph file, read member by member.

ghost use Rattle.std.specs.Prelude.{◌≡◌, ◌<◌, ℕ, List, Some, codes, length, IsUtf8, OnOk};
ghost use Rattle.json.specs.Lex.{tokens};
ghost use Rattle.chip_file.specs.JsonRows.{AreRowsUnder, MayRead, MayReadMembers};
ghost use Rattle.chip_file.specs.JsonParts.{Takes, Stands, KeepsFile, IsFile, GivesFile, kept_of};
ghost use Rattle.chip_file.specs.JsonPlain.{HasEdgesBefore};
ghost use Rattle.chip_file.specs.JsonValues.{next_value};
ghost use Rattle.serde_json.specs.Data.{Data, Members, no_members, put, object};
ghost use Rattle.serde_json.specs.Read.{max_depth};
ghost use Rattle.chip_file.specs.GraphFile.{file_of_value};

use crate::fault::FileFault;
use crate::graph_text::passing::{NotJson, pass, pass_rest};
use crate::graph_text::plain::first_edges;
use crate::graph_text::rows::{edges, number};
use chip_graph::Edge;
use json::{Reader, Scratch, Token};
use std::alloc::Global;
use std::str;

/// The deepest nesting of arrays and objects.
const MAX_DEPTH: usize = 127;

/// What a graph file says. If it has more edges than the caller asked for, only the first are here.
#[derive(Drop)]
pub struct GraphFile {
    pub version: u64,
    pub vertices: u64,
    pub sink: u64,
    pub edges: Vec<Edge>,
}

/// The members read so far, and whether there was another.
#[derive(Drop)]
pub(crate) struct Parts {
    version: Option<u64>,
    vertices: Option<u64>,
    sink: Option<u64>,
    edges: Option<Vec<Edge>>,
    others: bool,
}

impl Parts {
    /// No parts.
    fn new() -> Parts
        ensures { (most : ℕ) → Stands most no_members result }
    {
        Parts {
            version: None,
            vertices: None,
            sink: None,
            edges: None,
            others: false,
        }
    }

    /// The edges alone.
    fn with_edges(edges: Vec<Edge>) -> Parts
        ensures { (most : ℕ) (d : Data) → AreRowsUnder most d (Some edges)
            → Stands most (put (codes "edges") d no_members) result }
    {
        Parts {
            version: None,
            vertices: None,
            sink: None,
            edges: Some(edges),
            others: false,
        }
    }

    /// Takes the value of the member with this name.
    fn take(
        &mut self,
        alloc: Global,
        reader: &mut Reader<'_>,
        depth: usize,
        most: u64,
        name: &str,
    ) -> Result<(), FileFault>
        ensures value { MayRead depth reader.old reader.new (λ d x. Takes most name.now d self.old self.new) result }
        ensures shorter { OnOk result (length reader.new < length reader.old) }
    {
        match name {
            "version" => self.version = number(reader, depth)?,
            "vertices" => self.vertices = number(reader, depth)?,
            "sink" => self.sink = number(reader, depth)?,
            "edges" => self.edges = edges(alloc, reader, depth, most)?,
            _ => {
                self.others = true;
                pass(reader, depth)?;
            }
        }
        Ok(())
    }

    /// The file, if each part and no other member is there.
    fn into_file(self) -> Option<GraphFile>
        ensures { (most : ℕ) (found : Members) → Stands most found self
            → KeepsFile most (file_of_value (object found)) result }
    {
        if self.others {
            return None;
        }
        all_of(self.version, self.vertices, self.sink, self.edges)
    }
}

/// The file of these parts, if each is there.
fn all_of(
    version: Option<u64>,
    vertices: Option<u64>,
    sink: Option<u64>,
    edges: Option<Vec<Edge>>,
) -> Option<GraphFile>
    ensures { result ≡ kept_of version vertices sink edges }
{
    Some(GraphFile {
        version: version?,
        vertices: vertices?,
        sink: sink?,
        edges: edges?,
    })
}

/// The graph file that a text is. Of more than `most` edges it has the first `most + 1`, so that the caller sees it.
pub fn file_of_text(alloc: Global, text: &[u8], most: u64) -> Result<GraphFile, FileFault>
    ensures { GivesFile most text.now result }
{
    let Ok(text) = str::from_utf8(text) else {
        return Err(FileFault::NotJson);
    };
    if let Some(found) = first_edges(alloc, text.as_bytes(), most)? {
        return file_after_edges(alloc, found.value, &text[found.next..], most);
    }
    file_of_tokens(alloc, text, most)
}

/// The graph file of an object with these edges, and with the members that follow in a text.
fn file_after_edges(
    alloc: Global,
    edges: Vec<Edge>,
    rest: &str,
    most: u64,
) -> Result<GraphFile, FileFault>
    ensures { (text : List ℕ) → IsUtf8 text → HasEdgesBefore most text edges rest.now → GivesFile most text result }
{
    let mut scratch = Scratch::new(alloc);
    let mut reader = Reader::new(rest, &mut scratch)?;
    let parts = parts_of(
        alloc,
        &mut reader,
        MAX_DEPTH - 1,
        most,
        Parts::with_edges(edges),
    )?;
    file_at_end(&mut reader, parts.into_file())
}

/// The graph file that the tokens of a text make.
fn file_of_tokens(alloc: Global, text: &str, most: u64) -> Result<GraphFile, FileFault>
    ensures { IsUtf8 text.now → GivesFile most text.now result }
{
    let mut scratch = Scratch::new(alloc);
    let mut reader = Reader::new(text, &mut scratch)?;
    let file = next_file(alloc, &mut reader, most)?;
    file_at_end(&mut reader, file)
}

/// This file, if the text ends here and its value is one.
fn file_at_end(reader: &mut Reader<'_>, file: Option<GraphFile>) -> Result<GraphFile, FileFault>
    ensures { (most : ℕ) (text : List ℕ) (d : Data) → IsUtf8 text
        → next_value max_depth (tokens text) ≡ Some (d, reader.old) → IsFile most d file
        → GivesFile most text result }
{
    if reader.next().is_some() {
        return Err(FileFault::NotJson);
    }
    match file {
        Some(file) => Ok(file),
        None => Err(FileFault::Shape),
    }
}

/// The file that the next value is, if it is one.
fn next_file(
    alloc: Global,
    reader: &mut Reader<'_>,
    most: u64,
) -> Result<Option<GraphFile>, FileFault>
    ensures { MayRead max_depth reader.old reader.new (IsFile most) result }
{
    let token = reader.next().ok_or(NotJson)?;
    if let Token::BeginObject = token {
        let parts = parts_of(alloc, reader, MAX_DEPTH - 1, most, Parts::new())?;
        return Ok(parts.into_file());
    }
    pass_rest(reader, token, MAX_DEPTH)?;
    Ok(None)
}

/// These parts, with the members that are left of an object.
fn parts_of(
    alloc: Global,
    reader: &mut Reader<'_>,
    depth: usize,
    most: u64,
    parts: Parts,
) -> Result<Parts, FileFault>
    ensures { (found : Members) → Stands most found parts
        → MayReadMembers depth found reader.old reader.new (Stands most) result }
{
    let mut parts = parts;
    'members: while let Some(name) = reader.next_key().map_err(|_| NotJson)? {
        parts.take(alloc, reader, depth, most, name)?;
    }
    Ok(parts)
}
