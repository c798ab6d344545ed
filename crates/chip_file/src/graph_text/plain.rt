//! The rows of a text that is written plainly, read byte by byte.
//!
//! What is found here is what the tokens of the text would give. If a text is written otherwise, nothing is found, and
//! the tokens are read.

ghost use Rattle.std.specs.Prelude.{◌≡◌, ◌<◌, ◌≤◌, length, drop, codes, IfSome, IfOk, IfErr};
ghost use Rattle.json.specs.Word.{is_space};
ghost use Rattle.chip_file.specs.JsonPlain.{lexemes_at, IsOperator, IsAfterByte, IsAfterName, IsNumberAt, IsRowAt};
ghost use Rattle.chip_file.specs.JsonPlain.{AreRowsAt, BeginsEdges, GoesOnAs, HasEdgesFirst};
ghost use Rattle.chip_file.specs.declared.fault.FileFault.TheVariants.{NoMemory};

use crate::fault::FileFault;
use crate::graph_text::number::leading_number;
use crate::graph_text::rows::keep;
use chip_graph::Edge;
use std::alloc::Global;

/// How the edges of a graph file are named.
const EDGES: &[u8] = b"\"edges\":";

/// What was found in a text, and where the text goes on.
#[derive(Drop)]
pub(crate) struct Found<T> {
    pub(crate) value: T,
    pub(crate) next: usize,
}

/// Whether the byte is a blank of JSON.
#[inline(always)]
fn is_blank(byte: u8) -> bool
    ensures { result ≡ is_space byte }
{
    byte == b' ' || byte == b'\t' || byte == b'\n' || byte == b'\r'
}

/// The place of the next byte that is no blank, or of the end.
#[inline(always)]
fn skip_blanks(text: &[u8], from: usize) -> usize
    requires { from ≤ length text.now }
    ensures same { lexemes_at text.now result ≡ lexemes_at text.now from }
    ensures bounds { (from ≤ result) × (result ≤ length text.now) }
{
    let mut at = from;
    while at < text.len() && is_blank(text[at]) {
        at += 1;
    }
    at
}

/// Where the text goes on after this byte, if it is next.
#[inline(always)]
fn skip(text: &[u8], from: usize, byte: u8) -> Option<usize>
    requires inside { from ≤ length text.now }
    requires operator { IsOperator byte }
    ensures { IfSome result (λ next. IsAfterByte text.now from byte next) }
{
    let at = skip_blanks(text, from);
    if at < text.len() && text[at] == byte {
        return Some(at + 1);
    }
    None
}

/// The number that is next, if few digits write it and this byte ends it.
#[inline(always)]
fn number(text: &[u8], from: usize, end: u8) -> Option<Found<u64>>
    requires inside { from ≤ length text.now }
    requires operator { IsOperator end }
    ensures { IfSome result (λ found. IsNumberAt text.now from end found.value found.next) }
{
    let start = skip_blanks(text, from);
    let rest = &text[start..];
    let (value, count) = leading_number(rest);
    if count == 0 || count == rest.len() || rest[count] != end {
        return None;
    }
    if count > 1 && rest[0] == b'0' {
        return None;
    }
    Some(Found {
        value,
        next: start + count + 1,
    })
}

/// The row of three numbers that is next, if it is written plainly.
#[inline(always)]
fn row(text: &[u8], from: usize) -> Option<Found<Edge>>
    requires { from ≤ length text.now }
    ensures { IfSome result (λ found. IsRowAt text.now from found.value found.next) }
{
    let open = skip(text, from, b'[')?;
    let tail = number(text, open, b',')?;
    let head = number(text, tail.next, b',')?;
    let mult = number(text, head.next, b']')?;
    let edge = Edge {
        tail: tail.value,
        head: head.value,
        mult: mult.value,
    };
    Some(Found {
        value: edge,
        next: mult.next,
    })
}

/// The rows of an array that was opened, if all are written plainly and there are some. Of more than `most` only the
/// first are kept.
fn rows(
    alloc: Global,
    text: &[u8],
    from: usize,
    most: u64,
) -> Result<Option<Found<Vec<Edge>>>, FileFault>
    requires { from ≤ length text.now }
    ensures rows { IfOk result (λ found. IfSome found (λ f. AreRowsAt most text.now from f.value f.next)) }
    ensures memory { IfErr result (λ f. f ≡ NoMemory) }
{
    let mut edges = Vec::new(alloc);
    let mut at = from;
    'rows: while let Some(found) = row(text, at) {
        keep(&mut edges, found.value, most)?;
        let Some(next) = skip(text, found.next, b',') else {
            let Some(next) = skip(text, found.next, b']') else {
                return Ok(None);
            };
            return Ok(Some(Found { value: edges, next }));
        };
        at = next;
    }
    Ok(None)
}

/// Where the edges of an object begin, if they are its first member.
fn edges_start(text: &[u8]) -> Option<usize>
    ensures { IfSome result (λ next. BeginsEdges text.now next) }
{
    let open = skip(text, 0, b'{')?;
    let name = skip_name(text, open)?;
    skip(text, name, b'[')
}

/// Where the text goes on after the name of the edges, if it is next.
fn skip_name(text: &[u8], from: usize) -> Option<usize>
    requires { from ≤ length text.now }
    ensures { IfSome result (λ next. IsAfterName text.now from next) }
{
    let at = skip_blanks(text, from);
    if text[at..].starts_with(EDGES) {
        return Some(at + EDGES.len());
    }
    None
}

/// Where the next member begins after a value, or the object ends.
fn next_member(text: &[u8], from: usize) -> Option<usize>
    requires { from ≤ length text.now }
    ensures { IfSome result (λ next. GoesOnAs text.now from next) }
{
    let at = skip_blanks(text, from);
    if at < text.len() && text[at] == b'}' {
        return Some(at);
    }
    let comma = skip(text, at, b',')?;
    let name = skip_blanks(text, comma);
    if name < text.len() && text[name] == b'"' {
        return Some(name);
    }
    None
}

/// The edges of a text, if they are the first member of an object and written plainly, and where the other members
/// begin. Of more than `most` only the first are kept.
pub(crate) fn first_edges(
    alloc: Global,
    text: &[u8],
    most: u64,
) -> Result<Option<Found<Vec<Edge>>>, FileFault>
    ensures edges { IfOk result (λ found. IfSome found (λ f. HasEdgesFirst most text.now f.value f.next)) }
    ensures memory { IfErr result (λ f. f ≡ NoMemory) }
{
    let Some(start) = edges_start(text) else {
        return Ok(None);
    };
    let Some(found) = rows(alloc, text, start, most)? else {
        return Ok(None);
    };
    let Some(next) = next_member(text, found.next) else {
        return Ok(None);
    };
    Ok(Some(Found {
        value: found.value,
        next,
    }))
}
