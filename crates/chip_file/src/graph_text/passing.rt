//! Values that are skipped.

ghost use Rattle.std.specs.Prelude.{◌<◌, ◌≤◌, ◌∷◌, length, OnOk, ⊤};
ghost use Rattle.json.specs.Reads.{token_of};
ghost use Rattle.chip_file.specs.JsonValues.{ReadsValue, ReadsItems, ReadsMembers};

use crate::fault::FileFault;
use crate::graph_text::number::number_of;
use json::{Reader, Token};

/// The text is no JSON.
#[derive(Clone, Copy)]
pub(crate) struct NotJson;

impl From<NotJson> for FileFault {
    ghost use Rattle.std.specs.Prelude.{◌≡◌};
    ghost use Rattle.chip_file.specs.declared.fault.FileFault.TheVariants.{NotJson as not_json};

    ghost from_gives = { λ _ fault. fault ≡ not_json };

    fn from(_fault: NotJson) -> FileFault {
        FileFault::NotJson
    }
}

/// Skips a value, in which arrays and objects nest no deeper than `depth`.
#[cycle(pass)]
pub(crate) fn pass(reader: &mut Reader<'_>, depth: usize) -> Result<(), NotJson>
    ensures value { ReadsValue depth reader.old reader.new (λ d x. ⊤) result }
    ensures shorter { OnOk result (length reader.new < length reader.old) }
{
    let token = reader.next().ok_or(NotJson)?;
    pass_rest(reader, token, depth)
}

/// Skips the rest of the value that a token begins.
#[cycle(pass)]
pub(crate) fn pass_rest(
    reader: &mut Reader<'_>,
    token: Token<'_>,
    depth: usize,
) -> Result<(), NotJson>
    ensures value { ReadsValue depth (token_of token.entry ∷ reader.old) reader.new (λ d x. ⊤) result }
    ensures shorter { OnOk result (length reader.new ≤ length reader.old) }
{
    match token {
        Token::String(_) | Token::Bool(_) | Token::Null => Ok(()),
        Token::Number(text) => match number_of(text) {
            Some(_) => Ok(()),
            None => Err(NotJson),
        },
        Token::EndObject | Token::EndArray | Token::Key(_) | Token::Bad => Err(NotJson),
        Token::BeginArray => {
            if depth == 0 {
                return Err(NotJson);
            }
            pass_items(reader, depth - 1)
        }
        Token::BeginObject => {
            if depth == 0 {
                return Err(NotJson);
            }
            pass_members(reader, depth - 1)
        }
    }
}

/// Skips the items that are left of an array.
#[cycle(pass)]
pub(crate) fn pass_items(reader: &mut Reader<'_>, depth: usize) -> Result<(), NotJson>
    ensures value { ReadsItems depth reader.old reader.new (λ ds x. ⊤) result }
    ensures shorter { OnOk result (length reader.new < length reader.old) }
{
    'items: while !reader.take_end_array() {
        pass(reader, depth)?;
    }
    Ok(())
}

/// Skips the members that are left of an object.
#[cycle(pass)]
pub(crate) fn pass_members(reader: &mut Reader<'_>, depth: usize) -> Result<(), NotJson>
    ensures value { ReadsMembers depth reader.old reader.new (λ ms x. ⊤) result }
    ensures shorter { OnOk result (length reader.new < length reader.old) }
{
    'members: while let Some(_) = reader.next_key().map_err(|_| NotJson)? {
        pass(reader, depth)?;
    }
    Ok(())
}
