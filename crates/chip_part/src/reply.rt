use crate::rule::Rule;
use chip_link::Message;

/// The reply to an event. The last four change no chips, messages or words; the tail notes `Sealed`.
#[derive(Clone, Copy, PartialEq, Eq)]
pub enum Reply {
    /// The event was made; its number, by the kind of event.
    Done(u64),
    /// This message was taken.
    Got(Message),
    /// This message was sent: its place is claimed.
    Sent(Message),
    /// The cell was empty.
    Empty,
    /// The cell was full.
    Full,
    /// The edge was sealed.
    Sealed,
    /// This rule of the event isn't met, the first such rule.
    NotNow(Rule),
}
