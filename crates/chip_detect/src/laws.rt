//! Theorems that follow from the rules of the books, for every vertex and every step.
ghost use Rattle.chip_detect.specs.Laws.{StepsKeepSoundness, NeutralOnlyWhenDone, NoMoreThanOwed, ParentGoesWithAll};
ghost use Rattle.chip_detect.specs.Worked.{SlotOfTheLast, BooksAcknowledgeLast, TwoOnTheParentEdge};

/// Every step keeps the books sound: an engaged vertex owes something on its parent edge, and a neutral one owes
/// nothing.
pub fn soundness()
    ensures { StepsKeepSoundness }
{}

/// A vertex becomes neutral only by its last acknowledgement.
pub fn last_acknowledgement()
    ensures { NeutralOnlyWhenDone }
{}

/// Acknowledgements never outnumber the messages owed.
pub fn no_more_than_owed()
    ensures { NoMoreThanOwed }
{}

/// A vertex loses its parent only when it acknowledges all that it owes on the parent edge.
pub fn parent_goes_with_all()
    ensures { ParentGoesWithAll }
{}

/// Worked examples, computed on the definitions.
pub fn worked()
    ensures slot_of_the_last { SlotOfTheLast }
    ensures engaging_message_last { BooksAcknowledgeLast }
    ensures two_on_the_parent_edge { TwoOnTheParentEdge }
{}
