//! Laws of disks outside.

ghost use Rattle.machine.specs.OutsideLaws.{AskedIsTaken, DoneInParts, DoneTogether, GivenInParts, GivenTogether, WaitingIsIdle};

/// A step of a request that waits for a disk outside is idle, and changes nothing.
pub fn waiting_is_idle()
    ensures { WaitingIsIdle }
{}

/// An answer to what is asked of a disk outside, whole or in part, is taken.
pub fn asked_is_taken()
    ensures { AskedIsTaken }
{}

/// What a disk outside gave, or did, is its parts, one event after another.
pub fn answers_are_their_parts()
    ensures given { GivenInParts }
    ensures given_together { GivenTogether }
    ensures done { DoneInParts }
    ensures done_together { DoneTogether }
{}
