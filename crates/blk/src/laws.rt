//! Laws of the answers of a disk outside. These functions do nothing: their contracts are the laws.

ghost use Rattle.blk.specs.Inside.{ClearedIsSet, FlushedIsSame, GivenIsRead, OthersAreAlike, WrittenIsSet};
ghost use Rattle.blk.specs.Parts.{AnswersLeaveSound, BytesAreTheirParts, PartsAreTheirBytes, PartsAreTheirUnits, UnitsAreTheirParts};

/// A run of sectors that a disk gave is its parts, one answer after another.
pub fn bytes_are_their_parts()
    ensures whole { BytesAreTheirParts }
    ensures parts { PartsAreTheirBytes }
{}

/// A run of units that a disk did is its parts, one answer after another.
pub fn units_are_their_parts()
    ensures whole { UnitsAreTheirParts }
    ensures parts { PartsAreTheirUnits }
{}

/// Whatever a disk answers, the requests stay sound.
pub fn answers_leave_sound()
    ensures { AnswersLeaveSound }
{}

/// A disk outside that gives what a list of sectors holds is one in the machine that holds it; and what it wrote or cleared is set there.
/// A request that does not wait for its disk advances as it does there.
pub fn outside_is_inside()
    ensures given { GivenIsRead }
    ensures written { WrittenIsSet }
    ensures cleared { ClearedIsSet }
    ensures flushed { FlushedIsSame }
    ensures others { OthersAreAlike }
{}
