//! Laws over the definitions alone. These functions do nothing: their contracts are the laws.

ghost use Rattle.wire.specs.StreamLaws.{EachVersion, OneCount, OneMachine, OneRecord, OneVersion, WholeIsStream};
ghost use Rattle.wire.specs.Telling.{TakenIsPut};

/// No encoding of a record of a stream is a prefix of another's.
pub fn no_record_begins_another()
    ensures { OneRecord }
{}

/// A stream encodes one machine at most whose RAM begins at a given address, whatever its version.
pub fn a_stream_has_one_machine()
    ensures { OneMachine }
{}

/// A stream has one count of rounds that ended.
pub fn a_stream_has_one_count_of_rounds()
    ensures { OneCount }
{}

/// No bytes are a stream in two versions.
pub fn a_stream_has_one_version()
    ensures { OneVersion }
{}

/// A sound machine has a stream in each version that has its devices.
pub fn each_version_has_a_stream()
    ensures { EachVersion }
{}

/// The whole stream of a sound machine is a stream of it.
pub fn whole_is_a_stream()
    ensures { WholeIsStream }
{}

/// What was taken from a sink whose digest is told, in its order, and what it holds are what was put. So whoever digested what it took knows
/// the digest to tell.
pub fn taken_is_put()
    ensures { TakenIsPut }
{}
