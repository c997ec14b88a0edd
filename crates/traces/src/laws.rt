//! Laws over the definitions of a trace: functions that do nothing, whose contracts are the laws.

ghost use Rattle.std.specs.Prelude.{ℕ, List};
ghost use Rattle.traces.specs.Laws.{HoldsOneTrace, IsTraceOrRefused, HasOneFirstBad, HoldsOneList, AreEventsOrRefused, HasOneFirstBadEvent};

/// Each text is read in one way: as one trace, or with one line that is the first bad or the missing one.
pub fn texts_are_read_in_one_way()
    ensures trace { (text : List ℕ) → HoldsOneTrace text }
    ensures either { (text : List ℕ) → IsTraceOrRefused text }
    ensures line { (text : List ℕ) → HasOneFirstBad text }
{}

/// Each text of events alone is read in one way: as one list of events, or with one line that is the first bad one.
pub fn events_are_read_in_one_way()
    ensures events { (text : List ℕ) → HoldsOneList text }
    ensures either { (text : List ℕ) → AreEventsOrRefused text }
    ensures line { (text : List ℕ) → HasOneFirstBadEvent text }
{}
