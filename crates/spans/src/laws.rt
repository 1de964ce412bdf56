//! Laws of spans: functions that do nothing, whose contracts are the laws.

ghost use Rattle.spans.specs.Spans.{LeastStopIsFirst, SpansLeadAlong};

/// Spans that each lead from the claim before them to their own lead on as a whole.
pub fn spans_lead_along()
    ensures { SpansLeadAlong }
{}

/// The first record of the least span that stops is the first of the whole that doesn't lead on.
pub fn least_stop_is_first()
    ensures { LeastStopIsFirst }
{}
