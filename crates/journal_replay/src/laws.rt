//! Laws of the definitions: functions that do nothing, whose contracts are the laws.

ghost use Rattle.journal_replay.specs.Laws as law;

/// What replays is a legal and whole journal of the program, and a listing that is correct for the program, realises
/// the plan of the journal's incumbent, and has its cost.
pub fn replayed_listings_are_correct()
    ensures { law.ReplayedIsCorrect }
{}

/// At most one check is the first that fails, and of what replays none. So a fault comes exactly where its check is the
/// first to fail, but for want of memory.
pub fn faults_come_exactly_where_they_are_first()
    ensures none { law.NoFaultReplays }
    ensures one { law.OneFault }
{}
