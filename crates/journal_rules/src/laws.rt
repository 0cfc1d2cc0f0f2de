//! Laws of the definitions: functions that do nothing, whose contracts are the laws.

ghost use Rattle.std.specs.Prelude.{◌≡◌, ℕ, List, Some, slice_get, slice_index, take};
ghost use Rattle.mutations.specs.Mutations.{drawn};
ghost use Rattle.mutations.specs.Words.{words_of};
ghost use Rattle.journal_rules.specs.declared.journal.Entry.{Entry};
ghost use Rattle.journal_rules.specs.Laws.{HasPlans};
ghost use Rattle.journal_rules.specs.Legal.{IsEntry, IsLegalJournal};
ghost use Rattle.journal_rules.specs.Machine.{Event, IsMachine, IsStart, Machine, Run};
ghost use Rattle.journal_rules.specs.Numbers.{Setup, parent_of, plan_at};

/// The numbers of a journal: the opening has the opening plan. The plan of each entry that saw earlier ones alone is
/// its mutation applied to the plan of its parent: the incumbent's at its look. The incumbent after some entries is the
/// last one of least cost among them and the opening.
pub fn plans_follow_from_journals()
    ensures { (setup : Setup) (es : List Entry) → HasPlans setup es }
{}

/// Each entry of a legal journal may stand behind the earlier ones, and its mutation is drawn for the plan of its
/// parent by the words of its lane's seed and its turn.
pub fn journals_are_legal_by_entry()
    ensures entry { (setup : Setup) (es : List Entry) → IsLegalJournal setup es → (k : ℕ) (e : Entry)
        → slice_get es k ≡ Some e → IsEntry setup (take k es) e }
    ensures drawn { (setup : Setup) (es : List Entry) → IsLegalJournal setup es → (k : ℕ) (e : Entry)
        → slice_get es k ≡ Some e → e.mutation ≡ drawn setup.program (plan_at setup es (parent_of setup es e))
        (words_of (slice_index setup.seeds e.lane) e.turn) setup.draw }
{}

/// At the start the journal is legal, and whichever events come in whichever order, it is legal after them.
pub fn every_interleaving_keeps_journals_legal()
    ensures start { (setup : Setup) (m : Machine) → IsStart setup m → IsMachine setup m }
    ensures run { (setup : Setup) (old new : Machine) (events : List Event) → IsMachine setup old
        → Run setup old events new → IsMachine setup new }
{}
