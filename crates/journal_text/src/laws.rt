ghost use Rattle.journal_text.specs.Laws as law;

/// The reading line by line gives a journal exactly where the text stands for it.
pub fn reading_is_the_relation()
    ensures sound { law.ReadStands }
    ensures complete { law.StandsRead }
{}

/// No text stands for two journals.
pub fn one_journal()
    ensures { law.OneJournal }
{}

/// The reading line by line fails exactly at the first faulty line.
pub fn fails_at_the_first_fault()
    ensures first { law.FailsFirst }
    ensures fails { law.FirstFails }
{}

/// What is written of a journal within the limits stands for it, and is read back.
pub fn reads_back()
    ensures stands { law.TextStands }
    ensures read { law.ReadsBack }
{}
