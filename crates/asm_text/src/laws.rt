ghost use Rattle.asm_text.specs.Laws as law;

/// The reading line by line gives a name and lines exactly where the text stands for them.
pub fn reading_is_the_relation()
    ensures sound { law.ReadStands }
    ensures complete { law.StandsRead }
{}

/// No text stands for two listings.
pub fn one_listing()
    ensures { law.OneListing }
{}

/// The reading line by line fails exactly at the first faulty line.
pub fn fails_at_the_first_fault()
    ensures first { law.FailsFirst }
    ensures fails { law.FirstFails }
{}

/// What is written of a listing whose name is an identifier stands for it, and is read back.
pub fn reads_back()
    ensures stands { law.TextStands }
    ensures read { law.ReadsBack }
{}
