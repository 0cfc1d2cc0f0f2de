//! A law of the definitions: a function that does nothing, whose contract is the law.

ghost use Rattle.word_program.specs.Accepted.{IsOfParts};
ghost use Rattle.word_program.specs.Program.{Source};
ghost use Rattle.plain_checks.specs.Proved.{HasRightPlain};

/// Of every program of parts that break no rule, the plain listing of every legal plan, with whichever templates, does
/// what the plan says, is proved for the program, and has at most 16 lines an operation, 2 an output word, and 9 more.
pub fn plain_listings_are_proved()
    ensures { (program : Source) → IsOfParts program → HasRightPlain program }
{}
