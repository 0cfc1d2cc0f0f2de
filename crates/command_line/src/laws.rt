//! Laws of the definitions: functions that do nothing, whose contracts are the laws.
ghost use Rattle.command_line.specs.Laws.{Searches, SearchesAfterDashes, Evaluates, EvaluatesInputs};
ghost use Rattle.command_line.specs.Laws.{EvaluatesInputsFirst, RefusesTwoLists, Emulates, EmulatesInputs};
ghost use Rattle.command_line.specs.Laws.{Checks, Shows, Replays, SearchesLanes, RefusesNoOptions};

/// The lines that a user writes are the commands that they look like, where no word in the place of a name or a
/// list begins with `-`, other than `-` alone. After `--` each word is a name. A list may stand before the names,
/// and only once. A search with a JOURNAL and no options is no command.
pub fn plain_lines_are_commands()
    ensures search { Searches }
    ensures after_dashes { SearchesAfterDashes }
    ensures lanes { SearchesLanes }
    ensures no_options { RefusesNoOptions }
    ensures eval { Evaluates }
    ensures eval_inputs { EvaluatesInputs }
    ensures inputs_first { EvaluatesInputsFirst }
    ensures two_lists { RefusesTwoLists }
    ensures emulate { Emulates }
    ensures emulate_inputs { EmulatesInputs }
    ensures check { Checks }
    ensures show { Shows }
    ensures replay { Replays }
{}
