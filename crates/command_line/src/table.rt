//! The table of the commands.
ghost use Rattle.std.specs.Prelude.{◌≡◌, option_map};
ghost use Rattle.command_line.specs.Table as spec;

/// The commands of the program.
#[derive(Clone, Copy)]
pub enum CommandName {
    Search,
    Eval,
    Emulate,
    Check,
    Show,
    Replay,
}

/// How an argument of a command takes its value.
#[derive(Clone, Copy)]
pub enum ArgKind {
    /// A word that has to stand there.
    Word,
    /// A word that may stand there, after the others.
    OptionalWord,
    /// An option: `--NAME VALUE`.
    Named,
}

/// What stands on a command's line.
#[derive(Clone, Copy)]
pub struct Syntax {
    /// The first word.
    pub name: &'static str,
    /// The names of the words that have to stand after it, in order.
    pub words: &'static [&'static str],
    /// The names of the words that may stand after those, in order.
    pub optional: &'static [&'static str],
    /// The names of the options, each of which takes a value: `--NAME VALUE`.
    pub options: &'static [&'static str],
}

/// What stands on the line of each command.
pub fn syntax_of(name: CommandName) -> Syntax
    ensures { spec.syntax_view result ≡ spec.syntax_of name }
{
    match name {
        CommandName::Search => row(
            "search",
            &["PROGRAM", "ASM"],
            &["JOURNAL"],
            &["seeds", "workers", "turns"],
        ),
        CommandName::Eval => row("eval", &["PROGRAM"], &[], &["in"]),
        CommandName::Emulate => row("emulate", &["PROGRAM", "ASM"], &[], &["in"]),
        CommandName::Check => row("check", &["PROGRAM", "ASM"], &[], &[]),
        CommandName::Show => row("show", &["ASM"], &[], &[]),
        CommandName::Replay => row("replay", &["PROGRAM", "JOURNAL", "ASM"], &[], &[]),
    }
}

fn row(
    name: &'static str,
    words: &'static [&'static str],
    optional: &'static [&'static str],
    options: &'static [&'static str],
) -> Syntax
    ensures { result ≡ record {
      name = name.entry;
      words = words.entry;
      optional = optional.entry;
      options = options.entry;
    } }
{
    Syntax {
        name,
        words,
        optional,
        options,
    }
}

/// The command whose first word this is.
pub fn command_named(word: &str) -> Option<CommandName>
    ensures { result ≡ spec.command_named word.now }
{
    match word {
        "search" => Some(CommandName::Search),
        "eval" => Some(CommandName::Eval),
        "emulate" => Some(CommandName::Emulate),
        "check" => Some(CommandName::Check),
        "show" => Some(CommandName::Show),
        "replay" => Some(CommandName::Replay),
        _ => None,
    }
}
