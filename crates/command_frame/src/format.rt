ghost use Rattle.std.specs.Prelude.{◌≡◌};
ghost use Rattle.command_frame.specs.Files as files;

/// How many bytes a program's file may have.
pub const PROGRAM_LIMIT: u64 = 1_048_576;

/// How many bytes a file of assembly may have.
pub const ASM_LIMIT: u64 = 67_108_864;

/// How many bytes a file of a journal may have.
pub const JOURNAL_LIMIT: u64 = 67_108_864;

/// What a file is read as.
#[derive(Clone, Copy)]
pub enum Format {
    /// A program in JSON.
    Program,
    /// A program in JSON, together with the SHA-256 of the file's bytes.
    DigestedProgram,
    /// The assembly text of a listing.
    Listing,
    /// The text of a journal.
    Journal,
}

/// How many bytes a file may have that is read as this.
pub fn limit_of(format: Format) -> u64
    ensures { result ≡ files.limit_of format }
{
    match format {
        Format::Program => PROGRAM_LIMIT,
        Format::DigestedProgram => PROGRAM_LIMIT,
        Format::Listing => ASM_LIMIT,
        Format::Journal => JOURNAL_LIMIT,
    }
}
