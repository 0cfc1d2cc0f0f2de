//! A journal of two lanes with each kind of mutation and both marks, and texts that differ from its own.
use journal_text::read;
use std::alloc::{AllocError, Global};

/// Its text, of 12 lines.
pub const EXAMPLE: &str = "\
cryptopt-journal 2
program d64c40d788e21cbf606ad6d72a8d07d06e02556cb1dc3f3739d3758bd5cb6d55
seeds 0,18446744073709551615
turns 3
opening 28
entry 0 0 0 move 1 0 28 plain
entry 1 0 1 template 2047 4 29 fast
entry 0 1 2 swap 2047 1048576 plain
entry 0 2 0 load 0 0 fast
entry 1 1 4 chain 7 1 28 plain
entry 1 2 5 chain 8 2 27 fast
end
";

/// What a text is read as: `journal`, or what its refusal says.
pub fn answer(alloc: Global, text: &str) -> Result<String, AllocError> {
    match read(alloc, text.as_bytes()) {
        Ok(_) => String::from_str(alloc, "journal"),
        Err(fault) => format!(in alloc; "{fault}"),
    }
}

/// Whether a text is read as is written here.
pub fn is_read_as(alloc: Global, text: &str, expected: &str) -> Result<bool, AllocError> {
    Ok(answer(alloc, text)?.as_str() == expected)
}

fn push_lines(text: &mut String, first: usize, end: usize) -> Result<(), AllocError> {
    for (index, line) in EXAMPLE.lines().enumerate() {
        if first <= index && index < end {
            text.push_str(line)?;
            text.push_str("\n")?;
        }
    }
    Ok(())
}

/// So many lines of the example, then other text with a slash for each line feed, and then the example from another
/// line on, counted from 1.
pub fn changed(
    alloc: Global,
    lines: usize,
    other: &str,
    from: usize,
) -> Result<String, AllocError> {
    let mut text = String::new(alloc);
    push_lines(&mut text, 0, lines)?;
    text.push_str(other.replace(alloc, "/", "\n")?.as_str())?;
    push_lines(&mut text, from.saturating_sub(1), 12)?;
    Ok(text)
}
