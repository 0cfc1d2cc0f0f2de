//! The greatest numbers of seeds and of entries, and one more of each.
use crate::example::is_read_as;
use journal_text::{read, write};
use std::alloc::{AllocError, Global};
use std::test::Fail;

const HEAD: &str = "\
cryptopt-journal 2
program d64c40d788e21cbf606ad6d72a8d07d06e02556cb1dc3f3739d3758bd5cb6d55
seeds 18446744073709551615";

// The greatest numbers that an entry may have, but for its place.
const TAIL: &str = "move 2047 2047 1048576 fast\n";

// The text of a journal up to its entries, with one seed more than are said here.
fn opened(alloc: Global, seeds: u32) -> Result<String, AllocError> {
    let mut text = String::from_str(alloc, HEAD)?;
    for seed in 0..seeds {
        text.push_str(format!(in alloc; ",{seed}")?.as_str())?;
    }
    text.push_str("\nturns 16384\nopening 1048576\n")?;
    Ok(text)
}

// The text of a journal of 64 seeds up to its end, with so many entries.
fn filled(alloc: Global, entries: u32) -> Result<String, AllocError> {
    let mut text = opened(alloc, 63)?;
    for entry in 0..entries {
        let (turn, lane) = (entry / 64, entry % 64);
        text.push_str(format!(in alloc; "entry {lane} {turn} {entry} {TAIL}")?.as_str())?;
    }
    Ok(text)
}

// How many entries the journal of a text has, where the text is written of it.
fn entries_in(alloc: Global, text: &str) -> Result<Option<usize>, AllocError> {
    match read(alloc, text.as_bytes()) {
        Ok(journal) => {
            let same = write(alloc, &journal)?.as_slice() == text.as_bytes();
            Ok(same.then_some(journal.entries.items().len()))
        }
        Err(_) => Ok(None),
    }
}

#[test]
fn seeds_are_at_most_64(rt: HostRuntime) -> Result<(), Fail> {
    let most = format!(in rt.alloc(); "{}end\n", opened(rt.alloc(), 63)?.as_str())?;
    assert!(rt; is_read_as(rt.alloc(), most.as_str(), "journal")?);
    let more = opened(rt.alloc(), 64)?;
    assert!(rt; is_read_as(rt.alloc(), more.as_str(), "line 3")?);
    Ok(())
}

#[test]
fn entries_are_at_most_1048576(rt: HostRuntime) -> Result<(), Fail> {
    let text = filled(rt.alloc(), 1_048_576)?;
    let most = format!(in rt.alloc(); "{}end\n", text.as_str())?;
    assert_eq!(rt; entries_in(rt.alloc(), most.as_str())?, Some(1_048_576));
    let more = format!(in rt.alloc(); "{}entry 0 0 0 {TAIL}end\n", text.as_str())?;
    assert!(rt; is_read_as(rt.alloc(), more.as_str(), "line 1048582")?);
    Ok(())
}
