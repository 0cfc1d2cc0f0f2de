//! What is written of journals, and that it is read back.
ghost use Rattle.std.specs.Prelude.{IfOk};
ghost use Rattle.journal_text.specs.Limits.{IsWithin};

use crate::example::EXAMPLE;
use journal_rules::{Entries, Entry, Journal, Seeds};
use journal_text::{read, write};
use mutations::{Draw, Mutation};
use std::alloc::{AllocError, Global};
use std::test::Fail;

/// The SHA-256 of `examples/copy1.json`.
const COPY1: [u8; 32] = [
    0xd6, 0x4c, 0x40, 0xd7, 0x88, 0xe2, 0x1c, 0xbf, 0x60, 0x6a, 0xd6, 0xd7, 0x2a, 0x8d, 0x07, 0xd0,
    0x6e, 0x02, 0x55, 0x6c, 0xb1, 0xdc, 0x3f, 0x37, 0x39, 0xd3, 0x75, 0x8b, 0xd5, 0xcb, 0x6d, 0x55,
];

// The search of `examples/copy1.json` with the seed 0 and no turns.
const COPY: &str = "\
cryptopt-journal 2
program d64c40d788e21cbf606ad6d72a8d07d06e02556cb1dc3f3739d3758bd5cb6d55
seeds 0
turns 0
opening 28
end
";

// The same with one turn.
const ONE_TURN: &str = "\
cryptopt-journal 2
program d64c40d788e21cbf606ad6d72a8d07d06e02556cb1dc3f3739d3758bd5cb6d55
seeds 0
turns 1
opening 28
entry 0 0 0 chain 0 1 28 plain
end
";

const VERSION_ONE: &str = "\
cryptopt-journal 1
program d64c40d788e21cbf606ad6d72a8d07d06e02556cb1dc3f3739d3758bd5cb6d55
seeds 1,22,18446744073709551615
turns 65536
opening 1048576
entry 2 0 0 swap 0 28 plain
end
";

// The journal of the search with the seed 0 and no turns.
fn copy(alloc: Global) -> Result<Journal, AllocError>
    ensures { IfOk result (λ journal. IsWithin journal) }
{
    let mut seeds = Seeds::new(alloc);
    seeds.push(0)?;
    Ok(Journal {
        draw: Draw::Two,
        digest: COPY1,
        seeds,
        turns: 0,
        opening: 28,
        entries: Entries::new(alloc),
    })
}

#[test]
fn a_journal_without_entries_is_six_lines(rt: HostRuntime) -> Result<(), Fail> {
    let text = write(rt.alloc(), &copy(rt.alloc())?)?;
    assert!(rt; text.as_slice() == COPY.as_bytes());
    Ok(())
}

fn entry(place: (u8, u32, u32), mutation: Mutation, cost: u64, plain: bool) -> Entry {
    let (lane, turn, seen) = place;
    Entry {
        lane,
        turn,
        seen,
        mutation,
        cost,
        plain,
    }
}

// The entries of the example.
fn entries() -> [Entry; 6] {
    let moved = Mutation::Move { slot: 1, to: 0 };
    let set = Mutation::Template {
        slot: 2047,
        number: 4,
    };
    let adcx = Mutation::Chain { slot: 7, number: 1 };
    let adox = Mutation::Chain { slot: 8, number: 2 };
    [
        entry((0, 0, 0), moved, 28, true),
        entry((1, 0, 1), set, 29, false),
        entry((0, 1, 2), Mutation::Swap { slot: 2047 }, 1_048_576, true),
        entry((0, 2, 0), Mutation::Load { slot: 0 }, 0, false),
        entry((1, 1, 4), adcx, 28, true),
        entry((1, 2, 5), adox, 27, false),
    ]
}

// Whether the journal begins as the example does.
fn begins_as_the_example(journal: &Journal) -> bool {
    journal.draw == Draw::Two
        && journal.digest == COPY1
        && journal.seeds.items() == [0, u64::MAX].as_slice()
        && journal.turns == 3
        && journal.opening == 28
}

fn is_the_example(alloc: Global, text: &str) -> bool {
    match read(alloc, text.as_bytes()) {
        Ok(journal) => {
            begins_as_the_example(&journal) && journal.entries.items() == entries().as_slice()
        }
        Err(_) => false,
    }
}

#[test]
fn each_field_is_read(rt: HostRuntime) -> Result<(), Fail> {
    assert!(rt; is_the_example(rt.alloc(), EXAMPLE));
    Ok(())
}

// Whether a text is read as a journal of which the same text is written.
fn comes_back(alloc: Global, text: &str) -> Result<bool, AllocError> {
    match read(alloc, text.as_bytes()) {
        Ok(journal) => Ok(write(alloc, &journal)?.as_slice() == text.as_bytes()),
        Err(_) => Ok(false),
    }
}

#[test]
fn journals_are_read_back(rt: HostRuntime) -> Result<(), Fail> {
    for text in [COPY, ONE_TURN, VERSION_ONE, EXAMPLE] {
        assert!(rt; comes_back(rt.alloc(), text)?, "{text}");
    }
    Ok(())
}
