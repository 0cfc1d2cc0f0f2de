//! `search` with a journal: what it publishes, and which of its calls may fail.
use crate::calls::{Host, end_of, words_of};
use crate::programs::{COPY1, COPY1_TEXT, MUL4};
use io_ports::{Fault, MemoryShelf, Shelf};
use search_top::{FreeGate, Gate, command, search};
use std::alloc::{AllocError, Global};
use std::str::from_utf8;
use std::sync::atomic::{AtomicU64, Ordering};
use std::test::Fail;

const LINE: &str = "search p.json p.s p.j --seeds 0 --workers 1 --turns 0";

// The journal of a search of the copy with one lane that makes no turn.
const JOURNAL: &str = "\
cryptopt-journal 2
program 002ae1e87f07ab4c81d24ab37dd3b41ed18e5ed4759b277e9c90d930cb940c82
seeds 0
turns 0
opening 28
end
";

const SUMMARY: &str = "lanes 1 turns 0 entries 0\nopening 28\nbest 0 cost 28\nplain 0\n";

// What a call left: how it ended, the two files that it may write, and what was said.
#[derive(Drop)]
struct Left {
    end: String,
    asm: Vec<u8>,
    journal: Vec<u8>,
    said: Vec<u8>,
}

// The words of the file, and `none` where there is none.
fn file(alloc: Global, shelf: &MemoryShelf, name: &str) -> Result<Vec<u8>, AllocError> {
    shelf.file(name).unwrap_or(b"none").to_vec(alloc)
}

// A shelf with a program, on which these calls fail.
fn shelf_of(alloc: Global, program: &str, fails: &[u64]) -> Result<MemoryShelf, AllocError> {
    let mut shelf = MemoryShelf::new(alloc, fails)?;
    shelf.put("p.json", program.as_bytes())?;
    Ok(shelf)
}

// What a search of a program leaves, where these calls of the shelf fail.
fn left_by<G: Gate + Sync>(
    rt: &impl Host,
    program: &str,
    line: &str,
    fails: &[u64],
    gate: &G,
) -> Result<Left, AllocError> {
    let alloc = rt.alloc();
    let mut shelf = shelf_of(alloc, program, fails)?;
    let words = words_of(alloc, line)?;
    let status = search(rt, alloc, words.as_slice(), &mut shelf, gate);
    Ok(Left {
        end: end_of(alloc, &status)?,
        asm: file(alloc, &shelf, "p.s")?,
        journal: file(alloc, &shelf, "p.j")?,
        said: shelf.said().to_vec(alloc)?,
    })
}

#[test]
fn publishes_the_listing_and_the_journal_byte_for_byte(rt: HostRuntime) -> Result<(), Fail> {
    let left = left_by(&rt, COPY1, LINE, &[], &FreeGate)?;
    assert_eq!(rt; left.end.as_str(), "0 ");
    assert!(rt; left.asm.as_slice() == COPY1_TEXT.as_bytes());
    assert!(rt; left.journal.as_slice() == JOURNAL.as_bytes());
    assert!(rt; left.said.as_slice() == SUMMARY.as_bytes());
    Ok(())
}

// Whether a search of the copy ends so, with these files and nothing said, where this call fails.
fn ends_at(
    rt: &impl Host,
    call: u64,
    end: &str,
    asm: &str,
    journal: &str,
) -> Result<bool, AllocError> {
    let left = left_by(rt, COPY1, LINE, &[call], &FreeGate)?;
    Ok(
        left.end.as_str() == end
            && left.asm.as_slice() == asm.as_bytes()
            && left.journal.as_slice() == journal.as_bytes()
            && left.said.is_empty(),
    )
}

// The calls are the load of the program, the store of the listing, that of the journal, and the summary.
#[test]
fn ends_at_the_call_that_fails(rt: HostRuntime) -> Result<(), Fail> {
    for (call, end, asm, journal) in [
        (0, "3 cannot read p.json", "none", "none"),
        (1, "7 cannot write p.s", "none", "none"),
        (2, "7 cannot write p.j", COPY1_TEXT, "none"),
        (3, "7 cannot write -", COPY1_TEXT, JOURNAL),
    ] {
        assert!(rt; ends_at(&rt, call, end, asm, journal)?, "{end}");
    }
    let mut shelf = shelf_of(rt.alloc(), COPY1, &[4])?;
    let words = words_of(rt.alloc(), LINE)?;
    search(&rt, rt.alloc(), words.as_slice(), &mut shelf, &FreeGate);
    assert!(rt; shelf.load(rt.alloc(), "p.json", 4096).err() == Some(Fault::Failed));
    Ok(())
}

// What is said at the end: the greatest words, squared, as (2^256 - 1)^2 is 2^512 - 2^257 + 1.
const ENDS_WITH: &str = "
plain 0
proved
out1[0] 0x0000000000000001
out1[1] 0x0000000000000000
out1[2] 0x0000000000000000
out1[3] 0x0000000000000000
out1[4] 0xfffffffffffffffe
out1[5] 0xffffffffffffffff
out1[6] 0xffffffffffffffff
out1[7] 0xffffffffffffffff
";

const GREATEST: &str = "emulate p.json p.s --in 18446744073709551615,18446744073709551615,\
18446744073709551615,18446744073709551615,18446744073709551615,18446744073709551615,\
18446744073709551615,18446744073709551615";

// A search of four words times four by two workers over three lanes: no offer is a plain listing, and the cheapest one
// is proved, and squares the greatest words.
#[test]
fn makes_every_turn_of_every_lane(rt: HostRuntime) -> Result<(), Fail> {
    let alloc = rt.alloc();
    let line = "search p.json p.s p.j --seeds 7,0,18446744073709551615 --workers 2 --turns 30";
    let mut shelf = shelf_of(alloc, MUL4, &[])?;
    let words = words_of(alloc, line)?;
    search(&rt, alloc, words.as_slice(), &mut shelf, &FreeGate);
    for line in ["check p.json p.s", GREATEST] {
        let words = words_of(alloc, line)?;
        command(alloc, words.as_slice(), &mut shelf);
    }
    let said = shelf.said();
    assert!(rt; said.starts_with(b"lanes 3 turns 30 entries 90\nopening 1302\nbest "));
    assert!(rt; said.ends_with(ENDS_WITH.as_bytes()));
    Ok(())
}

// How the replay of a search of one offer ends, where this piece of the journal is another one, and what is said.
fn replay_of(rt: &impl Host, piece: &str, by: &str) -> Result<(String, bool), Fail> {
    let alloc = rt.alloc();
    let mut shelf = shelf_of(alloc, MUL4, &[])?;
    let words = words_of(
        alloc,
        "search p.json p.s p.j --seeds 0 --workers 1 --turns 1",
    )?;
    search(rt, alloc, words.as_slice(), &mut shelf, &FreeGate);
    let journal = file(alloc, &shelf, "p.j")?;
    let text = from_utf8(journal.as_slice())?.replace(alloc, piece, by)?;
    shelf.put("p.j", text.as_str().as_bytes())?;
    let words = words_of(alloc, "replay p.json p.j p.s")?;
    let status = command(alloc, words.as_slice(), &mut shelf);
    let replayed = shelf.said().ends_with(b"\nreplayed 1 best 1 cost 263\n");
    Ok((end_of(alloc, &status)?, replayed))
}

// The cost of the one offer is that of the fast listing of the opening plan, since the mutation that is drawn, of the
// chain of a copy, changes nothing.
#[test]
fn replays_only_the_cost_that_the_listing_has(rt: HostRuntime) -> Result<(), Fail> {
    let (end, replayed) = replay_of(&rt, " 263 fast", " 263 fast")?;
    assert_eq!(rt; end.as_str(), "0 ");
    assert!(rt; replayed);
    let (end, replayed) = replay_of(&rt, " 263 fast", " 262 fast")?;
    assert_eq!(rt; end.as_str(), "16 replay: cost 262 table 263");
    assert!(rt; !replayed);
    Ok(())
}

// Counts the calls of a gate for each of two lanes, and lets lane 0's turn wait until lane 1's is settled.
#[derive(Drop)]
struct Meeting {
    began: [AtomicU64; 2],
    validating: [AtomicU64; 2],
    settled: [AtomicU64; 2],
    late: AtomicU64,
}

// How often a look is tried.
const TRIES: u64 = 1_000_000_000;

fn counters() -> [AtomicU64; 2] {
    [AtomicU64::new(0), AtomicU64::new(0)]
}

impl Meeting {
    fn new() -> Meeting {
        Meeting {
            began: counters(),
            validating: counters(),
            settled: counters(),
            late: AtomicU64::new(0),
        }
    }

    // Waits until this was called for the lane.
    fn wait(&self, calls: &[AtomicU64; 2], lane: u8) {
        for _ in 0..TRIES {
            if called(calls, lane) > 0 {
                return;
            }
        }
        self.late.fetch_add(1, Ordering::SeqCst);
    }

    // Whether each call was made once for both lanes, and none was waited for too long.
    fn was_kept(&self) -> bool {
        self.late.load(Ordering::SeqCst) == 0
            && once(&self.began)
            && once(&self.validating)
            && once(&self.settled)
    }
}

fn called(calls: &[AtomicU64; 2], lane: u8) -> u64 {
    let [first, second] = calls;
    let of_lane = if lane == 0 { first } else { second };
    of_lane.load(Ordering::SeqCst)
}

fn once(calls: &[AtomicU64; 2]) -> bool {
    called(calls, 0) == 1 && called(calls, 1) == 1
}

fn note(calls: &[AtomicU64; 2], lane: u8) {
    let [first, second] = calls;
    let of_lane = if lane == 0 { first } else { second };
    of_lane.fetch_add(1, Ordering::SeqCst);
}

fn other(lane: u8) -> u8 {
    if lane == 0 { 1 } else { 0 }
}

impl Gate for Meeting {
    fn began(&self, lane: u8, _turn: u32) {
        note(&self.began, lane);
        self.wait(&self.began, other(lane));
    }

    fn validating(&self, lane: u8, _turn: u32) {
        note(&self.validating, lane);
        self.wait(&self.began, other(lane));
        if lane == 0 {
            self.wait(&self.settled, 1);
        }
    }

    fn settled(&self, lane: u8, _turn: u32) {
        note(&self.settled, lane);
    }
}

// Both lanes look at the opening before one of them offers, and lane 1 offers first.
#[test]
fn runs_its_workers_beside_each_other(rt: HostRuntime) -> Result<(), Fail> {
    let line = "search p.json p.s p.j --seeds 0,1 --workers 2 --turns 1";
    let meeting = Meeting::new();
    let left = left_by(&rt, COPY1, line, &[], &meeting)?;
    assert_eq!(rt; left.end.as_str(), "0 ");
    assert!(rt; meeting.was_kept());
    let text = String::from_utf8(left.journal).unwrap_or(String::new(rt.alloc()));
    let mut entries = text.as_str().lines().skip(5);
    assert!(rt; entries.next().unwrap_or("").starts_with("entry 1 0 0 "));
    assert!(rt; entries.next().unwrap_or("").starts_with("entry 0 0 0 "));
    assert_eq!(rt; entries.next().unwrap_or(""), "end");
    Ok(())
}
