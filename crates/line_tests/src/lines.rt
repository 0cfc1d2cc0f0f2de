//! Command lines, and the commands that they are.
use base::Text;
use command_line::{Command, Words, command_of};
use std::alloc::{AllocError, Global};
use std::test::Fail;

// A row a line: words with a blank between each two, and after `=>` the command with its words and its numbers in
// decimal digits, or `none`. A search by lanes is `lanes` with its names, workers, turns and seeds. `SIXTY-FOUR` stands
// for 64 seeds, which are 7.
const ROWS: &str = "\
search p.json p.s => search p.json p.s
search p.json => none
search p.json p.s q.s => none
search => none
searc p.json p.s => none
Search p.json p.s => none
search same same => none
search a ./a => search a ./a
search - p.s => search - p.s
search p.json - => none
search - - => none
search -- p.json p.s => search p.json p.s
search -- -p -s => search -p -s
search p.json -- -s => search p.json -s
search -- p.json - => none
search -p p.s => none
search p.json --p.s => none
search p.json p.s --in 1 => none
search p.json p.s --help => none
search p.json p.s -h => none
search --help => none
search p.json p.s --version => none
search a.json a.s a.j --seeds 1 --workers 2 --turns 3 => lanes a.json a.s a.j 2 3 1
search a.json a.s a.j --turns 3 --workers 2 --seeds 1,2 => lanes a.json a.s a.j 2 3 1 2
search --seeds 1,2 --workers 2 --turns 3 a.json a.s a.j => lanes a.json a.s a.j 2 3 1 2
search a.json --seeds=1,2 a.s --workers=2 a.j --turns=3 => lanes a.json a.s a.j 2 3 1 2
search --seeds 1 --workers 2 --turns 3 -- -p -s -j => lanes -p -s -j 2 3 1
search - a.s a.j --seeds 1 --workers 2 --turns 3 => lanes - a.s a.j 2 3 1
search a.json - a.j --seeds 1 --workers 2 --turns 3 => none
search a.json a.s - --seeds 1 --workers 2 --turns 3 => none
search a.s a.s a.j --seeds 1 --workers 2 --turns 3 => none
search a.j a.s a.j --seeds 1 --workers 2 --turns 3 => none
search a.json a.s a.s --seeds 1 --workers 2 --turns 3 => none
search a.json a.s a.j b.j --seeds 1 --workers 2 --turns 3 => none
search a.json a.s a.j => none
search a.json a.s a.j --seeds 1 => none
search a.json a.s a.j --workers 2 --turns 3 => none
search a.json a.s a.j --seeds 1 --turns 3 => none
search a.json a.s a.j --seeds 1 --workers 2 => none
search a.json a.s --seeds 1 --workers 2 --turns 3 => none
search a.json a.s --seeds 1 => none
search a.json a.s --workers 2 => none
search a.json a.s --turns 3 => none
search a.json a.s a.j --seeds 1 --workers 2 --turns 3 --turns 3 => none
search a.json a.s a.j --seeds 1 --seeds 1 --workers 2 --turns 3 => none
search a.json a.s a.j --seeds 1 --workers 2 --turns 3 --in 1 => none
search a.json a.s a.j --seeds 1 --workers 1 --turns 3 => lanes a.json a.s a.j 1 3 1
search a.json a.s a.j --seeds 1 --workers 0 --turns 3 => none
search a.json a.s a.j --seeds 1 --workers 64 --turns 3 => lanes a.json a.s a.j 64 3 1
search a.json a.s a.j --seeds 1 --workers 65 --turns 3 => none
search a.json a.s a.j --seeds 1 --workers 320 --turns 3 => none
search a.json a.s a.j --seeds 1 --workers 2 --turns 0 => lanes a.json a.s a.j 2 0 1
search a.json a.s a.j --seeds 1 --workers 2 --turns 65536 => lanes a.json a.s a.j 2 65536 1
search a.json a.s a.j --seeds 1 --workers 2 --turns 65537 => none
search a.json a.s a.j --seeds SIXTY-FOUR --workers 2 --turns 1 => lanes a.json a.s a.j 2 1 SIXTY-FOUR
search a.json a.s a.j --seeds SIXTY-FOUR,7 --workers 2 --turns 1 => none
search a.json a.s a.j --seeds SIXTY-FOUR --workers 2 --turns 16384 => lanes a.json a.s a.j 2 16384 SIXTY-FOUR
search a.json a.s a.j --seeds SIXTY-FOUR --workers 2 --turns 16385 => none
search a.json a.s a.j --seeds 007,0 --workers 02 --turns 003 => lanes a.json a.s a.j 2 3 7 0
search a a.s a.j --seeds 18446744073709551615 --workers 2 --turns 3 => lanes a a.s a.j 2 3 18446744073709551615
search a.json a.s a.j --seeds 18446744073709551616 --workers 2 --turns 3 => none
search a.json a.s a.j --seeds 00000000000000000001 --workers 2 --turns 3 => lanes a.json a.s a.j 2 3 1
search a.json a.s a.j --seeds 000000000000000000001 --workers 2 --turns 3 => none
search a.json a.s a.j --seeds 1 --workers 00000000000000000002 --turns 3 => lanes a.json a.s a.j 2 3 1
search a.json a.s a.j --seeds 1 --workers 000000000000000000002 --turns 3 => none
search a.json a.s a.j --seeds 1 --workers 2 --turns 000000000000000000003 => none
search a.json a.s a.j --seeds 0x1 --workers 2 --turns 3 => none
search a.json a.s a.j --seeds +1 --workers 2 --turns 3 => none
search a.json a.s a.j --seeds 1 --workers +2 --turns 3 => none
search a.json a.s a.j --seeds -1 --workers 2 --turns 3 => none
search a.json a.s a.j --seeds=-1 --workers 2 --turns 3 => none
search a.json a.s a.j --seeds 1,,2 --workers 2 --turns 3 => none
search a.json a.s a.j --seeds 1, --workers 2 --turns 3 => none
search a.json a.s a.j --seeds ,1 --workers 2 --turns 3 => none
search a.json a.s a.j --seeds , --workers 2 --turns 3 => none
search a.json a.s a.j --seeds= --workers 2 --turns 3 => none
search a.json a.s a.j --seeds  --workers 2 --turns 3 => none
search a.json a.s a.j --seeds 1 2 --workers 2 --turns 3 => none
search a.json a.s a.j --seeds 1 --workers= --turns 3 => none
find a.json a.s a.j --seeds 1 --workers 2 --turns 3 => none
replay a.json a.j a.s => replay a.json a.j a.s
replay a a a => replay a a a
replay - - - => replay - - -
replay -- -p -j -s => replay -p -j -s
replay a.json a.j => none
replay a.json a.j a.s b.s => none
replay a.json a.j a.s --seeds 1 => none
replays a.json a.j a.s => none
eval p.json => eval p.json
eval - => eval -
eval => none
eval p.json q.json => none
eval help => eval help
eval p.json --in 1,2 => eval p.json 1 2
eval p.json --in=1,2 => eval p.json 1 2
eval --in 1,2 p.json => eval p.json 1 2
eval --in=1,2 p.json => eval p.json 1 2
eval --in 1,2 -- p.json => eval p.json 1 2
eval -- p.json --in 1 => none
eval p.json --in => none
eval --in p.json => none
eval p.json --in 1 --in 1 => none
eval p.json --in=1 --in=1 => none
eval p.json --in 1 2 => none
eval p.json --i 1 => none
eval p.json -in 1 => none
eval p.json --inputs 1 => none
eval p.json --in 1 --help => none
eval p.json --in 0 => eval p.json 0
eval p.json --in 0007 => eval p.json 7
eval p.json --in 18446744073709551615 => eval p.json 18446744073709551615
eval p.json --in 18446744073709551616 => none
eval p.json --in 0000000000000000000000000000000000000001 => eval p.json 1
eval p.json --in 0xfF => eval p.json 255
eval p.json --in 0xffffffffffffffff => eval p.json 18446744073709551615
eval p.json --in 0x10000000000000000 => none
eval p.json --in 0x00000000000000000000000000000000000002 => eval p.json 2
eval p.json --in 0X10 => none
eval p.json --in 0x => none
eval p.json --in ff => none
eval p.json --in +1 => none
eval p.json --in -1 => none
eval p.json --in=-1 => none
eval p.json --in - => none
eval p.json --in= => none
eval --in  p.json => none
eval p.json --in 1, => none
eval p.json --in ,1 => none
eval p.json --in 1,,2 => none
eval p.json --in , => none
emulate p.json p.s => emulate p.json p.s
emulate p.json p.s --in 5,6 => emulate p.json p.s 5 6
emulate --in 5,6 p.json p.s => emulate p.json p.s 5 6
emulate p.json --in=5 p.s => emulate p.json p.s 5
emulate p.json p.json => emulate p.json p.json
emulate p.json - => emulate p.json -
emulate p.json => none
emulate p.json p.s q.s => none
emulate p.json p.s --in x => none
check p.json p.s => check p.json p.s
check p.s p.s => check p.s p.s
check - - => check - -
check -- -p -s => check -p -s
check p.json => none
check p.json p.s q.s => none
check p.json p.s --in 1 => none
show p.s => show p.s
show - => show -
show -- --help => show --help
show --help => none
show -x => none
show p.s q.s => none
show p.s --in 1 => none
show => none
help => none
-- show p.s => none";

fn text_of(alloc: Global, command: &Command) -> Result<String, AllocError> {
    match command {
        Command::Search { program, asm } => format!(in alloc;
            "search {} {}",
            program.as_str(),
            asm.as_str()
        ),
        Command::SearchLanes {
            program,
            asm,
            journal,
            seeds,
            workers,
            turns,
        } => {
            let names = three(alloc, program, asm, journal)?;
            let text = format!(in alloc; "lanes {names} {workers} {turns}")?;
            with_words(text, seeds)
        }
        Command::Eval { program, inputs } => {
            let text = format!(in alloc; "eval {}", program.as_str())?;
            with_words(text, inputs)
        }
        Command::Emulate {
            program,
            asm,
            inputs,
        } => {
            let text = format!(in alloc; "emulate {} {}", program.as_str(), asm.as_str())?;
            with_words(text, inputs)
        }
        Command::Check { program, asm } => format!(in alloc;
            "check {} {}",
            program.as_str(),
            asm.as_str()
        ),
        Command::Show { asm } => format!(in alloc; "show {}", asm.as_str()),
        Command::Replay {
            program,
            journal,
            asm,
        } => {
            let names = three(alloc, program, journal, asm)?;
            format!(in alloc; "replay {names}")
        }
    }
}

fn three(alloc: Global, first: &Text, second: &Text, third: &Text) -> Result<String, AllocError> {
    format!(in alloc; "{} {} {}", first.as_str(), second.as_str(), third.as_str())
}

// A row with all seeds of `SIXTY-FOUR`, each of which has what `between` is before the next one.
fn with_seeds(alloc: Global, text: &str, between: &str) -> Result<String, AllocError> {
    let mut seeds = String::new(alloc);
    for k in 0..64 {
        if k > 0 {
            seeds.push_str(between)?;
        }
        seeds.push_str("7")?;
    }
    text.replace(alloc, "SIXTY-FOUR", seeds.as_str())
}

fn with_words(text: String, words: &Words) -> Result<String, AllocError> {
    let mut text = text;
    for word in words.items() {
        text.push_str(format!(in *text.allocator(); " {word}")?.as_str())?;
    }
    Ok(text)
}

fn words_of(alloc: Global, line: &str) -> Result<Vec<String>, AllocError> {
    let mut words = Vec::new(alloc);
    for word in line.split(' ') {
        words.push(String::from_str(alloc, word)?)?;
    }
    Ok(words)
}

fn is_as_written(alloc: Global, row: &str) -> Result<bool, AllocError> {
    let Some((line, expected)) = row.split_once(" => ") else {
        return Ok(false);
    };
    let line = with_seeds(alloc, line, ",")?;
    let expected = with_seeds(alloc, expected, " ")?;
    let words = words_of(alloc, line.as_str())?;
    match command_of(alloc, words.as_slice())? {
        Some(command) => Ok(text_of(alloc, &command)?.as_str() == expected.as_str()),
        None => Ok(expected.as_str() == "none"),
    }
}

#[test]
fn each_line_is_its_command(rt: HostRuntime) -> Result<(), Fail> {
    for row in ROWS.lines() {
        assert!(rt; is_as_written(rt.alloc(), row)?, "{row}");
    }
    Ok(())
}

#[test]
fn no_word_is_no_command(rt: HostRuntime) -> Result<(), Fail> {
    assert!(rt; command_of(rt.alloc(), &[])?.is_none());
    Ok(())
}
