//! The grammar, line by line, and the first faulty line of each text that is not of it.
use crate::example::{changed, is_read_as};
use std::alloc::{AllocError, Global};
use std::test::Fail;

// A row a line, in four parts with bars between them: how many lines of the example come first, what stands behind
// them with a slash for each line feed, the line of the example that goes on from there (13: none), and the answer.
const ROWS: &str = "\
12||13|journal
0||13|line 1
0|/|13|line 1
0|cryptopt-journal 2|13|line 1
0||2|line 1
0|cryptopt-journal 0/|2|version 0
0|cryptopt-journal 3/|2|version 3
0|cryptopt-journal 3/|13|version 3
0|cryptopt-journal 3/x|13|version 3
0|cryptopt-journal 9|13|line 1
0|cryptopt-journal 18446744073709551615/|2|version 18446744073709551615
0|cryptopt-journal 18446744073709551616/|2|line 1
0|cryptopt-journal 01/|2|line 1
0|cryptopt-journal 02/|2|line 1
0|cryptopt-journal 00/|2|line 1
0|cryptopt-journal +2/|2|line 1
0|cryptopt-journal two/|2|line 1
0|cryptopt-journal /|2|line 1
0|cryptopt-journal/|2|line 1
0|cryptopt-journal  2/|2|line 1
0|cryptopt-journal 2 /|2|line 1
0| cryptopt-journal 2/|2|line 1
0|cryptopt-journal 2\r/|2|line 1
0|cryptopt-journal 3\r/|2|line 1
0|Cryptopt-journal 2/|2|line 1
0|cryptopt-journals 2/|2|line 1
0|/cryptopt-journal 2/|2|line 1
0|cryptopt-journal 2//|2|line 2
1||13|line 2
1||3|line 2
1|program /|3|line 2
1|program d64c40d788e21cbf606ad6d72a8d07d06e02556cb1dc3f3739d3758bd5cb6d55|13|line 2
1|program D64c40d788e21cbf606ad6d72a8d07d06e02556cb1dc3f3739d3758bd5cb6d55/|3|line 2
1|program g64c40d788e21cbf606ad6d72a8d07d06e02556cb1dc3f3739d3758bd5cb6d55/|3|line 2
1|program d64c40d788e21cbf606ad6d72a8d07d06e02556cb1dc3f3739d3758bd5cb6d5/|3|line 2
1|program d64c40d788e21cbf606ad6d72a8d07d06e02556cb1dc3f3739d3758bd5cb6d555/|3|line 2
1|program d64c40d788e21cbf606ad6d72a8d07d06e02556cb1dc3f3739d3758bd5cb6d55\r/|3|line 2
1|program  d64c40d788e21cbf606ad6d72a8d07d06e02556cb1dc3f3739d3758bd5cb6d55/|3|line 2
1|programs d64c40d788e21cbf606ad6d72a8d07d06e02556cb1dc3f3739d3758bd5cb6d55/|3|line 2
1|program 0000000000000000000000000000000000000000000000000000000000000000/|3|journal
1|program ffffffffffffffffffffffffffffffffffffffffffffffffffffffffffffffff/|3|journal
2||13|line 3
2||4|line 3
2|seeds /|4|line 3
2|seeds/|4|line 3
2|seeds 0|13|line 3
2|seeds 0/|4|journal
2|seeds 7,7/|4|journal
2|seeds 18446744073709551616/|4|line 3
2|seeds 0,18446744073709551616/|4|line 3
2|seeds 00/|4|line 3
2|seeds 01/|4|line 3
2|seeds 0,01/|4|line 3
2|seeds 0,/|4|line 3
2|seeds ,0/|4|line 3
2|seeds 0,,1/|4|line 3
2|seeds ,/|4|line 3
2|seeds 0, 1/|4|line 3
2|seeds 0 1/|4|line 3
2|seeds  0/|4|line 3
2|seeds 0 /|4|line 3
2|seeds 0\r/|4|line 3
2|seeds -1/|4|line 3
2|seeds 0x1/|4|line 3
2|seed 0/|4|line 3
3||13|line 4
3||5|line 4
3|turns 3|13|line 4
3|turns /|5|line 4
3|turns 0/|5|journal
3|turns 65536/|5|journal
3|turns 65537/|5|line 4
3|turns 18446744073709551616/|5|line 4
3|turns 03/|5|line 4
3|turns  3/|5|line 4
3|turns 3 /|5|line 4
3|turns 3\r/|5|line 4
3|turn 3/|5|line 4
3|turns 3,3/|5|line 4
4||13|line 5
4||6|line 5
4|opening 28|13|line 5
4|opening /|6|line 5
4|opening 0/|6|journal
4|opening 1048576/|6|journal
4|opening 1048577/|6|line 5
4|opening 028/|6|line 5
4|opening  28/|6|line 5
4|opening 28 /|6|line 5
4|opening 28\r/|6|line 5
4|Opening 28/|6|line 5
4|turns 3/|5|line 5
5||13|line 6
5||12|journal
5||7|journal
5|entry 0 0 0 move 1 0 28 plain|13|line 6
5|entry 0 0 0 move 1 0 28 plain/|13|line 7
5|/|6|line 6
5| /|6|line 6
5|entry 63 65535 1048575 move 2047 2047 1048576 plain/|6|journal
5|entry 64 0 0 swap 0 0 plain/|6|line 6
5|entry 0 65536 0 swap 0 0 plain/|6|line 6
5|entry 0 0 1048576 swap 0 0 plain/|6|line 6
5|entry 0 0 0 swap 0 1048577 plain/|6|line 6
5|entry 0 0 0 swap 2048 0 plain/|6|line 6
5|entry 0 0 0 load 2048 0 plain/|6|line 6
5|entry 0 0 0 move 2048 0 0 plain/|6|line 6
5|entry 0 0 0 move 0 2048 0 plain/|6|line 6
5|entry 0 0 0 template 2047 0 0 plain/|6|journal
5|entry 0 0 0 template 2048 0 0 plain/|6|line 6
5|entry 0 0 0 template 0 5 0 plain/|6|line 6
5|entry 0 0 0 chain 2047 2 0 plain/|6|journal
5|entry 0 0 0 chain 2048 1 0 plain/|6|line 6
5|entry 0 0 0 chain 0 0 0 plain/|6|line 6
5|entry 0 0 0 chain 0 3 0 plain/|6|line 6
5|entry 0 0 0 chain 0 0 plain/|6|line 6
5|entry 0 0 0 swap 0 0 0 plain/|6|line 6
5|entry 0 0 0 load 0 0 0 fast/|6|line 6
5|entry 0 0 0 move 0 0 plain/|6|line 6
5|entry 0 0 0 template 0 0 fast/|6|line 6
5|entry 0 0 swap 0 0 plain/|6|line 6
5|entry 0 0 0 swap 0 plain/|6|line 6
5|entry 0 0 0 turn 0 0 plain/|6|line 6
5|entry 0 0 0 Swap 0 0 plain/|6|line 6
5|entry 0 0 0 swap0 0 plain/|6|line 6
5|entry 0 0 0 0 0 plain/|6|line 6
5|entry 0 0 0 swap 0 0 slow/|6|line 6
5|entry 0 0 0 swap 0 0 Plain/|6|line 6
5|entry 0 0 0 swap 0 0 /|6|line 6
5|entry 0 0 0 swap 0 0/|6|line 6
5|entry 0 0 0 swap 0 0 plain fast/|6|line 6
5|entry 0 0 0 swap 0 0 plain /|6|line 6
5|entry 0 0 0 swap 0 0 plain\r/|6|line 6
5|entry 0 0 0 swap 0 0 fast\r/|6|line 6
5|entry 00 0 0 swap 0 0 plain/|6|line 6
5|entry 0 01 0 swap 0 0 plain/|6|line 6
5|entry 0 0 00 swap 0 0 plain/|6|line 6
5|entry 0 0 0 swap 07 0 plain/|6|line 6
5|entry 0 0 0 swap 0 00 plain/|6|line 6
5|entry 0 0 0 move 0 01 0 plain/|6|line 6
5|entry  0 0 0 swap 0 0 plain/|6|line 6
5|entry 0  0 0 swap 0 0 plain/|6|line 6
5|entry 0 0 0  swap 0 0 plain/|6|line 6
5|entry 0 0 0 swap  0 0 plain/|6|line 6
5|entry 0 0 0 swap 0  0 plain/|6|line 6
5|entry 0 0 0 swap 0 0  plain/|6|line 6
5| entry 0 0 0 swap 0 0 plain/|6|line 6
5|Entry 0 0 0 swap 0 0 plain/|6|line 6
5|entries 0 0 0 swap 0 0 plain/|6|line 6
7|entry 0 0 0 swap 0 0 none/entry/|13|line 8
11||13|line 12
11|end|13|line 12
11|end\r/|13|line 12
11|end /|13|line 12
11| end/|13|line 12
11|End/|13|line 12
11|en/|13|line 12
11|entry|13|line 12
11|x|13|line 12
11|x/|13|line 12
12|x|13|line 13
12|x/|13|line 13
12|/|13|line 13
12|end/|13|line 13
12||1|line 13
12| |13|line 13
12|\r|13|line 13
12|entry 0 0 0 swap 0 0 plain/|13|line 13
0|cryptopt-journal 1/|2|line 10
9|entry 0 0 0 swap 0 0 plain/entry 0 0 0 swap 0 0 plain/|12|journal
2|seeds 1,2,3,4,5,6,7,8,9,10,11,12,13,14,15,16/turns 65536/|5|journal
2|seeds 1,2,3,4,5,6,7,8,9,10,11,12,13,14,15,16,17/turns 61680/|5|journal
2|seeds 1,2,3,4,5,6,7,8,9,10,11,12,13,14,15,16,17/turns 61681/|5|line 4
2|seeds 1,2,3,4,5,6,7,8,9,10,11,12,13,14,15,16,17/turns 65536/opening/|5|line 4";

// Whether the row's text has the row's answer; none where the row has not four parts.
fn is_as_written(alloc: Global, row: &str) -> Result<Option<bool>, AllocError> {
    let Some((lines, rest)) = row.split_once('|') else {
        return Ok(None);
    };
    let Some((other, rest)) = rest.split_once('|') else {
        return Ok(None);
    };
    let Some((from, expected)) = rest.split_once('|') else {
        return Ok(None);
    };
    let (Ok(lines), Ok(from)) = (lines.parse::<usize>(), from.parse::<usize>()) else {
        return Ok(None);
    };
    let text = changed(alloc, lines, other, from)?;
    Ok(Some(is_read_as(alloc, text.as_str(), expected)?))
}

#[test]
fn each_text_is_read_or_refused_at_its_first_fault(rt: HostRuntime) -> Result<(), Fail> {
    for row in ROWS.lines() {
        assert_eq!(rt; is_as_written(rt.alloc(), row)?, Some(true), "{row}");
    }
    Ok(())
}
