//! Worked examples: logs that are read and printed again, and texts that are no log.
use crate::same::{assert_bytes, assert_same};
use grid_base::NoMemory;
use line_text::{Parts, ReadFault, TextFault, TextWhy};
use log_read::read_log;
use log_text::{LogLine, print_line};
use mesh_base::Scale;
use std::alloc::Global;
use std::process::Abort;
use std::test::Fail;

// Appends some lines.
fn put(lines: &[LogLine], into: &mut Vec<u8>) -> Result<(), NoMemory> {
    for line in lines {
        print_line(line, into)?;
    }
    Ok(())
}

// A line of each kind, each edit and each reason.
const RUN: &[u8] = b"topo log 1\nmesh 0 4 4\nstep 1\nhit 5 6 1\nmove 1 1 2 3\nmove 5 -4 0 0\n\
moved whole\nmoved impulse 1\nmoved zones 2\nmoved halved 1\nmoved zero\n\
pass split 50\npass collapse 10\npass flip\npass zip 4\npass pinch\n\
split 1 2 5 50 -1 0\ncollapse 1 2 0 0 4\nflip 1 2\nzip 1 2 9 10 3\n\
no split 1 2 noedge\nno split 1 2 crowded\nno split 1 2 edge\nno split 1 2 shared\n\
no split 1 2 full\nno split 1 2 doubled\nno split 1 2 onefan\nno split 1 2 hit 3 4 9\n\
no collapse 1 2 onefan\nno flip 1 2 edge\nno zip 1 2 9 10 hit 1 10 29\nno pinch 1 onefan\n\
mesh 1 4 4\nend\n";

// Each refusal.
const REFUSED: &[u8] = b"refused long mesh 18446744073709551615\nrefused long steps 67108865\n\
refused missing mesh\nrefused missing steps\nrefused mesh 1 number\nrefused mesh 2 corner\n\
refused mesh 3 range\nrefused mesh 4 short\nrefused steps 5 long\n\
refused steps 4294967295 unknown\nrefused mesh 7 continuation\nrefused shape vertices 65537\n\
refused shape faces 131073\nrefused shape corner 1 3\nrefused shape repeated 2\n\
refused shape doubled 1 2\nrefused shape unbalanced 1 3\nrefused meets 5 6 3\n\
refused use 1 vertex 9\nrefused use 2 range 2\nrefused use 3 box 4\nrefused use 3 field\n";

// Blocks, and vertices that are parted.
const LISTS: &[u8] = b"block 5 6 11\nblock 2 3 7\npinch 1 1 0 0 8 -1 0 0\n\
pinch 3 1 2 3 8 -4 5 6 9 7 8 -9\n";

// The log of one step that is taken whole, and of one that is halved.
const WHOLE: &[u8] = b"topo log 1\nmesh 0 4 4\nstep 1\nmove 1 1 2 3\nmove 2 1 2 3\nmove 3 1 2 3\n\
move 4 1 2 3\nmoved whole\nmesh 1 4 4\nend\n";

const HALVED: &[u8] = b"topo log 1\nmesh 0 8 8\nstep 1\nhit 5 6 1\nhit 5 7 1\nhit 5 8 1\n\
move 5 -4 0 0\nmoved halved 1\nend\n";

// Lines of a step and of each edit, with the greatest values.
const GREATEST: &[u8] = b"moved impulse 100\nmoved zones 65535\nmoved halved 27\nmoved zero\n\
move 2147483648 -536870912 536870912 0\nmesh 4294967295 65536 131072\n";

// Lines of meshes and of rounds that are too great for the standard limits, and with the greatest values.
const LARGE: &[u8] =
    b"mesh 0 65537 131073\nmoved zones 65536\nmesh 1 4194304 8388608\nmoved zones 4194303\n";

// Vertex 1 is solid, a group is taken back, and one is kept around a group that is taken back.
const SOLID: &[u8] = b"topo log 2\nmesh 0 4 4\nsolid 1\nstep 1\nmove 2 1 0 0\nmove 3 1 0 0\n\
move 4 1 0 0\nmoved whole\nend\n";

const UNDONE: &[u8] = b"topo log 2\nmesh 0 4 4\ngroup\nstep 1\nmove 1 1 0 0\nmove 2 1 0 0\n\
move 3 1 0 0\nmove 4 1 0 0\nmoved whole\npass flip\nno flip 1 2 edge\nclose undone\nmesh 1 4 4\nend\n";

const KEPT: &[u8] = b"topo log 2\nmesh 0 8 8\ngroup\ngroup\nstep 1\nhit 5 6 1\nhit 5 7 1\n\
hit 5 8 1\nmove 5 -4 0 0\nmoved halved 1\nclose undone\nstep 2\nmove 1 1 0 0\nmove 2 1 0 0\n\
move 3 1 0 0\nmove 4 1 0 0\nmove 5 1 0 0\nmove 6 1 0 0\nmove 7 1 0 0\nmove 8 1 0 0\nmoved whole\n\
close kept\nend\n";

// Each line that is of the version that is written alone.
const LATEST: &[u8] = b"topo log 2\nsolid 2147483648\ngroup\nclose kept\nclose undone\n\
no collapse 1 2 solid\nno pinch 3 solid\nrefused steps 9 nesting\nrefused use 2 solid 1\n\
refused long log 67108865\nrefused long proof 0\nrefused missing log\nrefused missing proof\n";

// Ids that vertices and faces take, the greatest and none among them, and lines of the version before.
const TAKEN: &[u8] =
    b"topo log 3\nvertices 21 2 3 5 20\nfaces 4 1 2 3\nvertices 2147483649 1 2147483648\n\
faces 2147483649 2147483648\nvertices 1\nfaces 1\nvertices 2147483649\nfaces 7\ntopo log 3\nsolid 20\ngroup\n\
close undone\nclose kept\nno pinch 3 solid\nrefused steps 9 nesting\nrefused use 2 solid 1\nmoved whole\nend\n";

const EDITED: &[u8] = b"topo log 1\nblock 1 2147483648\npass split 1073741824\n\
split 1 2147483648 5 -268435456 268435456 0\nno split 1 2 hit 3 4 9\npass flip\nflip 1 2\n\
no flip 1 2 edge\npass collapse 0\ncollapse 2147483647 2147483648 0 0 0\nno collapse 1 2 full\n\
pass zip 4\nzip 1 2 1 2 3\nno zip 1 2 9 10 shared\npass pinch\n\
pinch 3 1 0 0 8 -1 0 0 9 0 0 -7\nno pinch 1 hit 1 2 1\nend\n";

const TEXTS: [&[u8]; 13] = [
    RUN, REFUSED, LISTS, WHOLE, HALVED, GREATEST, EDITED, SOLID, UNDONE, KEPT, LATEST, TAKEN, b"",
];

fn read_and_printed(
    rt: &impl Abort,
    alloc: Global,
    scale: Scale,
    text: &[u8],
) -> Result<Vec<u8>, ReadFault> {
    assert!(rt; text.len() < 1000);
    let log = read_log(alloc, scale, text)?;
    let mut again = Vec::new(alloc);
    put(log.as_slice(), &mut again)?;
    Ok(again)
}

#[test]
fn logs_are_read_and_printed_again(rt: HostRuntime) -> Result<(), Fail> {
    for text in &TEXTS {
        let again = read_and_printed(&rt, rt.alloc(), Scale::Standard, text)?;
        assert_bytes(&rt, again.as_slice(), text);
    }
    for text in &[GREATEST, LARGE] {
        let again = read_and_printed(&rt, rt.alloc(), Scale::Large, text)?;
        assert_bytes(&rt, again.as_slice(), text);
    }
    Ok(())
}

// Texts of one line, with `|` between them, by the reason why they are no log of the old version.
const NO_LOG_UNKNOWN: &[u8] =
    b"\n|# end\n|end\r\n| end\n|solid 3\n|topo lag\n|moved away\n|refused long log 9\n\
|refused long proof 9\n|refused missing log\n|refused missing proof\n|refused log 3 number\n\
|refused shape round\n|ended|pass jump 3\n|no jump 1 2 edge\n|solid 3|group\n|close kept\n|close\
|vertices 2 1\n|faces 2 1\n|vertices";

const NO_LOG_SHORT: &[u8] =
    b"end|end now|topo\n|topo log\n|moved\n|hit 2 1\n|refused use x vertex\n\
|refused use 3\n|refused use 3 wrong 4|refused use 3 field|pass\n|pass split\n|pass flip\
|split 1 2 5 0 0\n|no\n|no split 1 2\n|no split 1 2 hit 3 4\n|no pinch 1\n|no flip 1 2 jump 3\
|block\n|block 1\n|block x\n|block 1 2|pinch\n|pinch 1 0 0 0\n|pinch 1 0 0 0 x y z\n\
|pinch 1 0 0 0 2 0 0 0 3\n|pinch 1 0 0 0 2 0 0 0 3 0 0\n|pinch 1 0 0 0 2 0 0 0";

const NO_LOG_LONG: &[u8] =
    b"step  1\n|mesh 0 4 4 x\n|refused mesh 3 wrong 4\n|refused use x vertex 9 9\n\
|refused use x field 4\n|pass flip 3\n|flip 2 1 0\n|zip 1 2 3 4 0 0\n|no split 2 1 edge 3\n\
|no zip 1 2 3 4 hit 1 2 3 4\n|topo log 2 \n|topo log 2 x\n";

const NO_LOG_NUMBER: &[u8] =
    b"refused use 3 wrong 4\n|refused mesh 3 wrong\n|refused shape corner 1 4\n\
|refused long mesh 18446744073709551616\n|refused use 0 field\n|topo log 4\n|topo log 03\n|topo log 02\n|step 01\n\
|step 1\r\n|step +1\n|hit 2 1 1\n|move 1 -0 0 0\n|moved impulse 101\n|pass zip 1073741825\n\
|pass collapse -1\n|split 2 1 5 0 0 0\n|split 1 2 0 0 0 0\n|split 1 2 5 0 268435457 0\n\
|flip 1 2147483649\n|flip 2 2\n|collapse 0 2 0 0 0\n|collapse 1 2 00 0 0\n|zip 1 2 3 4 4\n\
|zip 1 2 4 3 0\n|no flip 1 2 jump\n|no flip 1 2 jump 3 4\n|no flip 2 1 edge\n\
|no pinch 1 hit 2 1 3\n|no zip 1 2 3 4 Edge\n|no split 1 2 solid\n|no pinch 1 solid 1\n\
|refused use 3 solid 1\n\
|refused use 3 solid 1 2 3\n|refused steps 3 nesting\n|refused mesh 3 nesting\n|block 2 1\n|block 1 2 2\n|block 0 1\n\
|block 1 2 \n|block 1 2147483649\n|pinch 1 0 0 0 2 0 0 268435457\n|pinch 1 0 0 -0 2 0 0 0\n";

// Second lines, with `|` between them, by the reason why they are no line of the version that is written.
const NO_LINE_UNKNOWN: &[u8] =
    b"\n|close now\n|close \n|closed kept\n|groups\n|group1\n|solids 3\n|topo lag\n|topo proof 1\n\
|refused long logs 9\n|refused missing proofs\n|refused log 3 number\n|refused proof 3 order\n\
|refused replay 3\n|refused motion 4 nomotion\n|vertices 2 1\n|faces 2 1\n|vertices 1\n|faces\n";

const NO_LINE_SHORT: &[u8] =
    b"solid\n|solid 1|group|group 1|close\n|close|close kept|close undone|no pinch 1 solid\
|refused use 3 solid\n|refused use 3 solid 1|topo log\n|topo log 2|refused long log\n|refused missing proof";

const NO_LINE_LONG: &[u8] =
    b"solid x 2\n|group 1\n|close kept 1\n|close undone x\n|no split 2 1 solid 3\n\
|no pinch 0 solid 1\n|refused use 3 solid x 2\n|refused steps x nesting 4\n|topo log 1 2\n\
|refused missing log 1\n|refused long proof 1 2\n";

const NO_LINE_NUMBER: &[u8] =
    b"solid 0\n|solid 01\n|solid 2147483649\n|solid all\n|no split 2 1 solid\n\
|no pinch 1 Solid\n|no pinch 1 solidly 1\n|refused use 3 solid 0\n|refused use 0 solid 1\n\
|refused use 3 solids 1 2\n|refused steps 3 nested\n|refused steps 0 nesting\n|refused mesh 3 nesting\n\
|refused steps 3 order\n|refused mesh 3 order\n|refused long log 01\n|topo log 1\n|topo log 3\n|topo log 4\n";

// Second lines, with `|` between them, by the reason why they are no line of the version that tells ids.
const NO_IDS_UNKNOWN: &[u8] =
    b"vertex 2 1\n|face 2 1\n|vertices2 1\n|Faces 2 1\n|edges 2 1\n|ids 2 1\n";

const NO_IDS_SHORT: &[u8] =
    b"vertices\n|faces\n|vertices|vertices 1|vertices x|faces 5 1|faces 5 1 2 3 4|topo log 3";

const NO_IDS_NUMBER: &[u8] =
    b"vertices x\n|vertices 0\n|faces 0\n|vertices 0 1\n|faces 2147483650\n|vertices 2147483650 1\n\
|vertices 05 1\n|vertices 3 x\n|vertices 3 0\n|faces 3 0 1\n|vertices 3 1 1\n|faces 3 2 1\n|vertices 3 3\n\
|faces 3 1 3\n|faces 3 1 4\n|vertices 1 1\n|faces 5 01\n|vertices 5 1 \n|faces 5 1  2\n|vertices \n|faces 5 \n\
|vertices 5 1 2\r\n|vertices 2147483649 2147483649\n|topo log 1\n|topo log 2\n|topo log 4\n";

// Texts of one line, with `|` between them, with a number that is too great for a scale by one.
const ABOVE_STANDARD: &[u8] = b"mesh 0 65537 4\n|mesh 0 4 131073\n|moved zones 65536\n";

const ABOVE_LARGE: &[u8] = b"mesh 0 4194305 4\n|mesh 0 4 8388609\n|moved zones 4194304\n";

// The fault of a line behind another.
fn fault_behind(
    rt: &impl Abort,
    alloc: Global,
    scale: Scale,
    first: &[u8],
    line: &[u8],
) -> Result<Option<ReadFault>, NoMemory> {
    let mut text = Vec::new(alloc);
    text.extend_from_slice(first)?;
    text.extend_from_slice(line)?;
    assert!(rt; text.len() < 1000);
    match read_log(alloc, scale, &text) {
        Err(ReadFault::NoMemory) => Err(NoMemory),
        read => Ok(read.err()),
    }
}

// Each of the lines, which are parted by `|`, has this fault behind the first.
fn assert_faults(
    rt: &impl Abort,
    alloc: Global,
    scale: Scale,
    first: &[u8],
    lines: &[u8],
    fault: TextFault,
) -> Result<(), NoMemory> {
    for line in Parts::new(b'|', lines) {
        let found = fault_behind(rt, alloc, scale, first, line)?;
        assert_same(rt, &(line, found), &(line, Some(ReadFault::Text(fault))));
    }
    Ok(())
}

// What stands in front of lines, the number of their line, the reason, and the lines.
type Row<'a> = (Scale, &'a [u8], u32, TextWhy, &'a [u8]);

const FAULTS: [Row; 14] = [
    (Scale::Standard, b"", 1, TextWhy::Unknown, NO_LOG_UNKNOWN),
    (Scale::Standard, b"", 1, TextWhy::Short, NO_LOG_SHORT),
    (Scale::Standard, b"", 1, TextWhy::Long, NO_LOG_LONG),
    (Scale::Standard, b"", 1, TextWhy::Number, NO_LOG_NUMBER),
    (
        Scale::Standard,
        b"topo log 2\n",
        2,
        TextWhy::Unknown,
        NO_LINE_UNKNOWN,
    ),
    (
        Scale::Standard,
        b"topo log 2\n",
        2,
        TextWhy::Short,
        NO_LINE_SHORT,
    ),
    (
        Scale::Standard,
        b"topo log 2\n",
        2,
        TextWhy::Long,
        NO_LINE_LONG,
    ),
    (
        Scale::Standard,
        b"topo log 2\n",
        2,
        TextWhy::Number,
        NO_LINE_NUMBER,
    ),
    (
        Scale::Standard,
        b"topo log 3\n",
        2,
        TextWhy::Unknown,
        NO_IDS_UNKNOWN,
    ),
    (
        Scale::Standard,
        b"topo log 3\n",
        2,
        TextWhy::Short,
        NO_IDS_SHORT,
    ),
    (
        Scale::Standard,
        b"topo log 3\n",
        2,
        TextWhy::Number,
        NO_IDS_NUMBER,
    ),
    (Scale::Standard, b"", 1, TextWhy::Number, ABOVE_STANDARD),
    (Scale::Large, b"", 1, TextWhy::Number, ABOVE_LARGE),
    (
        Scale::Standard,
        b"topo log 1\n",
        2,
        TextWhy::Unknown,
        b"solid 1\n",
    ),
];

#[test]
fn each_reason_is_told(rt: HostRuntime) -> Result<(), Fail> {
    for (scale, first, line, why, lines) in &FAULTS {
        let fault = TextFault {
            line: *line,
            why: *why,
        };
        assert_faults(&rt, rt.alloc(), *scale, first, lines, fault)?;
    }
    Ok(())
}
