use crate::same::{assert_bytes, assert_same};
use line_text::{ReadFault, TextFault, TextWhy};
use std::alloc::Global;
use std::process::Abort;
use std::test::Fail;
use step_text::read_steps;

const FORMS: &[u8] =
    b"set depth 0\nset passes 100\nset zones 0\n\n# slower\r\nset halvings 27\n\tshift all -40 0 7 # all\n\
shift 2147483648 -40 -0 07\nstep\nsplit 0\nsplit 1073741824\nflip # edges\ncollapse 7\nzip 0\n\
pinch\nsave\nsolid 12\ngroup\n group # inner\nclose\nclose\nfit # all";

// Its lines, and the words in which what they ask for is told.
const TOLD: &[u8] = b"1 SetDepth(0)\n2 SetPasses(100)\n3 SetZones(false)\n6 SetHalvings(27)\n\
7 ShiftAll { by: Shift { x: -40, y: 0, z: 7 } }\n\
8 ShiftOne { v: 2147483648, by: Shift { x: -40, y: 0, z: 7 } }\n9 Step\n\
10 Pass(Split { over: 0 })\n11 Pass(Split { over: 1073741824 })\n12 Pass(Flip)\n\
13 Pass(Collapse { under: 7 })\n14 Pass(Zip { within: 0 })\n15 Pass(Pinch)\n16 Save\n\
17 Solid { v: 12 }\n18 Group\n19 Group\n20 Close\n21 Close\n22 Fit\n";

// What a text asks for, line by line.
fn told(rt: &impl Abort, alloc: Global, text: &[u8]) -> Result<Vec<u8>, ReadFault> {
    assert!(rt; text.len() < 1_000);
    let found = read_steps(alloc, text)?;
    let mut all = Vec::new(alloc);
    for placed in found.as_slice() {
        let line = format!(in alloc; "{} {:?}\n", placed.line, placed.what)?;
        all.extend_from_slice(line.as_bytes())?;
    }
    Ok(all)
}

#[test]
fn each_form_is_read(rt: HostRuntime) -> Result<(), Fail> {
    let found = told(&rt, rt.alloc(), FORMS)?;
    assert_bytes(&rt, found.as_slice(), TOLD);
    Ok(())
}

// Texts with the line and the reason of their fault.
const FAULTS: [(&[u8], u32, TextWhy); 57] = [
    (b"set", 1, TextWhy::Short),
    (b"set speed", 1, TextWhy::Unknown),
    (b"set speed 1", 1, TextWhy::Unknown),
    (b"set depth", 1, TextWhy::Short),
    (b"set depth 1 2", 1, TextWhy::Long),
    (b"set depth 11", 1, TextWhy::Range),
    (b"set depth 13", 1, TextWhy::Range),
    (b"set halvings 28", 1, TextWhy::Range),
    (b"set passes 101", 1, TextWhy::Range),
    (b"set zones 2", 1, TextWhy::Range),
    (b"shift all 1 2", 1, TextWhy::Short),
    (b"shift all 1 2 3 4", 1, TextWhy::Long),
    (b"shift every 1 2 3", 1, TextWhy::Number),
    (b"shift 0 1 1 1", 1, TextWhy::Range),
    (b"shift 0 x 1 1", 1, TextWhy::Range),
    (b"shift 1 x 1 999999999", 1, TextWhy::Number),
    (b"shift 1 0 0 536870913", 1, TextWhy::Range),
    (b"solid", 1, TextWhy::Short),
    (b"solid x y", 1, TextWhy::Long),
    (b"solid all", 1, TextWhy::Number),
    (b"solid 0", 1, TextWhy::Range),
    (b"solid 2147483649", 1, TextWhy::Range),
    (b"save now", 1, TextWhy::Long),
    (b"jump", 1, TextWhy::Unknown),
    (b"split", 1, TextWhy::Short),
    (b"split 50 50", 1, TextWhy::Long),
    (b"split x", 1, TextWhy::Number),
    (b"split 12345678901", 1, TextWhy::Number),
    (b"split -1", 1, TextWhy::Range),
    (b"split 1073741825", 1, TextWhy::Range),
    (b"flip 5", 1, TextWhy::Long),
    (b"flips", 1, TextWhy::Unknown),
    (b"fit 5", 1, TextWhy::Long),
    (b"collapse", 1, TextWhy::Short),
    (b"collapse 1073741825", 1, TextWhy::Range),
    (b"zip 1 2", 1, TextWhy::Long),
    (b"zip near", 1, TextWhy::Number),
    (b"pinch 5", 1, TextWhy::Long),
    (b"drive", 1, TextWhy::Short),
    (b"drive # swirl", 1, TextWhy::Short),
    (b"drive swirl swirl", 1, TextWhy::Long),
    (
        b"drive abcdefghijklmnopqrstuvwxyz0123456",
        1,
        TextWhy::Range,
    ),
    (b"drive \xff", 1, TextWhy::Range),
    (b"drive swirl\xc3", 1, TextWhy::Range),
    (b"drives swirl", 1, TextWhy::Unknown),
    (b"group", 1, TextWhy::Nesting),
    (b"close", 1, TextWhy::Nesting),
    (b"close now", 1, TextWhy::Long),
    (b"group now", 1, TextWhy::Long),
    (b"step\ngroup\ngroup\nclose", 2, TextWhy::Nesting),
    (b"group\nclose\ngroup\ngroup\nstep", 3, TextWhy::Nesting),
    (b"group\nclose\nclose\ngroup", 3, TextWhy::Nesting),
    (b"group\nclose now", 2, TextWhy::Long),
    (b"group\ngroup\njump", 3, TextWhy::Unknown),
    (
        b"group\ngroup\ngroup\ngroup\ngroup\ngroup\ngroup\ngroup\ngroup",
        9,
        TextWhy::Nesting,
    ),
    (
        b"group\ngroup\ngroup\ngroup\ngroup\ngroup\ngroup\ngroup\nclose\ngroup\ngroup",
        11,
        TextWhy::Nesting,
    ),
    (
        b"group\ngroup\ngroup\ngroup\ngroup\ngroup\ngroup\ngroup\nclose",
        1,
        TextWhy::Nesting,
    ),
];

// The fault of a text.
fn fault_of(rt: &impl Abort, alloc: Global, text: &[u8]) -> Option<ReadFault> {
    assert!(rt; text.len() < 1_000);
    read_steps(alloc, text).err()
}

// Groups nest to eight, and a name has 32 bytes at most, of which some may stand for one character.
const GOOD: [&[u8]; 2] = [
    b"group\ngroup\ngroup\ngroup\ngroup\ngroup\ngroup\ngroup\nclose\ngroup\nclose\nclose\nclose\nclose\n\
close\nclose\nclose\nclose",
    b"drive swirl # round\ndrive \xc3\xa4bcdefghijklmnopqrstuvwxyz01234",
];

#[test]
fn each_reason_is_told(rt: HostRuntime) {
    for text in &GOOD {
        assert_same(&rt, &fault_of(&rt, rt.alloc(), text), &None);
    }
    for (text, line, why) in &FAULTS {
        let wanted = ReadFault::Text(TextFault {
            line: *line,
            why: *why,
        });
        assert_same(&rt, &fault_of(&rt, rt.alloc(), text), &Some(wanted));
    }
}
