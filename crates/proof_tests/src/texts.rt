//! Worked examples: texts that are read and printed again, and texts that are none.
use crate::same::{assert_bytes, assert_same};
use grid_base::NoMemory;
use line_text::{ReadFault, TextWhy};
use proof_text::{print_proof, read_proof};
use std::alloc::Global;
use std::process::Abort;
use std::test::Fail;

// A tetrahedron that moves has no pair.
const NO_PAIR: &[u8] = b"topo proof 1\nmotion 8 along\nend\n";

// A tetrahedron with a face more.
const SPLIT: &[u8] = b"topo proof 1\nmotion 4 along\npair 1 3 6\ndir 16 -16 24\npair 1 4 7\n\
dir -16 -4 16\npair 1 5 3\ndir 16 24 24\npair 2 3 5\ndir 16 24 4\npair 2 4 8\ndir -16 16 -24\n\
pair 2 5 4\ndir -16 16 16\nend\n";

// Each claim, the greatest numbers, and trees with halves.
const GREATEST: &[u8] = b"topo proof 1\nmotion 1 after\npair 1 2 3\nhalf\nhalf\ndir 0 0 1\n\
dir 0 1 0\ndir 1 0 0\npair 1 2 4\nhalf\ndir 0 0 1\nhalf\ndir 0 1 0\ndir -1 0 0\n\
motion 2 before\nmotion 4294967295 along\npair 2147483647 2147483648 2147483648\n\
dir 2417851639229258349412352 -2417851639229258349412352 0\nend\n";

const NONE: &[u8] = b"topo proof 1\nend\n";

// A tree of the greatest depth, whose first leaf is the deepest.
const DEEP: &[u8] =
    b"topo proof 1\nmotion 1 along\npair 1 2 3\nhalf\nhalf\nhalf\nhalf\nhalf\nhalf\n\
half\nhalf\nhalf\nhalf\ndir 1 0 0\ndir 2 0 0\ndir 3 0 0\ndir 4 0 0\ndir 5 0 0\ndir 6 0 0\n\
dir 7 0 0\ndir 8 0 0\ndir 9 0 0\ndir 10 0 0\ndir 11 0 0\nend\n";

// The text that is printed of what a text is read as.
fn again(rt: &impl Abort, alloc: Global, text: &[u8]) -> Result<Vec<u8>, NoMemory> {
    assert!(rt; text.len() < 1000);
    match read_proof(alloc, text) {
        Ok(proofs) => print_proof(alloc, &proofs),
        Err(ReadFault::NoMemory) => Err(NoMemory),
        Err(ReadFault::Text(_)) => {
            assert!(rt; false);
            Ok(Vec::new(alloc))
        }
    }
}

const TEXTS: [&[u8]; 5] = [NO_PAIR, SPLIT, GREATEST, NONE, DEEP];

#[test]
fn texts_are_read_and_printed_again(rt: HostRuntime) -> Result<(), Fail> {
    for text in &TEXTS {
        let printed = again(&rt, rt.alloc(), text)?;
        assert_bytes(&rt, printed.as_slice(), text);
    }
    Ok(())
}

// The line of the text's first fault and the reason; line 0 where there is none.
fn fault_of(rt: &impl Abort, alloc: Global, text: &[u8]) -> Result<(u32, TextWhy), NoMemory> {
    assert!(rt; text.len() < 1000);
    match read_proof(alloc, text) {
        Err(ReadFault::Text(fault)) => Ok((fault.line, fault.why)),
        Err(ReadFault::NoMemory) => Err(NoMemory),
        Ok(_) => Ok((0, TextWhy::Number)),
    }
}

// A tree with one half more than in the greatest depth.
const TOO_DEEP: &[u8] = b"topo proof 1\nmotion 1 along\npair 1 2 3\nhalf\nhalf\nhalf\nhalf\n\
half\nhalf\nhalf\nhalf\nhalf\nhalf\nhalf\n";

// A text, the line of its first fault, and the reason.
const FAULTS: [(&[u8], u32, TextWhy); 37] = [
    (b"", 1, TextWhy::Order),
    (b"\n", 1, TextWhy::Unknown),
    (b"topo", 1, TextWhy::Short),
    (b"topo log\n", 1, TextWhy::Short),
    (b"topo log 1\n", 1, TextWhy::Number),
    (b"topo proof 2\n", 1, TextWhy::Number),
    (b"topo proof 01\n", 1, TextWhy::Number),
    (b"topo  proof 1\n", 1, TextWhy::Long),
    (b"topo proof 1\r\nend\n", 1, TextWhy::Number),
    (b"end\n", 1, TextWhy::Order),
    (b"topo proof 1", 1, TextWhy::Short),
    (b"topo proof 1\n", 2, TextWhy::Order),
    (b"topo proof 1\nend", 2, TextWhy::Short),
    (b"topo proof 1\nend \n", 2, TextWhy::Long),
    (b"topo proof 1\nend\n\n", 3, TextWhy::Unknown),
    (b"topo proof 1\nend\nend\n", 3, TextWhy::Order),
    (b"topo proof 1\nend\nmotion 0 along\n", 3, TextWhy::Number),
    (b"topo proof 1\ntopo proof 1\n", 2, TextWhy::Order),
    (b"topo proof 1\npair 1 2 3\n", 2, TextWhy::Order),
    (b"topo proof 1\nmotion 1 always\n", 2, TextWhy::Number),
    (
        b"topo proof 1\nmotion 4294967296 along\n",
        2,
        TextWhy::Number,
    ),
    (
        b"topo proof 1\nmotion 1 along\nmotion 1 after\n",
        3,
        TextWhy::Order,
    ),
    (
        b"topo proof 1\nmotion 1 along\npair 2 1 3\n",
        3,
        TextWhy::Number,
    ),
    (
        b"topo proof 1\nmotion 1 along\npair 1 2 2147483649\n",
        3,
        TextWhy::Number,
    ),
    (
        b"topo proof 1\nmotion 1 along\npair 1 2 3 4\n",
        3,
        TextWhy::Long,
    ),
    (b"topo proof 1\nmotion 1 along\nhalf\n", 3, TextWhy::Order),
    (
        b"topo proof 1\nmotion 1 along\npair 1 2 3\nend\n",
        4,
        TextWhy::Order,
    ),
    (
        b"topo proof 1\nmotion 1 along\npair 1 2 3\nhalf\ndir 1 0 0\npair 1 2 4\n",
        6,
        TextWhy::Order,
    ),
    (
        b"topo proof 1\nmotion 1 along\npair 1 2 3\ndir 1 0 0\ndir 1 0 0\n",
        5,
        TextWhy::Order,
    ),
    (
        b"topo proof 1\nmotion 1 along\npair 1 2 3\ndir 1 0 0\npair 1 2 3\n",
        5,
        TextWhy::Order,
    ),
    (
        b"topo proof 1\nmotion 1 along\npair 1 3 3\ndir 1 0 0\npair 1 2 4\n",
        5,
        TextWhy::Order,
    ),
    (b"dir 1 -0 0\n", 1, TextWhy::Number),
    (b"dir 10000000000000000000000000 0 0\n", 1, TextWhy::Number),
    (b"dir 9999999999999999999999999 0 x\n", 1, TextWhy::Number),
    (b"dir 2417851639229258349412353 0 0\n", 1, TextWhy::Range),
    (b"dir 1 0\n", 1, TextWhy::Short),
    (TOO_DEEP, 14, TextWhy::Order),
];

#[test]
fn reasons_come_in_order(rt: HostRuntime) -> Result<(), Fail> {
    for (text, line, why) in &FAULTS {
        let found = fault_of(&rt, rt.alloc(), text)?;
        assert_same(&rt, &found, &(*line, *why));
    }
    Ok(())
}
