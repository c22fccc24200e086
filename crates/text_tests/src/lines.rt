//! Worked examples: decimal words with their values, and values that are written.
use crate::same::{assert_bytes, assert_same};
use grid_base::DECIMALS_MAX;
use line_text::{NumberWhy, fixed, grid_number};
use std::process::Abort;
use std::test::Fail;

// Decimal words, and their values at 0, 3 and 6 decimals, rounded away from zero; none where they are out of range.
const DECIMALS: [(&str, [Option<i32>; 3]); 22] = [
    ("0.5", [Some(1), Some(500), Some(500_000)]),
    ("-0.5", [Some(-1), Some(-500), Some(-500_000)]),
    (".5", [Some(1), Some(500), Some(500_000)]),
    ("5.", [Some(5), Some(5_000), Some(5_000_000)]),
    ("+.5e1", [Some(5), Some(5_000), Some(5_000_000)]),
    ("1e1", [Some(10), Some(10_000), Some(10_000_000)]),
    ("12E-1", [Some(1), Some(1_200), Some(1_200_000)]),
    ("15e-1", [Some(2), Some(1_500), Some(1_500_000)]),
    ("-0", [Some(0), Some(0), Some(0)]),
    ("2.4999", [Some(2), Some(2_500), Some(2_499_900)]),
    ("0.0005", [Some(0), Some(1), Some(500)]),
    ("-0.0005", [Some(0), Some(-1), Some(-500)]),
    ("1.000000", [Some(1), Some(1_000), Some(1_000_000)]),
    ("0.4999999999999999999", [Some(0), Some(500), Some(500_000)]),
    (
        "268.4354564999",
        [Some(268), Some(268_435), Some(268_435_456)],
    ),
    ("-268.4354565", [Some(-268), Some(-268_435), None]),
    ("268435456.4999", [Some(268_435_456), None, None]),
    ("268435456.5", [None, None, None]),
    ("1e999", [None, None, None]),
    ("1e-999", [Some(0), Some(0), Some(0)]),
    ("0e999", [Some(0), Some(0), Some(0)]),
    (
        "+1.00000000000000000000000000000000000000000000000000000000000e0",
        [Some(1), Some(1_000), Some(1_000_000)],
    ),
];

// Words that are none, at any decimals.
const NO_DECIMALS: [&str; 14] = [
    "",
    ".",
    "+",
    "e1",
    "1e",
    "1e+",
    "1e1000",
    "+-2",
    "1.2.3",
    "1 ",
    "0x1",
    "1e1.",
    "--1",
    "+1.000000000000000000000000000000000000000000000000000000000000e0",
];

// The values of a word at 0, 3 and 6 decimals.
fn values(word: &str) -> [Result<i32, NumberWhy>; 3] {
    let word = word.as_bytes();
    [
        grid_number(word, 0),
        grid_number(word, 3),
        grid_number(word, 6),
    ]
}

#[test]
fn decimal_words_are_rounded_away_from_zero(rt: HostRuntime) {
    for (word, wanted) in &DECIMALS {
        let wanted = wanted.map(|value| value.ok_or(NumberWhy::Range));
        assert_same(&rt, &(*word, values(word)), &(*word, wanted));
    }
    for word in &NO_DECIMALS {
        assert_same(
            &rt,
            &(*word, values(word)),
            &(*word, [Err(NumberWhy::Form); 3]),
        );
    }
}

// Values with their decimals, which are written one after another.
const FIXED: [(i32, u8); 3] = [(-5, 3), (-5, 0), (67_108_864, 6)];

#[test]
fn values_are_written_with_their_decimals(rt: HostRuntime) -> Result<(), Fail> {
    let mut text = Vec::new(rt.alloc());
    for (value, decimals) in &FIXED {
        assert!(rt; *decimals <= DECIMALS_MAX);
        fixed(*value, *decimals, &mut text)?;
        text.push(b' ')?;
    }
    assert_bytes(&rt, text.as_slice(), b"-0.005 -5 67.108864 ");
    Ok(())
}
