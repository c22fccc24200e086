use crate::same::{assert_bytes, assert_same};
use outside_io::{Desk, FetchFault, FileDesk, StdSink, Step, StoreFault, put_all};
use std::fs;
use std::process::Abort;
use std::test::Fail;

// What is asked of a desk, with its answer.
#[derive(Clone, Copy)]
enum Act<'a> {
    // A file, of so many bytes at most, and the bytes; none where it is refused.
    Fetch(&'a str, usize, Result<(), FetchFault>, &'a [u8]),
    Store(&'a str, &'a [u8], Result<(), StoreFault>),
}

fn fetch<D: Desk>(
    rt: &impl Abort,
    desk: &mut D,
    into: &mut Vec<u8>,
    name: &str,
    most: usize,
    answer: Result<(), FetchFault>,
) {
    let found = desk.fetch(name, most, into);
    assert_same(rt, &(name, found), &(name, answer));
}

fn perform<D: Desk>(rt: &impl Abort, desk: &mut D, into: &mut Vec<u8>, act: Act) {
    match act {
        Act::Fetch(name, most, answer, text) => {
            fetch(rt, desk, into, name, most, answer);
            assert_bytes(rt, into, text);
        }
        Act::Store(name, bytes, answer) => {
            let found = desk.store(name, bytes);
            assert_same(rt, &(name, found), &(name, answer));
        }
    }
}

const FILE: &str = "outside_io_test.txt";

const REAL: [Act; 8] = [
    Act::Fetch(
        "no_such_folder/no_such_file",
        9,
        Err(FetchFault::Missing),
        b"",
    ),
    // a folder can't be read
    Act::Fetch("/", 9, Err(FetchFault::Failed), b""),
    Act::Store("no_such_folder/file", b"text", Err(StoreFault::Failed)),
    Act::Store(FILE, b"text", Ok(())),
    Act::Fetch(FILE, 4, Ok(()), b"text"),
    Act::Fetch(FILE, 3, Err(FetchFault::TooLong { seen: 4 }), b""),
    Act::Store(FILE, b"anew", Ok(())),
    Act::Fetch(FILE, 4, Ok(()), b"anew"),
];

#[test]
fn standard_output_and_real_files_are_reached(rt: HostRuntime) -> Result<(), Fail> {
    let mut out = StdSink::new(&rt);
    assert_same(&rt, &put_all(&mut out, b"to standard output\n"), &Ok(()));
    let mut desk = FileDesk::new(rt.alloc(), &rt);
    let mut into = Vec::new(rt.alloc());
    for act in &REAL {
        perform(&rt, &mut desk, &mut into, *act);
    }
    // the store into no folder was the last that failed
    assert_same(
        &rt,
        &desk.trouble().map(|trouble| trouble.step),
        &Some(Step::Create),
    );
    fs::remove_file(&rt, FILE)?;
    Ok(())
}
