//! Command lines of 1 to 14 arguments, with enough memory.
use crate::held::assert_that;
use nor_args::request_of;
use std::alloc::Global;
use std::process::Abort;

const WRITE: [&str; 6] = [
    "-p",
    "dummy:emulate=TINY64,image=chip",
    "-w",
    "new",
    "--journal",
    "j",
];

// Groups of arguments that may be added, 0 to 8 arguments in all.
const MORE: [&[&str]; 4] = [
    &["-n"],
    &["--unlock"],
    &["-c", "TINY64"],
    &["-l", "map", "-i", "part"],
];

const OTHERS: [&[&str]; 6] = [
    &["-L"],
    &["-pdummy:emulate=TINY64", "-rcopy"],
    &["-p", "dummy:emulate=TINY64", "--flash-size"],
    &["-p", "dummy:emulate=TINY64", "-r", "copy"],
    &["-p", "dummy:emulate=TINY64", "-r", "copy", "-cTINY64"],
    &["-p", "dummy:emulate=TINY64,image=chip", "--restore", "j"],
];

fn push_all(rt: &impl Abort, alloc: Global, words: &mut Vec<String>, more: &[&str]) {
    for word in more {
        let word = String::from_str(alloc, word).expect(rt, "memory");
        words.push(word).expect(rt, "memory");
    }
}

fn is_job(rt: &impl Abort, alloc: Global, words: &[&str]) -> bool {
    let mut all = Vec::new(alloc);
    push_all(rt, alloc, &mut all, words);
    request_of(alloc, all.as_slice()).is_ok()
}

// Returns the arguments of a write. Group i of `MORE` is added if bit i of `choice` is set.
fn write_with(rt: &impl Abort, alloc: Global, choice: u32) -> Vec<String> {
    let mut words = Vec::new(alloc);
    push_all(rt, alloc, &mut words, &WRITE);
    let mut left = choice;
    for group in MORE {
        if left % 2 == 1 {
            push_all(rt, alloc, &mut words, group);
        }
        left /= 2;
    }
    words
}

// The contract of `request_of` allows an implementation that returns out of memory for some number of arguments. This
// test and the next one detect such an implementation, for 1 to 14 arguments.
#[test]
fn words_memory(rt: HostRuntime) {
    for words in OTHERS {
        assert_that!(&rt; is_job(&rt, rt.alloc(), words));
    }
}

#[test]
fn writes_of_each_number_of_arguments(rt: HostRuntime) {
    let mut seen = [false; 15];
    for choice in 0..16 {
        let words = write_with(&rt, rt.alloc(), choice);
        assert_that!(&rt; request_of(rt.alloc(), words.as_slice()).is_ok());
        if let Some(one) = seen.get_mut(words.len()) {
            *one = true;
        }
    }
    assert_that!(&rt; seen[6..] == [true; 9]);
}
