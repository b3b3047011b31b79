//! The command `load`. The numbers drawn are 74, 5624 and 28652 of seed 0, and 149, 11249, 57305 and 38044 of seed 1: each of three users
//! is asked about u2, and of four users the first three about u1, of whom u1 itself is the second, and the last about u0.
use crate::check::{check, failing, words_of};
use crate::in_memory::NEVER;
use hub_devices::mem_bytes::MemSink;
use hub_loading::run::{End, run, status_of};
use std::alloc::Global;
use std::process::Abort;
use std::sync::Wait;

/// Words, the write that fails, and what is written and how it ends.
struct Loading {
    words: &'static str,
    failing: u64,
    output: &'static [u8],
    end: End,
    status: u8,
}

const LOADINGS: [Loading; 5] = [
    Loading {
        words: "load 0 3",
        failing: NEVER,
        output: b"users 3\nok 1\nmissing 2\nadmitted 1\nrefused 2\nrevision 6\n",
        end: End::Done,
        status: 0,
    },
    Loading {
        words: "load 1 4",
        failing: NEVER,
        output: b"users 4\nok 1\nmissing 3\nadmitted 1\nrefused 3\nrevision 8\n",
        end: End::Done,
        status: 0,
    },
    Loading {
        words: "load 65536 1",
        failing: 0,
        output: b"",
        end: End::NoOutput,
        status: 6,
    },
    Loading {
        words: "load 65537 1",
        failing: NEVER,
        output: b"",
        end: End::BadWords,
        status: 2,
    },
    Loading {
        words: "load 0 20001",
        failing: NEVER,
        output: b"",
        end: End::BadWords,
        status: 2,
    },
];

fn ends_so<R: Abort + Wait>(rt: &R, alloc: Global, row: &Loading) -> bool {
    let words = words_of(rt, alloc, row.words);
    let mut output = MemSink::new(alloc, failing(rt, alloc, row.failing));
    let end = run(rt, alloc, words.as_slice(), &mut output);
    (end == row.end) & (status_of(end) == row.status) & (output.as_slice() == row.output)
}

#[test]
fn loadings(rt: HostRuntime) {
    for row in &LOADINGS {
        check(&rt, ends_so(&rt, rt.alloc(), row), row.words);
    }
}
