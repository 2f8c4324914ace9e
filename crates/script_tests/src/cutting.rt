//! One text in pieces of any size, and what is left of it where it is cut off.

use crate::runs::script_of;
use crate::streams::{LINES, narrow_writer};
use std::alloc::{AllocError, Global};
use std::io::Eprint;
use std::rt::Clock;
use std::sync::Wait;

// Whether these bytes, at most `size` of them a read, get this reply.
fn is_replied<X: Wait + Clock + Eprint>(
    rt: &X,
    alloc: Global,
    bytes: &[u8],
    size: usize,
    want: &[u8],
) -> bool {
    let writer = narrow_writer(alloc, usize::MAX, false);
    let (outcome, holds, _) = script_of(rt, alloc, bytes, size, writer, want);
    outcome.is_ok() && holds
}

/// The replies are the same in whatever pieces the text comes.
#[test]
fn any_cutting(rt: HostRuntime) {
    let want = b"legal\nlegal\nlegal\nlegal\n";
    for size in [1, 2, 3, 7, usize::MAX] {
        assert!(rt; is_replied(&rt, rt.alloc(), LINES, size, want), "by {size}");
    }
}

// The expected reply to a beginning of the text: a line is legal, also one that lacks its line feed alone, and one that lacks its brace is
// not text.
fn wanted(alloc: Global, beginning: &[u8]) -> Result<Vec<u8>, AllocError> {
    let mut want = Vec::new(alloc);
    for byte in beginning {
        if *byte == b'\n' {
            want.extend_from_slice(b"legal\n")?;
        }
    }
    match beginning.last() {
        None | Some(b'\n') => {}
        Some(b'}') => want.extend_from_slice(b"legal\n")?,
        Some(_) => want.extend_from_slice(b"refused 11 Unreadable 0\n")?,
    }
    Ok(want)
}

// Whether the beginning is replied what must be.
fn is_replied_so<X: Wait + Clock + Eprint>(
    rt: &X,
    alloc: Global,
    beginning: &[u8],
) -> Result<bool, AllocError> {
    let want = wanted(alloc, beginning)?;
    Ok(is_replied(rt, alloc, beginning, 7, want.as_slice()))
}

/// Cut off at each byte: the lines before have their replies, and the last one has what its beginning gets.
#[test]
fn cut_off_at_each_byte(rt: HostRuntime) {
    for n in 0..=LINES.len() {
        assert!(rt;
            matches!(is_replied_so(&rt, rt.alloc(), &LINES[..n]), Ok(true)),
            "cut off after {n} bytes"
        );
    }
}
