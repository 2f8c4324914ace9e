//! Faults of files, with their places and remedies.
use crate::terms::{MEMORY, elements_of, named, read_term};
use object_terms::{Fault, listed, meant, shown, test_keys, texts_of};
use std::alloc::Global;
use std::panic::Expect;
use std::process::Abort;

// Whether the text is refused in these words.
fn is_refused<R: Abort>(rt: &R, alloc: Global, text: &str, words: &str) -> bool {
    match read_term(rt, alloc, text) {
        Err(Fault::Refused(said)) => said.as_str() == words,
        _ => false,
    }
}

const REFUSALS: [(&str, &str); 2] = [
    (
        ":m",
        "here: there is no :m. Is :n meant? There are :n :by and :client.",
    ),
    ("[:plus :n]", "here: :plus is of 2 values, and has 1."),
];

// Whether the first element of the text is shown in these words.
fn is_shown<R: Abort>(rt: &R, alloc: Global, text: &str, words: &str) -> bool {
    let elements = elements_of(rt, alloc, text);
    let element = elements.as_slice().first().expect(rt, text);
    shown(alloc, element).expect(rt, MEMORY).as_str() == words
}

// Whether a name is meant that is the only known one, the names are listed so, and no pair has another key.
fn of_one_key<R: Abort>(rt: &R, alloc: Global) -> [bool; 3] {
    let names = named(rt, alloc, "set");
    let known = texts_of(alloc, &names).expect(rt, MEMORY);
    let known = known.as_slice();
    let near = meant(alloc, "sets", known).expect(rt, MEMORY);
    let keys = listed(alloc, known).expect(rt, MEMORY);
    [
        near.as_str() == ". Is :set meant?",
        keys.as_str() == ":set",
        test_keys(alloc, "here", &[], known).is_ok(),
    ]
}

#[test]
fn faults_have_a_remedy(rt: HostRuntime) {
    for (text, words) in REFUSALS {
        assert!(rt; is_refused(&rt, rt.alloc(), text, words), "{text}");
    }
    assert!(rt; is_shown(&rt, rt.alloc(), "[1]", "a vector"));
    assert!(rt; of_one_key(&rt, rt.alloc()) == [true, true, true]);
}
