//! Terms of texts.
use edn::Edn;
use object_terms::{DEEPEST, Fault, Scope, term_of};
use rules::{Term, value_of};
use std::alloc::Global;
use std::panic::Expect;
use std::process::Abort;

/// The message of a test if memory runs out.
pub const MEMORY: &str = "no memory";

/// A list of one name.
pub fn named<R: Abort>(rt: &R, alloc: Global, name: &str) -> [String; 1] {
    [String::from_str(alloc, name).expect(rt, MEMORY)]
}

/// The elements of a text.
pub fn elements_of<R: Abort>(rt: &R, alloc: Global, text: &str) -> Vec<Edn> {
    edn::read_all(alloc, text.as_bytes()).expect(rt, text)
}

// The term of an element, with a variable `n` and an argument `by`.
fn read<R: Abort>(rt: &R, alloc: Global, element: &Edn) -> Result<Term, Fault> {
    let names = named(rt, alloc, "n");
    let arguments = named(rt, alloc, "by");
    let scope = Scope {
        names: &names,
        variables: &[],
        arguments: &arguments,
        asks: false,
    };
    let mut words = 0;
    match term_of(alloc, &scope, "here", &mut words, DEEPEST, element) {
        Ok((term, _sort)) => Ok(term),
        Err(fault) => Err(fault),
    }
}

/// The term of the first element of a text.
pub fn read_term<R: Abort>(rt: &R, alloc: Global, text: &str) -> Result<Term, Fault> {
    let elements = elements_of(rt, alloc, text);
    read(rt, alloc, elements.as_slice().first().expect(rt, text))
}

/// The term of a text that is accepted.
pub fn term<R: Abort>(rt: &R, alloc: Global, text: &str) -> Term {
    read_term(rt, alloc, text).ok().expect(rt, text)
}

// A call: the value of `n`, the integers given, and the value of the call.
type Row = (Option<i64>, &'static [i64], Option<Option<i64>>);

const CALL: &str = "[:if [:and [:eq :n 2] [:not false]] [:plus :n :by] nil]";

const VALUES: [Row; 3] = [
    (Some(2), &[5], Some(Some(7))),
    (Some(3), &[5], Some(None)),
    (Some(2), &[], None),
];

#[test]
fn a_call_has_its_value(rt: HostRuntime) {
    let term = term(&rt, rt.alloc(), CALL);
    for (place, (n, given, value)) in VALUES.iter().enumerate() {
        assert!(rt; value_of(&term, &[*n], given) == *value, "row {place}");
    }
}
