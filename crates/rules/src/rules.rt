//! The rules of an object.
ghost use Rattle.std.specs.Prelude.{◌≡◌, slice_set};
ghost use Rattle.std.specs.Option.{option_copied};
ghost use Rattle.rules.specs.Meaning.{start_of, outcome_of, operation_named, sets_nothing, reads};

use crate::cases::first_outcome;
use crate::finding::Found;
use crate::rule::{Case, Operation, READ, Variable};

/// The most variables of a state.
pub const MOST_VARIABLES: usize = 8;

/// The value of each variable, nil or an integer. A place without a variable holds nil.
pub type State = [Option<i64>; MOST_VARIABLES];

/// Puts the value in this place, if it is there. Takes constant time.
pub fn put(state: &mut State, place: usize, value: Option<i64>)
    ensures { state.new ≡ slice_set state.old place value }
{
    if place < MOST_VARIABLES {
        state[place] = value;
    }
}

/// The rules of an object: its variables by their places, and its operations. Variables from the place [`MOST_VARIABLES`] on have no value. If
/// several have one name, the first counts.
#[derive(Drop)]
pub struct Rules {
    pub variables: Vec<Variable>,
    pub operations: Vec<Operation>,
}

// The operation of this name.
fn operation_named(operations: &[Operation], name: u8) -> Option<&Operation>
    ensures { option_copied result ≡ operation_named operations.now name }
{
    for operation in operations {
        if operation.name == name {
            return Some(operation);
        }
    }
    None
}

// Whether none of the cases sets a variable.
fn sets_nothing(cases: &[Case]) -> bool
    ensures { result ≡ sets_nothing cases.now }
{
    for case in cases {
        if !case.set.is_empty() {
            return false;
        }
    }
    true
}

impl Rules {
    /// The state at first. Takes no memory, and constant time.
    pub fn start(&self) -> State
        ensures { result ≡ start_of self.now }
    {
        let mut state = [None; MOST_VARIABLES];
        for (place, variable) in self.variables.iter().enumerate() {
            put(&mut state, place, variable.start);
        }
        state
    }

    /// The outcome of the operation of this name in the state, with these integers given: the state after it and what it finds. None if it
    /// can't take place: if there is no such operation, if other than its number of integers are given, or if no case holds. Takes no memory,
    /// and time in proportion to the words of its cases.
    pub fn outcome(&self, name: u8, given: &[i64], state: &State) -> Option<(State, Found)>
        ensures { result ≡ outcome_of self.now name given.now state.now }
    {
        let operation = operation_named(self.operations.as_slice(), name)?;
        if given.len() != operation.given as usize {
            return None;
        }
        first_outcome(
            self.variables.as_slice(),
            state,
            given,
            name == READ,
            operation.cases.as_slice(),
        )
    }

    /// Whether an operation of this name leaves each state as it was, by its cases: they set nothing, or it is a read, or there is none. Takes
    /// time in proportion to its cases.
    pub fn reads(&self, name: u8) -> bool
        ensures { result ≡ reads self.now name }
    {
        if name == READ {
            return true;
        }
        match operation_named(self.operations.as_slice(), name) {
            None => true,
            Some(operation) => sets_nothing(operation.cases.as_slice()),
        }
    }
}
