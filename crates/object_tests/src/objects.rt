//! Objects of one variable, `n`, from rows of texts.
use crate::terms::{MEMORY, term};
use rules::{Answer, Assignment, Case, Limits, Operation, Rules, Variable};
use std::alloc::Global;
use std::panic::Expect;
use std::process::Abort;

/// The answer of a case, whose value is a text.
#[derive(Clone, Copy)]
pub enum Told {
    Any,
    Exactly(&'static str),
    OrNil(&'static str),
}

/// A case: the value of `n` afterwards, if it is set, and the answer. It always holds.
pub type CaseRow = (Option<&'static str>, Told);

/// An operation: the number of its name, how many integers are given to it, and its cases.
pub type OperationRow = (u8, u8, &'static [CaseRow]);

/// The value of `n` at first, its limits, and the operations.
pub type Object = (i64, Option<Limits>, &'static [OperationRow]);

// What a case sets.
fn set_by<R: Abort>(rt: &R, alloc: Global, text: Option<&str>) -> Vec<Assignment> {
    let mut set = Vec::new(alloc);
    if let Some(text) = text {
        let value = term(rt, alloc, text);
        set.push(Assignment { variable: 0, value })
            .expect(rt, MEMORY);
    }
    set
}

fn answer_of<R: Abort>(rt: &R, alloc: Global, told: Told) -> Answer {
    match told {
        Told::Any => Answer::Any,
        Told::Exactly(text) => Answer::Exactly(term(rt, alloc, text)),
        Told::OrNil(text) => Answer::OrNil(term(rt, alloc, text)),
    }
}

fn case_of<R: Abort>(rt: &R, alloc: Global, row: CaseRow) -> Case {
    let (text, told) = row;
    Case {
        when: term(rt, alloc, "true"),
        set: set_by(rt, alloc, text),
        answer: answer_of(rt, alloc, told),
    }
}

fn cases_of<R: Abort>(rt: &R, alloc: Global, rows: &[CaseRow]) -> Vec<Case> {
    let mut cases = Vec::new(alloc);
    for row in rows {
        cases.push(case_of(rt, alloc, *row)).expect(rt, MEMORY);
    }
    cases
}

fn operations_of<R: Abort>(rt: &R, alloc: Global, rows: &[OperationRow]) -> Vec<Operation> {
    let mut operations = Vec::new(alloc);
    for (name, given, rows) in rows {
        let operation = Operation {
            name: *name,
            given: *given,
            cases: cases_of(rt, alloc, rows),
        };
        operations.push(operation).expect(rt, MEMORY);
    }
    operations
}

fn variables_of<R: Abort>(
    rt: &R,
    alloc: Global,
    start: i64,
    limits: Option<Limits>,
) -> Vec<Variable> {
    let mut variables = Vec::new(alloc);
    let variable = Variable {
        start: Some(start),
        limits,
    };
    variables.push(variable).expect(rt, MEMORY);
    variables
}

/// The rules of an object.
pub fn rules_of<R: Abort>(rt: &R, alloc: Global, object: &Object) -> Rules {
    let (start, limits, rows) = *object;
    Rules {
        variables: variables_of(rt, alloc, start, limits),
        operations: operations_of(rt, alloc, rows),
    }
}
