//! The assignments of a case.
ghost use Rattle.std.specs.Prelude.{◌≡◌};
ghost use Rattle.rules.specs.Meaning.{is_within, kept_value, state_after};

use crate::rule::{Assignment, Limits, Variable};
use crate::rules::{State, put};
use crate::value::value_of;

// Whether the value is within the limits, if there are any.
fn is_within(limits: Option<Limits>, value: Option<i64>) -> bool
    ensures { result ≡ is_within limits value }
{
    match limits {
        None => true,
        Some(limits) => match value {
            None => false,
            Some(integer) => limits.least <= integer && integer <= limits.greatest,
        },
    }
}

// The value that the assignment leaves in its variable: none if there is none, if it leaves the limits, or if there is no such variable.
fn kept_value(
    variables: &[Variable],
    before: &[Option<i64>],
    given: &[i64],
    assignment: &Assignment,
) -> Option<Option<i64>>
    ensures { result ≡ kept_value variables.now before.now given.now assignment.now }
{
    let Some(variable) = variables.get(assignment.variable as usize) else {
        return None;
    };
    let value = value_of(&assignment.value, before, given)?;
    if is_within(variable.limits, value) {
        Some(value)
    } else {
        None
    }
}

/// The state after these assignments, from the state before: none if one of them does not hold. All values are computed in the state before.
pub fn state_after(
    variables: &[Variable],
    before: &State,
    given: &[i64],
    assignments: &[Assignment],
) -> Option<State>
    ensures { result ≡ state_after variables.now before.now given.now assignments.now before.now }
{
    let mut after = *before;
    for assignment in assignments {
        let value = kept_value(variables, before, given, assignment)?;
        put(&mut after, assignment.variable as usize, value);
    }
    Some(after)
}
