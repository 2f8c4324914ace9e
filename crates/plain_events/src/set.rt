//! Sets of integers that are written in ascending order.
ghost use Rattle.std.specs.Prelude.{IfSome};
ghost use Rattle.values.specs.Members.{IsAscending};
ghost use Rattle.plain_events.specs.Prefixes.{AreIntegersAt, IsSetAt};

use crate::numbers::integer;
use crate::word::{past_byte, past_bytes, past_white};
use std::alloc::Global;
use values::Members;

// The integers at the front, each greater than the one before it, and what follows them.
#[inline(never)]
fn ascending(alloc: Global, text: &[u8]) -> Option<(Vec<i64>, &[u8])>
    ensures integers { IfSome result (λ x. AreIntegersAt text.now x.0.items x.1.now) }
    ensures ascend { IfSome result (λ x. IsAscending x.0.items) }
{
    let mut integers = Vec::new(alloc);
    let Some((first, behind)) = integer(text) else {
        return Some((integers, text));
    };
    let Ok(()) = integers.push(first) else {
        return None;
    };
    let (mut last, mut rest) = (first, behind);
    while let Some((next, behind)) = integer(rest) {
        if next <= last {
            return None;
        }
        let Ok(()) = integers.push(next) else {
            return None;
        };
        last = next;
        rest = behind;
    }
    Some((integers, rest))
}

/// A set of integers in ascending order, none of them twice, and the rest after it and the white space behind it. It returns none, which
/// says nothing, also if there is no memory for the members. Costs one pass over them.
pub fn set_at(alloc: Global, text: &[u8]) -> Option<(Members, &[u8])>
    ensures { IfSome result (λ x. IsSetAt text.now x.0 x.1.now) }
{
    let inner = past_bytes(text, b"#{")?;
    let (integers, closing) = ascending(alloc, past_white(inner))?;
    let rest = past_byte(closing, b'}')?;
    let members = Members::of_ascending(integers).ok()?;
    Some((members, rest))
}
