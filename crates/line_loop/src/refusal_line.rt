//! The line that says why something was refused.
ghost use Rattle.std.specs.Prelude.{◌≡◌, ◌++◌, IfOk, OnOk, OnErr, string_bytes};
ghost use Rattle.line_loop.specs.RefusalLine.{refusal_line, place_text};

use edn::Refusal;
use std::alloc::{AllocError, Global};

/// The line of a refusal with its line feed, as `refused 5 BadValue` or `refused 11 Unreadable 4`. It takes constant time.
///
/// # Errors
///
/// Where memory is refused.
pub fn refusal_text(alloc: Global, refusal: &Refusal) -> Result<String, AllocError>
    ensures { IfOk result (λ text. string_bytes text ≡ refusal_line refusal.now) }
{
    let number = refusal.number();
    let name = refusal.name();
    let place = place_text(alloc, refusal)?;
    format!(in alloc; "refused {number} {name}{place}\n")
}

/// The place that an unreadable text's refusal names, after a space; no other refusal names one. It takes constant time.
///
/// # Errors
///
/// Where memory is refused.
pub fn place_text(alloc: Global, refusal: &Refusal) -> Result<String, AllocError>
    ensures { IfOk result (λ text. string_bytes text ≡ place_text refusal.now) }
{
    match refusal {
        Refusal::Unreadable(place) => format!(in alloc; " {place}"),
        _ => Ok(String::new(alloc)),
    }
}

/// Appends the line of a refusal to a reply. It takes constant time, but if the reply's memory grows.
///
/// # Errors
///
/// Where memory is refused, and then the reply is as it was.
pub fn append_refusal(
    alloc: Global,
    reply: &mut Vec<u8>,
    refusal: &Refusal,
) -> Result<(), AllocError>
    ensures ok { OnOk result (reply.new.items ≡ reply.old.items ++ refusal_line refusal.now) }
    ensures err { OnErr result (reply.new.items ≡ reply.old.items) }
{
    let line = refusal_text(alloc, refusal)?;
    reply.extend_from_slice(line.as_bytes())
}
