//! Runs of bytes, compared several at a time.
ghost use Rattle.std.specs.Prelude.{◌≡◌, ◌++◌, IfSome};

use crate::word::past_bytes;

// The rest after these eight bytes at the beginning, which are compared as one number; or none.
#[inline(always)]
fn past_eight(text: &[u8], bytes: [u8; 8]) -> Option<&[u8]>
    ensures { IfSome result (λ rest. text.now ≡ bytes ++ rest.now) }
{
    let [a, b, c, d, e, f, g, h, rest @ ..] = text else {
        return None;
    };
    let front = u64::from_le_bytes([*a, *b, *c, *d, *e, *f, *g, *h]);
    if front != u64::from_le_bytes(bytes) {
        return None;
    }
    Some(rest)
}

// The same of four bytes.
#[inline(always)]
fn past_four(text: &[u8], bytes: [u8; 4]) -> Option<&[u8]>
    ensures { IfSome result (λ rest. text.now ≡ bytes ++ rest.now) }
{
    let [a, b, c, d, rest @ ..] = text else {
        return None;
    };
    let front = u32::from_le_bytes([*a, *b, *c, *d]);
    if front != u32::from_le_bytes(bytes) {
        return None;
    }
    Some(rest)
}

// The rest after these bytes at the beginning, which are fewer than eight; or none.
#[inline(always)]
fn past_few<'a>(text: &'a [u8], run: &[u8]) -> Option<&'a [u8]>
    ensures { IfSome result (λ rest. text.now ≡ run.now ++ rest.now) }
{
    let [a, b, c, d, more @ ..] = run else {
        return past_bytes(text, run);
    };
    let behind = past_four(text, [*a, *b, *c, *d])?;
    past_bytes(behind, more)
}

/// The rest after these bytes at the beginning; or none. It compares eight bytes at a time.
#[inline(always)]
pub fn past_run<'a>(text: &'a [u8], run: &[u8]) -> Option<&'a [u8]>
    ensures { IfSome result (λ rest. text.now ≡ run.now ++ rest.now) }
{
    let mut left = text;
    let mut wanted = run;
    while let [a, b, c, d, e, f, g, h, more @ ..] = wanted {
        left = past_eight(left, [*a, *b, *c, *d, *e, *f, *g, *h])?;
        wanted = more;
    }
    past_few(left, wanted)
}
