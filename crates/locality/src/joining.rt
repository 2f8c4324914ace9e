//! One verdict from the statuses of all keys.
ghost use Rattle.std.specs.Prelude.{ℕ, List, [], ◌∷◌, ◌++◌};
ghost use Rattle.linspec.specs.declared.verdict.KeyStatus.{KeyStatus};
ghost use Rattle.linspec.specs.Verdicts.{IsJoin};

use linspec::{KeyStatus, Verdict};
use models::Key;

/// The verdict of a list of statuses: Illegal with the key and index of the least Dead. Without a Dead it is Unknown with
/// the key and index of the least Over; else Legal. If the list has the status of each key of a history, once, this is
/// the verdict on that history (`join_law`). Total, takes no memory, and the time of the list's length. (This project's
/// own, on the locality of linearizability: Herlihy and Wing 1990, section 3.1.)
pub fn join(statuses: &[(Key, KeyStatus)]) -> Verdict
    ensures { IsJoin statuses.now result }
{
    let mut verdict = Verdict::Legal;
    for (key, status) in statuses {
        verdict = join_with(verdict, *key, *status);
    }
    verdict
}

/// The verdict of a list of statuses with one more, from the verdict of that list. So it is kept up to date while keys come, and the
/// statuses need not be read again. Without statuses the verdict is Legal (`no_keys_law`). Total, takes no memory, and constant time.
pub fn join_with(verdict: Verdict, key: Key, status: KeyStatus) -> Verdict
    ensures { (statuses : List (ℕ × KeyStatus)) → IsJoin statuses verdict
        → IsJoin (statuses ++ (key, status) ∷ []) result }
{
    match status {
        KeyStatus::Alive => verdict,
        KeyStatus::Dead(index) => with_dead(verdict, key, index),
        KeyStatus::Over(index) => with_over(verdict, key, index),
    }
}

// The verdict of a list with one more dead key.
fn with_dead(verdict: Verdict, key: Key, index: u32) -> Verdict
    ensures { (statuses : List (ℕ × KeyStatus)) → IsJoin statuses verdict
        → IsJoin (statuses ++ (key, KeyStatus.Dead index) ∷ []) result }
{
    match verdict {
        Verdict::Legal | Verdict::Unknown { .. } => Verdict::Illegal { key, index },
        Verdict::Illegal { index: least, .. } => {
            let is_sooner = index < least;
            if is_sooner {
                Verdict::Illegal { key, index }
            } else {
                verdict
            }
        }
    }
}

// The verdict of a list with one more key over budget.
fn with_over(verdict: Verdict, key: Key, index: u32) -> Verdict
    ensures { (statuses : List (ℕ × KeyStatus)) → IsJoin statuses verdict
        → IsJoin (statuses ++ (key, KeyStatus.Over index) ∷ []) result }
{
    match verdict {
        Verdict::Illegal { .. } => verdict,
        Verdict::Legal => Verdict::Unknown { key, index },
        Verdict::Unknown { index: first, .. } => {
            let is_sooner = index < first;
            if is_sooner {
                Verdict::Unknown { key, index }
            } else {
                verdict
            }
        }
    }
}
