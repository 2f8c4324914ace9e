//! The usual causes of refusals.
ghost use Rattle.std.specs.Prelude.{IsSome};
ghost use Rattle.observers.specs.Hints.{IsPrinted};

/// The list of the refusals that `script` and `check` give, and what is usually the cause of each: `each_hint!(callback; args)`
/// is `callback!(args; NUMBER "name" "hint", ..)`.
#[macro_export]
macro_rules! each_hint {
    ($callback:ident; $($args:tt)*) => {
        $callback! { $($args)*;
            1 "Busy" "The process has an operation open: it completes that one first.",
            2 "WrongProcess" "The process is not its thread's current one. Are there more clients than --concurrency says?",
            3 "NotOpen" "The process has no operation open: was its invocation refused, or left out?",
            4 "Mismatch" "The completion has another name, key or value than its invocation.",
            5 "BadValue" "It is outside the tables. Leave the nemesis out; :value is [KEY PART]; check takes events alone.",
            6 "BadIndex" "The stated :index is not the event's place, 0, 1, ..: take the indices out, or count them anew.",
            7 "HistoryFull" "A history has at most 1048576 events. jepmon-judge judges longer ones; live, go on in another one, with new keys.",
            8 "NoSuchIndex" "A rewind keeps at most as many events as there are.",
            9 "BadBudget" "A budget is a number, 1 to 65536.",
            10 "BadConcurrency" "--concurrency takes a number, 1 to 64, and of run 1 to 63.",
            11 "Unreadable" "After so many bytes it is no text. Floats, tags, symbols, lists, gzip and UTF-16 are not read.",
            13 "NoMemory" "The memory did not suffice. Judge fewer events at a time, or with a smaller budget.",
            20 "ReadFailed" "The input can't be read. Is the path right, is it no directory, and may it be read?",
            21 "WriteFailed" "Standard output took no more. Is its device full, or has its reader gone?",
            22 "TooLong" "A line has more than 65536 bytes. Does each event stand on a line of its own?"
        }
    };
}

macro_rules! hint_at {
    ($number:expr; $($n:literal $name:literal $hint:literal),*) => {
        match $number {
            $($n => Some($hint),)*
            _ => None,
        }
    };
}

// The refusals of `run` alone.
const TAPE_FULL: &str =
    "A run has at most 4294967295 calls of its clients and the nemesis: let --ops be less.";

const REPLICAS: &str = "--replicas takes a number, 1 to 7.";

const NO_SEAT: &str =
    "A client got no place on the board. Try again, or with a smaller --concurrency.";

/// The usual cause of the refusal of this number, as a sentence or two. `None` for 14 to 17, which the program never prints, and for other
/// numbers without a refusal.
pub fn hint_of(number: u8) -> Option<&'static str>
    ensures { IsPrinted number → IsSome result }
{
    match number {
        12 => Some(TAPE_FULL),
        18 => Some(REPLICAS),
        19 => Some(NO_SEAT),
        number => each_hint!(hint_at; number),
    }
}
