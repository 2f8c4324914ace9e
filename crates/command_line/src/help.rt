//! The program's texts about itself.

use kinds::each_kind;
use observers::each_hint;
use script_command::with_version;

macro_rules! with_logic {
    (; $version:literal) => {
        concat!($version, "\nlogic dac8208d650f15bf")
    };
}

/// The program's version, and the logic in which it is proved: the last two words that `rt version` prints.
pub const VERSION: &str = with_version!(with_logic;);

pub const ABOUT: &str = "Judges whether what clients saw of a store is linearizable";

pub const MORE: &str =
    "Without a command it is script, with its defaults. Its options: jepmon script --help";

pub const SCRIPT: &str = "Answers events on standard input by verdicts";

pub const SCRIPT_LONG: &str =
    "Reads events from standard input, a line each, and answers each on standard output,
before it reads the next, by the verdict on all events so far:

  legal                    the history is linearizable
  illegal key K index I    it is not, and event I of key K is the first that shows it
  unknown key K index I    the budget of key K did not suffice at event I

A line that is refused changes nothing and is answered by `refused NUMBER NAME`.";

pub const STRICT: &str =
    "The first line that is refused ends the script, with status 3; without it each is answered and passed over";

/// The hint for somebody at a terminal who has to type the program's input.
pub const TYPED: &str =
    "reading events from the terminal, a line each, until Ctrl-D; jepmon --help says more";

pub const CHECK: &str = "Judges a recorded history, whose elements are events";

pub const CHECK_LONG: &str =
    "Reads a file of events, one after the other, and judges all of them. It prints a line for each key
that has events, in the order of their first events, and then the verdict:

  key K model M budget B events E status alive
                               or dead I, where event I is the first of the key's that shows it; or
                               over I, where the budget of the key did not suffice at event I
  legal                        the history is linearizable
  illegal key K index I        it is not, and event I of key K is the first that shows it
  unknown key K index I        the budget of key K did not suffice at event I

or, in place of all that,

  refused NUMBER NAME event I  event I is none that may come there
  refused NUMBER NAME          the file can't be read, or is no text";

pub const CONFIRM: &str =
    "Says whether an order of a recorded history shows that it is linearizable";

pub const CONFIRM_LONG: &str =
    "Reads a file of events, as check does, and a file with an order of their operations, and says whether
in that order they can take place one after another, with the answers that they had and none before
one that had returned when it began. It tries no other order. It prints one line:

  linearizable                  the order is one of the history, which is linearizable
  no order place P event E WHY  it is none: the operation that event E invokes, at place P of the
                                order, from 0, does not fit there; of the history nothing is said
  refused 5 BadValue order place P event E WHY
                                the list can be no order of the history's operations
  refused 5 BadValue order element I
                                element I of the order, from 0, is no index, and no vector of them
  refused NUMBER NAME order     the order can't be read, or is no text
  refused NUMBER NAME event I   event I is none that may come there
  refused NUMBER NAME           the history can't be read, or is no text

WHY is, of what does not fit, one of

  failed             the operation has failed, so it did not take place
  too-late           it has returned before an operation was invoked that stands before it
  cannot-take-place  it can't take place behind those that stand before it
  another-answer     it would find something else there than it has answered

and of a list that can be no order, one of

  no-event           the history has no event of this index
  no-invocation      the event invokes no operation
  twice              the operation stands in the list before
  left-out           it has returned, and does not stand in the list, whose length P is";

pub const CONFIRM_STATUS: &str = "Exit status: 0 linearizable, 1 no order, 3 refused";

pub const RUN: &str = "Runs clients against a store in the process, and judges what they saw";

pub const RUN_LONG: &str =
    "Runs clients against a replicated store in the process, each in a thread of its own, with faults on
the way where they are wanted, and judges what the clients saw. It prints a line for each key that
has events, in the order of their first events, and then the verdict, as check does:

  key K model M budget B events E status alive
                               or dead I, where event I is the first of the key's that shows it; or
                               over I, where the budget of the key did not suffice at event I
  legal                        what the clients saw is linearizable
  illegal key K index I        it is not, and event I of key K is the first that shows it
  unknown key K index I        the budget of key K did not suffice at event I

or, in place of all that, `refused NUMBER NAME`. What a strict store shows is never illegal. What
clients draw follows from the seed; in which order they come does not, save with one client.";

pub const RUN_FORMS: &str =
    "Each operation is drawn at random from those that the keys' object has: reads, or writes of 1, 2 and
3 in turn, of a register; these and cas from 1 to 2, 2 to 3 and 3 to 1 of a cas-register; acquires and
releases of a mutex; enqueues of 1, 2 and 3 in turn, and dequeues, of a queue; adds of 1, 2 and 3 in
turn, and reads, of a set.

With --faults on, replica 0 is parted from the others once there are 20 events, and the network heals
at 40; a reply is lost at 60; replica 0 crashes at 80, and starts again at 100.

Exit status: 0 legal, 1 illegal, 2 unknown, 3 refused";

pub const STATUS: &str = "Exit status: 0 legal, 1 illegal, 2 unknown, 3 refused";

// The forms of the input, then of an event, then the refusals, then the exit status.
macro_rules! with_forms {
    ($forms:literal, $status:literal; $($n:literal $name:literal $hint:literal),*) => {
        concat!($forms, "

An event's :type is :invoke, or :ok (it took place), :fail (it did not) or :info (nobody knows).
Its :process is an integer, its :value is [KEY PART] with a KEY of 0 to 65535, and its :f one of

  :read      the part is nil; of an :ok an integer, nil, or a set of integers as #{1 2}
  :write     an integer
  :cas       [A B]: B is written where the value is A
  :acquire   nil
  :release   nil
  :enqueue   an integer
  :dequeue   nil; of an :ok an integer
  :add       an integer

Its :index, where it has one, is the number of events before it. Other keys are dropped.

Refusals, and what is usually the cause of each:
", $("\n  ", $n, " ", $name, ": ", $hint,)* "\n\n", $status)
    };
}

pub const SCRIPT_FORMS: &str = each_hint!(with_forms;
"A line of input is empty, or has one of

  {:type :invoke, :process 0, :f :write, :value [7 3]}
                     an event: process 0 begins to write 3 to key 7
  [:verdict]         the verdict is asked for
  [:hello]           the program's version, kinds and limits are asked for
  [:rewind N]        the first N events are kept
  [:model KEY KIND]  the key is of this kind, as [:model 7 :mutex]
  [:budget KEY N]    the key has this budget",
"Exit status, by the verdict at the end: 0 legal, 1 illegal, 2 unknown. 3 where the words, standard
input or standard output are refused; a line that is refused does not count, save with --strict.");

pub const CHECK_FORMS: &str = each_hint!(with_forms;
"The file has events, one after the other:

  {:type :invoke, :process 0, :f :write, :value [7 3]}
                     process 0 begins to write 3 to key 7",
"Exit status: 0 legal, 1 illegal, 2 unknown, 3 refused");

pub const CONFIRM_FORMS: &str = each_hint!(with_forms;
"The order has the indices of the events, from 0, that invoke the operations, in the order in which
these took place: integers, or vectors of them, one after the other.

  0 3 2              the operations that events 0, 3 and 2 invoke
  [0 2] [1]          the same for each key of two, of which the operations may stand in any order

What has returned must stand there. What has not completed, or has :info, may be left out: then it did
not take place.

The file has events, one after the other:

  {:type :invoke, :process 0, :f :write, :value [7 3]}
                     process 0 begins to write 3 to key 7",
"Exit status: 0 linearizable, 1 no order, 3 refused");

pub const ORDER: &str = "The file of the order; its indices stand in it cut into lines or not";

pub const NO_FILE: &str =
    "script takes no file: it reads standard input, as in jepmon script < FILE; \
jepmon check FILE judges a recorded history";

pub const FILE: &str =
    "The file, or - for standard input; its events stand in it as in script, cut into lines or not";

pub const WORKERS: &str = "Threads that judge keys side by side, 1 to 64";

pub const SEED: &str = "The seed of what clients draw, 0 to 9223372036854775807";

pub const OPERATIONS: &str = "Operations that are drawn, 0 to 100000";

pub const KEYS: &str = "Keys that they are on, 1 to 64";

pub const REPLICAS: &str = "Replicas of the store, 1 to 7";

pub const MODE: &str =
    "How they serve: strict (a majority has each operation) or sloppy (one replica alone has it)";

pub const FAULTS: &str = "Whether faults strike: off, on";

pub const CLIENTS: &str = "Clients, each in a thread of its own, 1 to 63";

pub const CONCURRENCY: &str =
    "Threads of the clients, 1 to 64; process P belongs to thread P mod N";

// A text, and then the names of the kinds.
macro_rules! with_names {
    ($text:literal; $First:ident $first:literal, $($K:ident $name:literal),*) => {
        concat!($text, $first $(, ", ", $name)*)
    };
}

pub const MODEL: &str = each_kind!(with_names; "The object that every key is: ");

pub const NO_MODEL: &str = each_kind!(with_names; "--model takes one of ");

pub const BUDGET: &str =
    "Ends of one key that are kept apart, 1 to 65536; a key with more is unknown";
