//! Laws of histories that ask for more, and of histories without some of their operations.
ghost use Rattle.std.specs.Prelude.{◌≢◌, ◌↔◌, ℕ, ℤ, nat_eq, Bool, IsFalse, Option, List, [], ◌∷◌, ◌++◌};
ghost use Rattle.models.specs.declared.operation.Name.{Name};
ghost use Rattle.models.specs.declared.operation.Name.TheVariants.{Acquire, Release};
ghost use Rattle.models.specs.Objects.{register, cas_register, mutex, fifo_queue, set_of_numbers, unordered_queue};
ghost use Rattle.kinds.specs.declared.model_kind.ModelKind.{ModelKind};
ghost use Rattle.kinds.specs.Kinds.{object_of};
ghost use Rattle.events.specs.Events.{Mark, Entry, marks, IsPrefixOf};
ghost use Rattle.linspec.specs.MarkRule.{AreWellFormed};
ghost use Rattle.linspec.specs.Orders.{IsLinearizable, product};
ghost use Rattle.linspec.specs.Verdicts.{IsRising, EndsShortestBadPrefix};
ghost use Rattle.shrinking_laws.specs.Intervals.{AsksForMore, HasNarrowerIntervals};
ghost use Rattle.shrinking_laws.specs.LeftOut.{without, entries_without, HaveFailed, HaveNotReturned, AreReads, AreForeign, HaveFailedBefore};
ghost use Rattle.shrinking_laws.specs.Registers.{DragsFinders, IsByValues};
ghost use Rattle.shrinking_laws.specs.Locks.{IsPair, IsLast, AreBlocks, without_each};
ghost use Rattle.shrinking_laws.specs.Counts.{AreQueueOperations, NeverRunsOut, AreDequeues, IsLeftOver, AreOfOneRank, is_one_of};
ghost use Rattle.shrinking_laws.specs.Bags.{AreValues, bag};
ghost use Rattle.shrinking_laws.specs.Renamed.{IsOneToOne, renamed};
ghost use Rattle.shrinking_laws.specs.Queues.{AreOfValues};
ghost use Rattle.shrinking_laws.specs.Sets.{AreRepeatedAdds, AreAddsOf, answers_without};
ghost use Rattle.shrinking_laws.specs.ReadsAsCas.{AreAnsweredReads, reads_as_cas, HasNoCas};

/// Where a history that asks for more is linearizable, so is the history: for one key, and for all keys together.
pub fn asks_for_more_law()
    ensures one { (kind : ModelKind) (history stricter : List Mark) →
        AsksForMore history stricter → IsLinearizable (object_of kind) stricter
        → IsLinearizable (object_of kind) history }
    ensures all { (kinds : ℕ → ModelKind) (history stricter : List Mark) →
        AsksForMore history stricter → IsLinearizable (product kinds) stricter
        → IsLinearizable (product kinds) history }
{}

/// Narrower intervals ask for more: where each operation is invoked no earlier and returns no later, and the history is
/// linearizable so, it is linearizable with its wider intervals.
pub fn narrower_intervals_law()
    ensures one { (kind : ModelKind) (wide narrow : List Entry) →
        IsRising wide → IsRising narrow → HasNarrowerIntervals wide narrow
        → IsLinearizable (object_of kind) (marks narrow)
        → IsLinearizable (object_of kind) (marks wide) }
    ensures all { (kinds : ℕ → ModelKind) (wide narrow : List Entry) →
        IsRising wide → IsRising narrow → HasNarrowerIntervals wide narrow
        → IsLinearizable (product kinds) (marks narrow)
        → IsLinearizable (product kinds) (marks wide) }
{}

/// An operation that has not returned may be left out of an order: if the history without some of these is
/// linearizable, so is the history.
pub fn not_returned_law()
    ensures one { (kind : ModelKind) (out : ℕ → Bool) (marks : List Mark) →
        HaveNotReturned out marks → IsLinearizable (object_of kind) (without out marks)
        → IsLinearizable (object_of kind) marks }
    ensures all { (kinds : ℕ → ModelKind) (out : ℕ → Bool) (marks : List Mark) →
        HaveNotReturned out marks → IsLinearizable (product kinds) (without out marks)
        → IsLinearizable (product kinds) marks }
{}

/// An operation that failed decides nothing: a history is linearizable exactly if it is so without some of these. And
/// where it becomes illegal at an event without them, it does so with them, if each that was invoked before that event had
/// failed by then. One that was still open may have taken place.
pub fn failed_law()
    ensures one { (kind : ModelKind) (out : ℕ → Bool) (marks : List Mark) →
        AreWellFormed marks → HaveFailed out marks
        → IsLinearizable (object_of kind) marks
        ↔ IsLinearizable (object_of kind) (without out marks) }
    ensures all { (kinds : ℕ → ModelKind) (out : ℕ → Bool) (marks : List Mark) →
        AreWellFormed marks → HaveFailed out marks
        → IsLinearizable (product kinds) marks ↔ IsLinearizable (product kinds) (without out marks) }
    ensures same_event { (kind : ModelKind) (out : ℕ → Bool) (entries : List Entry) (last : Entry) →
        AreWellFormed (marks entries) → HaveFailedBefore out entries last
        → EndsShortestBadPrefix (object_of kind) (entries_without out entries) last
        → EndsShortestBadPrefix (object_of kind) entries last }
{}

/// A read leaves the state as it was, so any reads may be left out: the rest of a linearizable history is linearizable. If
/// none of them has returned they decide nothing: the history is linearizable exactly if the rest is; and if the rest
/// becomes illegal at an event, so does the history.
pub fn reads_law()
    ensures any { (kind : ModelKind) (out : ℕ → Bool) (marks : List Mark) →
        AreReads out marks → IsLinearizable (object_of kind) marks
        → IsLinearizable (object_of kind) (without out marks) }
    ensures not_returned { (kind : ModelKind) (out : ℕ → Bool) (marks : List Mark) →
        AreReads out marks → HaveNotReturned out marks
        → IsLinearizable (object_of kind) marks
        ↔ IsLinearizable (object_of kind) (without out marks) }
    ensures same_event { (kind : ModelKind) (out : ℕ → Bool) (entries : List Entry) (last : Entry) →
        AreWellFormed (marks entries) → AreReads out (marks entries)
        → HaveNotReturned out (marks entries)
        → EndsShortestBadPrefix (object_of kind) (entries_without out entries) last
        → EndsShortestBadPrefix (object_of kind) entries last }
{}

/// An operation that takes place in no state of the object is in no order, so the rest of a linearizable history is linearizable. The
/// history is linearizable if the rest is and none of these operations has returned.
pub fn foreign_law()
    ensures any { (kind : ModelKind) (out : ℕ → Bool) (marks : List Mark) →
        AreForeign kind out marks → IsLinearizable (object_of kind) marks
        → IsLinearizable (object_of kind) (without out marks) }
    ensures not_returned { (kind : ModelKind) (out : ℕ → Bool) (marks : List Mark) →
        AreForeign kind out marks → HaveNotReturned out marks
        → IsLinearizable (object_of kind) marks
        ↔ IsLinearizable (object_of kind) (without out marks) }
{}

/// Operations of a register, with compare-and-set and without, may be left out together. With each that writes a value, those that may have
/// found the value are left out too. The rest of a linearizable history is linearizable. So all operations of some values may be left out.
pub fn register_law()
    ensures register { (out : ℕ → Bool) (marks : List Mark) →
        AreWellFormed marks → DragsFinders out marks → IsLinearizable register marks
        → IsLinearizable register (without out marks) }
    ensures cas_register { (out : ℕ → Bool) (marks : List Mark) →
        AreWellFormed marks → DragsFinders out marks → IsLinearizable cas_register marks
        → IsLinearizable cas_register (without out marks) }
    ensures values { (out : ℕ → Bool) (marks : List Mark) →
        AreWellFormed marks → IsByValues out marks → IsLinearizable register marks
        → IsLinearizable register (without out marks) }
    ensures cas_values { (out : ℕ → Bool) (marks : List Mark) →
        AreWellFormed marks → IsByValues out marks → IsLinearizable cas_register marks
        → IsLinearizable cas_register (without out marks) }
{}

/// A read that has answered v takes place just where cas [v v] does. So the history of a register is linearizable exactly if it is so with
/// some of its reads replaced by such a cas. A register whose history has no cas is a register with compare-and-set.
pub fn reads_as_cas_law()
    ensures cas_register { (reads : ℕ → Option ℤ) (marks : List Mark) →
        AreWellFormed marks → AreAnsweredReads reads marks
        → IsLinearizable cas_register marks ↔ IsLinearizable cas_register (reads_as_cas reads marks) }
    ensures register { (reads : ℕ → Option ℤ) (marks : List Mark) →
        AreWellFormed marks → AreAnsweredReads reads marks → HasNoCas marks
        → IsLinearizable register marks ↔ IsLinearizable cas_register (reads_as_cas reads marks) }
    ensures no_cas { (marks : List Mark) → HasNoCas marks
        → IsLinearizable register marks ↔ IsLinearizable cas_register marks }
{}

/// These operations of a lock may be left out, and the rest of a linearizable history is linearizable:
///
/// - an acquire and a release that it precedes, together, unless another release and then an acquire may come between both, where this
///   acquire is invoked after the first one;
/// - likewise a release and an acquire that it precedes;
/// - an acquire that each release precedes, and a release that each acquire precedes;
/// - a block: the operations of one piece of every order, with the lock free before and after the piece.
pub fn mutex_law()
    ensures pair { (marks : List Mark) (acquire release : ℕ) →
        AreWellFormed marks → IsPair marks Acquire Release acquire release
        → IsLinearizable mutex marks
        → IsLinearizable mutex (without (is_one_of acquire release) marks) }
    ensures handover { (marks : List Mark) (release acquire : ℕ) →
        AreWellFormed marks → IsPair marks Release Acquire release acquire
        → IsLinearizable mutex marks
        → IsLinearizable mutex (without (is_one_of release acquire) marks) }
    ensures last_acquire { (marks : List Mark) (acquire : ℕ) →
        AreWellFormed marks → IsLast marks Acquire Release acquire → IsLinearizable mutex marks
        → IsLinearizable mutex (without (λ id. nat_eq id acquire) marks) }
    ensures last_release { (marks : List Mark) (release : ℕ) →
        AreWellFormed marks → IsLast marks Release Acquire release → IsLinearizable mutex marks
        → IsLinearizable mutex (without (λ id. nat_eq id release) marks) }
    ensures blocks { (marks : List Mark) (outs : List (ℕ → Bool)) →
        AreWellFormed marks → AreBlocks marks outs → IsLinearizable mutex marks
        → IsLinearizable mutex (without_each outs marks) }
{}

/// Adds of a set may be left out that another add of the same value precedes, which stays. And values may: all adds of them, and these
/// values out of each answer. In both cases the rest of a linearizable history is linearizable.
pub fn set_law()
    ensures repeated { (out : ℕ → Bool) (marks : List Mark) →
        AreWellFormed marks → AreRepeatedAdds out marks → IsLinearizable set_of_numbers marks
        → IsLinearizable set_of_numbers (without out marks) }
    ensures values { (values : ℤ → Bool) (out : ℕ → Bool) (marks : List Mark) →
        AreAddsOf values out marks → IsLinearizable set_of_numbers marks
        → IsLinearizable set_of_numbers (answers_without values (without out marks)) }
{}

/// Values of a queue with an order may be left out: all enqueues of them, and all dequeues that have answered one. Dequeues that have not
/// returned may be left out too, if each spare value is. A value is spare if more enqueues of it did not fail than dequeues have answered
/// it. The rest of a linearizable history is linearizable.
pub fn fifo_queue_law()
    ensures { (values : ℤ → Bool) (out : ℕ → Bool) (marks : List Mark) →
        AreWellFormed marks → AreOfValues values out marks → IsLinearizable fifo_queue marks
        → IsLinearizable fifo_queue (without out marks) }
{}

/// A queue without an order is a bag for each value. Its history is linearizable exactly if each value's part is: the enqueues of the value
/// and the dequeues that have answered it. Dequeues that have not returned decide nothing.
pub fn bags_law()
    ensures { (value : ℕ → Option ℤ) (marks : List Mark) →
        AreWellFormed marks → AreValues value marks
        → IsLinearizable unordered_queue marks
        ↔ ((v : ℤ) → IsLinearizable unordered_queue (bag value v marks)) }
{}

/// A queue without an order by counts. Its history is linearizable under exactly this condition: at each moment no more dequeues have
/// answered a value than enqueues of it were invoked that never fail.
pub fn counts_law()
    ensures { (marks : List Mark) → AreWellFormed marks → AreQueueOperations marks
        → IsLinearizable unordered_queue marks ↔ NeverRunsOut marks }
{}

/// These operations of a queue without an order may be left out. First, dequeues. Then an enqueue and a dequeue of one value together, if
/// no more dequeues have answered the value before that one did than enqueues of it were invoked before that one. Last, an enqueue alone,
/// if no more dequeues have answered the value at all. The rest of a linearizable history is linearizable.
pub fn unordered_queue_law()
    ensures dequeues { (out : ℕ → Bool) (marks : List Mark) →
        AreWellFormed marks → AreQueueOperations marks → AreDequeues out marks
        → IsLinearizable unordered_queue marks
        → IsLinearizable unordered_queue (without out marks) }
    ensures pair { (marks : List Mark) (v : ℤ) (enqueue dequeue : ℕ) →
        AreWellFormed marks → AreQueueOperations marks → AreOfOneRank marks v enqueue dequeue
        → IsLinearizable unordered_queue marks
        → IsLinearizable unordered_queue (without (is_one_of enqueue dequeue) marks) }
    ensures alone { (marks : List Mark) (v : ℤ) (enqueue : ℕ) →
        AreWellFormed marks → AreQueueOperations marks → IsLeftOver marks v enqueue
        → IsLinearizable unordered_queue marks
        → IsLinearizable unordered_queue (without (λ id. nat_eq id enqueue) marks) }
{}

/// Several may be left out one after another. The conditions of the rules for a lock's pair and for last operations still hold after any
/// others are left out. Those for a pair of one rank, and for an enqueue of no dequeue's rank, in a queue without an order still hold after
/// another such pair or enqueue is left out.
pub fn rules_stay_law()
    ensures pair { (out : ℕ → Bool) (marks : List Mark) (name other : Name) (first second : ℕ) →
        IsFalse (out first) → IsFalse (out second) → IsPair marks name other first second
        → IsPair (without out marks) name other first second }
    ensures last { (out : ℕ → Bool) (marks : List Mark) (name other : Name) (id : ℕ) →
        IsFalse (out id) → IsLast marks name other id → IsLast (without out marks) name other id }
    ensures rank { (marks : List Mark) (v w : ℤ) (enqueue dequeue other taker : ℕ) →
        AreWellFormed marks → AreOfOneRank marks v enqueue dequeue
        → AreOfOneRank marks w other taker
        → IsFalse (is_one_of enqueue dequeue other) → IsFalse (is_one_of enqueue dequeue taker)
        → AreOfOneRank (without (is_one_of enqueue dequeue) marks) w other taker }
    ensures rank_alone { (marks : List Mark) (v w : ℤ) (enqueue other taker : ℕ) →
        AreWellFormed marks → IsLeftOver marks v enqueue → AreOfOneRank marks w other taker
        → other ≢ enqueue → taker ≢ enqueue
        → AreOfOneRank (without (λ id. nat_eq id enqueue) marks) w other taker }
    ensures alone { (marks : List Mark) (v w : ℤ) (enqueue dequeue other : ℕ) →
        AreWellFormed marks → AreOfOneRank marks v enqueue dequeue → IsLeftOver marks w other
        → IsFalse (is_one_of enqueue dequeue other)
        → IsLeftOver (without (is_one_of enqueue dequeue) marks) w other }
    ensures alone_alone { (marks : List Mark) (v w : ℤ) (enqueue other : ℕ) →
        AreWellFormed marks → IsLeftOver marks v enqueue → IsLeftOver marks w other
        → other ≢ enqueue
        → IsLeftOver (without (λ id. nat_eq id enqueue) marks) w other }
{}

/// How operations are numbered decides nothing: a history is linearizable exactly if it is so with other numbers, no two
/// the same.
pub fn renaming_law()
    ensures one { (kind : ModelKind) (name : ℕ → ℕ) (marks : List Mark) → IsOneToOne name
        → IsLinearizable (object_of kind) marks
        ↔ IsLinearizable (object_of kind) (renamed name marks) }
    ensures all { (kinds : ℕ → ModelKind) (name : ℕ → ℕ) (marks : List Mark) → IsOneToOne name
        → IsLinearizable (product kinds) marks ↔ IsLinearizable (product kinds) (renamed name marks) }
{}

/// How an illegal part and an order determine the event. Let the events before an event be linearizable. Let a part of the events up to it
/// not be, though it would be if the whole were. Then the history becomes illegal at this event.
pub fn illegal_at_law()
    ensures one { (kind other : ModelKind) (entries before : List Entry) (last : Entry)
        (part : List Mark) →
        AreWellFormed (marks entries) → IsPrefixOf (before ++ last ∷ []) entries
        → IsLinearizable (object_of kind) (marks before)
        → (IsLinearizable (object_of kind) (marks (before ++ last ∷ []))
        → IsLinearizable (object_of other) part)
        → ¬ IsLinearizable (object_of other) part
        → EndsShortestBadPrefix (object_of kind) entries last }
    ensures all { (kinds : ℕ → ModelKind) (other : ModelKind) (entries before : List Entry)
        (last : Entry) (part : List Mark) →
        AreWellFormed (marks entries) → IsPrefixOf (before ++ last ∷ []) entries
        → IsLinearizable (product kinds) (marks before)
        → (IsLinearizable (product kinds) (marks (before ++ last ∷ []))
        → IsLinearizable (object_of other) part)
        → ¬ IsLinearizable (object_of other) part
        → EndsShortestBadPrefix (product kinds) entries last }
{}
