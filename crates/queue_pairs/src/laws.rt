//! Laws of the history of a queue by its answers.
ghost use Rattle.std.specs.Prelude.{◌≢◌, ◌↔◌, ℕ, ℤ, List, [], ◌∷◌, ◌++◌};
ghost use Rattle.std.specs.List.{Contains};
ghost use Rattle.models.specs.Objects.{fifo_queue};
ghost use Rattle.models.specs.declared.operation.Op.{Op};
ghost use Rattle.models.specs.declared.finding.Answer.{Answer};
ghost use Rattle.models.specs.declared.finding.Answer.TheVariants.{Number};
ghost use Rattle.events.specs.Events.{Mark, Entry, marks, of_key, IsPrefixOf};
ghost use Rattle.events.specs.Events.Mark.{Invoked, Returned, Failed, Crashed};
ghost use Rattle.linspec.specs.MarkRule.{AreWellFormed};
ghost use Rattle.linspec.specs.Orders.{IsLinearizable};
ghost use Rattle.linspec.specs.Ends.{IsWithinBudgetBy};
ghost use Rattle.linspec.specs.Verdicts.{EndsShortestBadPrefix};
ghost use Rattle.linspec.specs.Twins.{Enqueues, IsEnqueueOf, HasTwins, CountsTwins};
ghost use Rattle.queue_pairs.specs.Pairs.{Dequeues, IsPaired, TwinsAreLate, TwinsAreAlwaysLate, MayTake, MayFail};

/// A history of a queue whose values differ is linearizable exactly if it is paired. Then each dequeued value was enqueued in time, once
/// and in turn, and each value that was passed over has a taker. So is the history of one key. An enqueue of a value that is there already
/// may stand in it, as long as no ok came after it.
pub fn pairs_law()
    ensures linearizable { (marks : List Mark) → AreWellFormed marks → TwinsAreLate marks
        → IsLinearizable fifo_queue marks → IsPaired marks }
    ensures paired { (marks : List Mark) → AreWellFormed marks → TwinsAreLate marks
        → IsPaired marks → IsLinearizable fifo_queue marks }
    ensures key { (entries : List Entry) (k : ℕ) → AreWellFormed (marks (of_key k entries))
        → TwinsAreLate (marks (of_key k entries))
        → IsLinearizable fifo_queue (marks (of_key k entries))
        ↔ IsPaired (marks (of_key k entries)) }
{}

/// The ok of an enqueue changes nothing, whatever it answers.
pub fn ok_of_enqueue_law()
    ensures { (marks : List Mark) (id : ℕ) (v : ℤ) (answer : Answer) →
        AreWellFormed (marks ++ Returned id answer ∷ []) → IsEnqueueOf marks id v
        → IsPaired (marks ++ Returned id answer ∷ []) ↔ IsPaired marks }
{}

/// A history is paired with the ok of a dequeue exactly if it was paired before and the dequeue may take this value now.
pub fn ok_of_dequeue_law()
    ensures { (marks : List Mark) (id : ℕ) (op : Op) (v : ℤ) →
        AreWellFormed (marks ++ Returned id (Number v) ∷ []) → Contains marks (Invoked id op)
        → Dequeues op
        → IsPaired (marks ++ Returned id (Number v) ∷ []) ↔ (IsPaired marks × MayTake marks id v) }
{}

/// After another ok no history is paired: the operation enqueues no value, and dequeues none that it answers.
pub fn other_oks_law()
    ensures { (marks : List Mark) (id : ℕ) (op : Op) (answer : Answer) →
        AreWellFormed (marks ++ Returned id answer ∷ []) → Contains marks (Invoked id op)
        → ((v : ℤ) → ¬ Enqueues op v) → ((v : ℤ) → Dequeues op → answer ≢ Number v)
        → ¬ IsPaired (marks ++ Returned id answer ∷ []) }
{}

/// An invocation and an info change nothing. A history is paired with a fail exactly if it was paired before and the operation may fail
/// now.
pub fn other_events_law()
    ensures invoke { (marks : List Mark) (id : ℕ) (op : Op) →
        AreWellFormed (marks ++ Invoked id op ∷ [])
        → IsPaired (marks ++ Invoked id op ∷ []) ↔ IsPaired marks }
    ensures info { (marks : List Mark) (id : ℕ) → AreWellFormed (marks ++ Crashed id ∷ [])
        → IsPaired (marks ++ Crashed id ∷ []) ↔ IsPaired marks }
    ensures fail { (marks : List Mark) (id : ℕ) → AreWellFormed (marks ++ Failed id ∷ [])
        → TwinsAreLate marks
        → IsPaired (marks ++ Failed id ∷ []) ↔ (IsPaired marks × MayFail marks id) }
{}

/// Twins are late where there are none, and stay late at each event other than an ok. An ok makes no twins.
pub fn twins_law()
    ensures none { (marks : List Mark) → (¬ HasTwins marks) → TwinsAreLate marks }
    ensures stay { (marks : List Mark) (m : Mark) → AreWellFormed (marks ++ m ∷ [])
        → ((id : ℕ) (answer : Answer) → m ≢ Returned id answer) → TwinsAreLate marks
        → TwinsAreLate (marks ++ m ∷ []) }
    ensures ok { (marks : List Mark) (id : ℕ) (answer : Answer) →
        AreWellFormed (marks ++ Returned id answer ∷ []) → (¬ HasTwins marks)
        → ¬ HasTwins (marks ++ Returned id answer ∷ []) }
{}

/// The history of a queue becomes illegal at the event at which it stops being paired. This holds if twins were late after each event, and
/// if no ok found the history linearizable with twins.
pub fn illegal_at_law()
    ensures late { (entries : List Entry) (last : Entry) → AreWellFormed (marks entries)
        → TwinsAreAlwaysLate entries
        → EndsShortestBadPrefix fifo_queue entries last
        ↔ ((before : List Entry) × IsPrefixOf (before ++ last ∷ []) entries × IsPaired (marks before)
        × (¬ IsPaired (marks (before ++ last ∷ [])))) }
    ensures within { (entries : List Entry) (budget : ℕ) (last : Entry) → AreWellFormed (marks entries)
        → IsWithinBudgetBy CountsTwins budget entries
        → EndsShortestBadPrefix fifo_queue entries last
        ↔ ((before : List Entry) × IsPrefixOf (before ++ last ∷ []) entries × IsPaired (marks before)
        × (¬ IsPaired (marks (before ++ last ∷ [])))) }
{}
