//! Laws of the order of the operations of a process.
ghost use Rattle.std.specs.Prelude.{◌≤◌, ◌<◌, ◌⊎◌, ℕ, List};
ghost use Rattle.std.specs.List.{Contains};
ghost use Rattle.kinds.specs.declared.model_kind.ModelKind.{ModelKind};
ghost use Rattle.events.specs.declared.event.Event.{Event};
ghost use Rattle.events.specs.Events.{entries_of, indexed_from, marks};
ghost use Rattle.events.specs.Events.Mark.{Failed, Crashed};
ghost use Rattle.history.specs.WellFormed.{IsHistoryOf};
ghost use Rattle.linspec.specs.Operations.{Precedes};
ghost use Rattle.linspec.specs.Orders.{Taken, Pairwise, IsLegalOrder, product};
ghost use Rattle.process_order.specs.ProcessOrder.{InvokesAt, IsOverBefore};

/// In a history each process is sequential (Herlihy and Wing 1990, section 2): an operation of a process has returned or failed before the
/// process invokes its next one. So it has failed, or it precedes all later operations of the process. A legal order has no failed
/// operation, so it keeps the order of each process. A process invokes nothing after an operation that crashed.
pub fn process_order_law()
    ensures sequential { (c : ℕ) (events : List Event) (p i j : ℕ) →
        0 < c → IsHistoryOf c events → InvokesAt events p i → InvokesAt events p j → i < j
        → IsOverBefore (marks (entries_of (indexed_from 0 events))) i j }
    ensures precedes { (c : ℕ) (events : List Event) (p i j : ℕ) →
        let all = marks (entries_of (indexed_from 0 events)) in
        0 < c → IsHistoryOf c events → InvokesAt events p i → InvokesAt events p j → i < j
        → Contains all (Failed i) ⊎ Precedes all i j }
    ensures keeps { (c : ℕ) (events : List Event) (kinds : ℕ → ModelKind) (order : List Taken)
        (s : (product kinds).State) →
        0 < c → IsHistoryOf c events
        → IsLegalOrder (product kinds) (marks (entries_of (indexed_from 0 events))) order s
        → Pairwise (λ x y. (p : ℕ) → InvokesAt events p x.id → InvokesAt events p y.id → x.id < y.id)
        order }
    ensures crashed { (c : ℕ) (events : List Event) (p i j : ℕ) →
        0 < c → IsHistoryOf c events → InvokesAt events p i → InvokesAt events p j
        → Contains (marks (entries_of (indexed_from 0 events))) (Crashed i) → j ≤ i }
{}
