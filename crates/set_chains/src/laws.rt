//! Laws of the history of a set by its answers.
ghost use Rattle.std.specs.Prelude.{◌≡◌, ◌↔◌, ℕ, ℤ, List, [], ◌∷◌, ◌++◌};
ghost use Rattle.std.specs.List.{Contains};
ghost use Rattle.models.specs.Objects.{set_of_numbers};
ghost use Rattle.models.specs.declared.operation.Name.TheVariants.{Read};
ghost use Rattle.models.specs.declared.operation.Part.TheVariants.{Nil};
ghost use Rattle.models.specs.declared.operation.Op.{Op};
ghost use Rattle.models.specs.declared.finding.Answer.{Answer};
ghost use Rattle.models.specs.declared.finding.Answer.TheVariants.{Many};
ghost use Rattle.events.specs.Events.{Mark, Entry, marks, of_key, IsPrefixOf};
ghost use Rattle.events.specs.Events.Mark.{Invoked, Returned, Failed, Crashed};
ghost use Rattle.linspec.specs.MarkRule.{AreWellFormed};
ghost use Rattle.linspec.specs.Orders.{IsLinearizable};
ghost use Rattle.linspec.specs.Verdicts.{EndsShortestBadPrefix};
ghost use Rattle.set_chains.specs.Chains.{IsChained, IsChainedByFirsts, IsAddOf, MayAnswer, MayFail};

/// A history of a set is linearizable exactly if it is chained: its answers form a chain, and each of them was possible in time. So is
/// the history of one key; and a chained history is one by the firsts of its values.
pub fn chains_law()
    ensures linearizable { (marks : List Mark) → AreWellFormed marks
        → IsLinearizable set_of_numbers marks → IsChained marks }
    ensures chained { (marks : List Mark) → AreWellFormed marks
        → IsChained marks → IsLinearizable set_of_numbers marks }
    ensures firsts { (marks : List Mark) → AreWellFormed marks → IsChained marks ↔ IsChainedByFirsts marks }
    ensures key { (entries : List Entry) (k : ℕ) → AreWellFormed (marks (of_key k entries))
        → IsLinearizable set_of_numbers (marks (of_key k entries))
        ↔ IsChained (marks (of_key k entries)) }
{}

/// The ok of an add keeps a history chained, whatever the operation adds.
pub fn ok_of_add_law()
    ensures { (marks : List Mark) (id : ℕ) (v : ℤ) (answer : Answer) →
        AreWellFormed (marks ++ Returned id answer ∷ []) → IsAddOf marks id v → IsChained marks
        → IsChained (marks ++ Returned id answer ∷ []) }
{}

/// A history is chained with the ok of a read exactly if it was chained before and the read may answer so now.
pub fn ok_of_read_law()
    ensures { (marks : List Mark) (id : ℕ) (op : Op) (members : List ℤ) →
        AreWellFormed (marks ++ Returned id (Many members) ∷ []) → Contains marks (Invoked id op)
        → op.name ≡ Read → op.part ≡ Nil
        → IsChained (marks ++ Returned id (Many members) ∷ [])
        ↔ (IsChained marks × MayAnswer marks id members) }
{}

/// An invocation and an info change nothing. A history is chained with a fail exactly if it was chained before and the operation may fail
/// now.
pub fn other_events_law()
    ensures invoke { (marks : List Mark) (id : ℕ) (op : Op) →
        AreWellFormed (marks ++ Invoked id op ∷ [])
        → IsChained (marks ++ Invoked id op ∷ []) ↔ IsChained marks }
    ensures info { (marks : List Mark) (id : ℕ) → AreWellFormed (marks ++ Crashed id ∷ [])
        → IsChained (marks ++ Crashed id ∷ []) ↔ IsChained marks }
    ensures fail { (marks : List Mark) (id : ℕ) → AreWellFormed (marks ++ Failed id ∷ [])
        → IsChained (marks ++ Failed id ∷ []) ↔ (IsChained marks × MayFail marks id) }
{}

/// The history of a set becomes illegal at the event at which it stops being chained.
pub fn illegal_at_law()
    ensures { (entries : List Entry) (last : Entry) → AreWellFormed (marks entries)
        → EndsShortestBadPrefix set_of_numbers entries last
        ↔ ((before : List Entry) × IsPrefixOf (before ++ last ∷ []) entries × IsChained (marks before)
        × (¬ IsChained (marks (before ++ last ∷ [])))) }
{}
