//! Laws that show that the definitions say what they should.
ghost use Rattle.std.specs.Prelude.{◌≡◌, ◌↔◌, ℕ, ℤ, List};
ghost use Rattle.std.specs.List.{Contains};
ghost use Rattle.values.specs.Members.{IsAscending};
ghost use Rattle.edn.specs.Value.{Value};
ghost use Rattle.events.specs.Spelling.{ascending, Spells};
ghost use Rattle.events.specs.declared.event.Event.{Event};
ghost use Rattle.events.specs.Events.{entries_of, events_of_key, of_key};
ghost use Rattle.events.specs.ProcessRule.{IsHistory};

/// The events of one key are a history by themselves, and their entries are the key's entries: a key's own events alone determine the fates
/// of its operations.
pub fn key_events_law()
    ensures history { (key : ℕ) (events : List (ℕ × Event)) →
        IsHistory events → IsHistory (events_of_key key events) }
    ensures entries { (key : ℕ) (events : List (ℕ × Event)) → IsHistory events
        → entries_of (events_of_key key events) ≡ of_key key (entries_of events) }
{}

/// An element spells at most one event.
pub fn one_event()
    ensures { (v : Value) (e f : Event) → Spells v e → Spells v f → e ≡ f }
{}

/// A sorted list of integers ascends and has the same integers, for any order of the list.
pub fn order_of_a_set_says_nothing()
    ensures ascending { (zs : List ℤ) → IsAscending (ascending zs) }
    ensures members { (zs : List ℤ) (x : ℤ) → Contains (ascending zs) x ↔ Contains zs x }
{}
