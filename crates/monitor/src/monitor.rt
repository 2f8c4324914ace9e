//! The monitor.
ghost use Rattle.std.specs.Prelude.{◌≡◌, ℕ, ◌<◌, ◌≤◌, false, Some, None, length, nat_eq, position, slice_get, IfOk, IfErr, IfSome, IsSome, OnOk, OnErr, IsErrOf};
ghost use Rattle.events.specs.Events.{key_of};
ghost use Rattle.history.specs.WellFormed.{IsConcurrency};
ghost use Rattle.linspec.specs.declared.verdict.Verdict.{Verdict};
ghost use Rattle.linspec.specs.KeyHistory.{IsStatusOf};
ghost use Rattle.linspec.specs.JudgedHistory.{IsVerdictOn, with_event, rewound, with_kind, with_budget, IsBudget, opening_of, keys_in_order, history_of_key, kind_of, budget_of};
ghost use Rattle.monitor.specs.Monitors.{at_rest, with_next, with_again, again_by, FewAgain, Admits, MayDecline, MayNotBegin, MayNotRewind, MayNotSetBudget, PreparesAppend, replays_by, loses_by};
ghost use Rattle.monitor.specs.Rows.{nows};
ghost use Rattle.monitor.specs.Judged.{rows_of, IsJudged};
ghost use Rattle.monitor.specs.Loading.{with_all};
ghost use Rattle.monitor.specs.Settings.{with_setting};

use crate::fronts::judged_prefixes_law;
use crate::laws::{judging_law, next_event_law};
use crate::line_changes::{commit_line, first_line, next_event, prepare_rebuild};
use crate::lines::Lines;
use crate::settings::{Setting, Settings};
use checkpoints::KeyLine;
use checkpoints::laws::final_status_law;
use edn::Refusal;
use events::Event;
use history::History;
use kinds::ModelKind;
use linspec::{KeyStatus, Verdict};
use locality::join_with;
use locality::laws::{bad_keys_law, no_keys_law};
use models::Key;
use std::alloc::{AllocError, Global};
use std::marker::Model;

/// The greatest budget.
pub const MOST_ENDS: u32 = 65_536;

/// The status of a key that has events.
#[derive(Clone, Copy)]
pub struct KeyRow {
    pub key: Key,
    pub kind: ModelKind,
    pub budget: u32,
    /// How many events the key has.
    pub events: usize,
    pub status: KeyStatus,
}

/// A change that may be committed, and the verdict that it brings.
#[derive(Drop)]
struct Prepared {
    change: Change,
    verdict: Verdict,
}

/// A change whose parts are prepared.
#[derive(Drop)]
enum Change {
    /// The history has an event more, which speaks of no operation.
    Fault,
    /// The history and the line at this place have an event more.
    Append(usize),
    /// The history has an event more, and the key its first one, in this line.
    Begin(Key, Box<KeyLine>),
    /// The history and the lines are cut at this length, after which this number of lines are left.
    Rewind(u32, usize),
    /// This is set for a key, and the line at this place, if it has events, is judged by it.
    Set(Key, Setting, Option<usize>),
}

/// The live monitor of a history of many keys, each an object by itself. It has the verdict on the present history, by the present kinds
/// and budgets of the keys. Linearizability is that of Herlihy and Wing (1990).
///
/// A key has the default kind and budget until another is set for it. The settings of a key without events are kept too, and outlive a
/// rewind.
///
/// Each change is prepared and then committed. A prepare may fail, and changes only the prepared change. A change that was prepared before
/// is dropped.
pub struct Monitor {
    alloc: Global,
    history: History,
    settings: Settings,
    lines: Lines,
    verdict: Verdict,
    judged_again: u64,
    prepared: Option<Prepared>,
}

impl Model for Monitor {
    ghost use Rattle.monitor.specs.Monitors.{MonitorView};

    ghost Value = { MonitorView };

    ghost use Rattle.monitor.specs.SoundMonitor.{monitor_view, IsSoundMonitor};

    ghost view = { monitor_view };

    ghost invariant = { IsSoundMonitor };
}

// So that crates above give one back by one call.
impl Drop for Monitor {
    fn drop(self) {
        let Monitor {
            alloc: _alloc,
            history: _history,
            settings: _settings,
            lines: _lines,
            verdict: _verdict,
            judged_again: _again,
            prepared: _prepared,
        } = self;
    }
}

impl Monitor {
    /// The monitor of no events, of threads 0 to `concurrency` - 1. Every key is an object of this kind, until another kind is set for it.
    /// An ok may find at most `budget` ends of its key just before it, until another budget is set for the key. It costs O(threads).
    ///
    /// # Errors
    /// [`Refusal::BadBudget`] if the budget is not 1 to 65,536, else [`Refusal::BadConcurrency`] if the concurrency is
    /// not 1 to 64, else [`Refusal::NoMemory`] if an allocation fails.
    pub fn new(
        alloc: Global,
        concurrency: u32,
        kind: ModelKind,
        budget: u32,
    ) -> Result<Monitor, Refusal>
        ensures limits { OnOk result (IsBudget budget × IsConcurrency concurrency) }
        ensures opened { IfOk result (λ monitor.
            monitor ≡ at_rest (opening_of concurrency kind budget) 0) }
        ensures refused { IfErr result (MayNotBegin concurrency budget) }
    {
        test_budget(budget)?;
        judging_law();
        no_keys_law();
        let history = History::new(alloc, concurrency)?;
        let lines = Lines::new(alloc);
        Ok(Self::of_lines(alloc, history, kind, budget, lines, Verdict::Legal))
    }

    // The monitor of a history whose keys have these lines, all of this kind and budget, and this verdict.
    pub(crate) fn of_lines(
        alloc: Global,
        history: History,
        kind: ModelKind,
        budget: u32,
        lines: Lines,
        verdict: Verdict,
    ) -> Monitor
        requires { IsJudged (with_all history.concurrency kind budget history.events)
            (nows lines.rows) verdict }
        ensures { result ≡ at_rest (with_all history.concurrency kind budget history.events) 0 }
    {
        Monitor {
            alloc,
            history,
            settings: Settings::new(alloc, kind, budget),
            lines,
            verdict,
            judged_again: 0,
            prepared: None,
        }
    }

    /// Prepares to append an event, and returns the verdict after [`commit`](Self::commit). Costs [`KeyLine::prepare_push`] for the event's
    /// own key, for any number of keys.
    ///
    /// # Errors
    /// The refusals of [`History::prepare_push`], in their order: [`Refusal::NoMemory`] last. Then nothing is prepared.
    pub fn prepare_append(&mut self, event: Event) -> Result<Verdict, Refusal>
        ensures well_formed { OnOk result (Admits self.old.now event) }
        ensures prepared { OnOk result
            (self.new ≡ with_next (with_event event self.old.now) self.old) }
        ensures verdict { IfOk result (IsVerdictOn (with_event event self.old.now)) }
        ensures refused { IfErr result (MayDecline self.old.now event) }
        ensures memory_last { IsErrOf result Refusal.NoMemory → Admits self.old.now event }
        ensures err { OnErr result (self.new ≡ at_rest self.old.now self.old.judged_again) }
    {
        let Some(key) = event.key() else {
            return self.prepare_fault(event);
        };
        match self.lines.find(key) {
            Some(place) => self.prepare_next(key, place, event),
            None => self.prepare_first(key, event),
        }
    }

    /// Prepares to keep the first `n` events alone, and gives the verdict that [`commit`](Self::commit) will bring. Kinds and budgets stay.
    /// It judges again fewer than 64 events of each key that loses events, and none of any other. It costs O(n + keys with events), and a
    /// cut of the line of each key that loses events (see [`KeyLine::prepare_cut`]).
    ///
    /// # Errors
    /// [`Refusal::NoSuchIndex`] if there are fewer events; else [`Refusal::NoMemory`] if an allocation fails. Then
    /// nothing is prepared.
    pub fn prepare_rewind(&mut self, n: u32) -> Result<Verdict, Refusal>
        ensures within { OnOk result (n ≤ length self.old.now.events) }
        ensures prepared { OnOk result (self.new
            ≡ with_next (rewound n self.old.now) (with_again (again_by n self.old.now) self.old)) }
        ensures few { OnOk result (FewAgain n self.old self.new) }
        ensures verdict { IfOk result (IsVerdictOn (rewound n self.old.now)) }
        ensures refused { IfErr result (MayNotRewind self.old.now n) }
        ensures memory_last { IsErrOf result Refusal.NoMemory →
            n ≤ length self.old.now.events }
        ensures err { OnErr result (self.new ≡ at_rest self.old.now self.old.judged_again) }
    {
        self.prepared = None;
        judging_law();
        self.history.prepare_cut(n)?;
        let mut judged_again = self.judged_again;
        let (kept, verdict) = self
            .lines
            .prepare_cut(n, self.history.events(), &mut judged_again)?;
        self.judged_again = judged_again;
        let change = Change::Rewind(n, kept);
        self.prepared = Some(Prepared { change, verdict });
        Ok(verdict)
    }

    /// Prepares that a key is an object of this kind, and gives the verdict that [`commit`](Self::commit) will bring. It costs O(keys with
    /// events), and a rebuild of the key's line (see [`KeyLine::prepare_rebuild`]); constant time if the key has no events.
    ///
    /// # Errors
    /// `AllocError` if an allocation fails. Then nothing is prepared.
    pub fn prepare_model(&mut self, key: Key, kind: ModelKind) -> Result<Verdict, AllocError>
        ensures prepared { OnOk result (self.new ≡ with_next (with_kind key kind self.old.now)
            (with_again (length (history_of_key self.old.now key).events) self.old)) }
        ensures verdict { IfOk result (IsVerdictOn (with_kind key kind self.old.now)) }
        ensures err { OnErr result (self.new ≡ at_rest self.old.now self.old.judged_again) }
    {
        self.prepare_set(key, Setting::Kind(kind))
    }

    /// Prepares that a key has this budget, and gives the verdict that [`commit`](Self::commit) will bring. It costs what
    /// [`prepare_model`](Self::prepare_model) does.
    ///
    /// # Errors
    /// [`Refusal::BadBudget`] if the budget is not 1 to 65,536; else [`Refusal::NoMemory`] if an allocation fails.
    /// Then nothing is prepared.
    pub fn prepare_budget(&mut self, key: Key, n: u32) -> Result<Verdict, Refusal>
        ensures within { OnOk result (IsBudget n) }
        ensures prepared { OnOk result (self.new ≡ with_next (with_budget key n self.old.now)
            (with_again (length (history_of_key self.old.now key).events) self.old)) }
        ensures verdict { IfOk result (IsVerdictOn (with_budget key n self.old.now)) }
        ensures refused { IfErr result (MayNotSetBudget n) }
        ensures memory_last { IsErrOf result Refusal.NoMemory → IsBudget n }
        ensures err { OnErr result (self.new ≡ at_rest self.old.now self.old.judged_again) }
    {
        self.prepared = None;
        test_budget(n)?;
        Ok(self.prepare_set(key, Setting::Budget(n))?)
    }

    /// Carries out what is prepared. It takes no memory and cannot fail.
    pub fn commit(&mut self)
        requires { IsSome self.old.next }
        ensures { IfSome self.old.next (λ next. self.new ≡ at_rest next self.old.judged_again) }
    {
        let Some(prepared) = self.prepared.take() else {
            unreachable!()
        };
        let Prepared { change, verdict } = prepared;
        self.verdict = verdict;
        match change {
            Change::Fault => self.history.commit(),
            Change::Append(place) => {
                self.history.commit();
                commit_line(&mut self.lines, Some(place));
            }
            Change::Begin(key, line) => {
                self.history.commit();
                self.lines.add(key, Box::into_inner(line));
            }
            Change::Rewind(n, kept) => {
                self.history.commit();
                self.lines.commit_cut(n, kept);
            }
            Change::Set(key, setting, place) => {
                self.settings.put(key, setting);
                commit_line(&mut self.lines, place);
            }
        }
    }

    /// Appends an event: [`prepare_append`](Self::prepare_append) and [`commit`](Self::commit) in one. Gives the verdict.
    ///
    /// # Errors
    /// Those of [`prepare_append`](Self::prepare_append); the judged history is then as before, and nothing is prepared.
    pub fn append(&mut self, event: Event) -> Result<Verdict, Refusal>
        ensures well_formed { OnOk result (Admits self.old.now event) }
        ensures appended { OnOk result
            (self.new ≡ at_rest (with_event event self.old.now) self.old.judged_again) }
        ensures verdict { IfOk result (IsVerdictOn (with_event event self.old.now)) }
        ensures refused { IfErr result (MayDecline self.old.now event) }
        ensures memory_last { IsErrOf result Refusal.NoMemory → Admits self.old.now event }
        ensures err { OnErr result (self.new ≡ at_rest self.old.now self.old.judged_again) }
    {
        let verdict = self.prepare_append(event)?;
        self.commit();
        Ok(verdict)
    }

    /// Keeps the first `n` events alone: [`prepare_rewind`](Self::prepare_rewind) and [`commit`](Self::commit) in one. Gives
    /// the verdict.
    ///
    /// # Errors
    /// Those of [`prepare_rewind`](Self::prepare_rewind); the judged history is then as before, and nothing is prepared.
    pub fn rewind(&mut self, n: u32) -> Result<Verdict, Refusal>
        ensures within { OnOk result (n ≤ length self.old.now.events) }
        ensures rewound { OnOk result (self.new
            ≡ with_again (again_by n self.old.now) (at_rest (rewound n self.old.now) self.old.judged_again)) }
        ensures few { OnOk result (FewAgain n self.old self.new) }
        ensures verdict { IfOk result (IsVerdictOn (rewound n self.old.now)) }
        ensures refused { IfErr result (MayNotRewind self.old.now n) }
        ensures memory_last { IsErrOf result Refusal.NoMemory →
            n ≤ length self.old.now.events }
        ensures err { OnErr result (self.new ≡ at_rest self.old.now self.old.judged_again) }
    {
        let verdict = self.prepare_rewind(n)?;
        self.commit();
        Ok(verdict)
    }

    /// Makes a key an object of this kind: [`prepare_model`](Self::prepare_model) and [`commit`](Self::commit) in one. Gives
    /// the verdict.
    ///
    /// # Errors
    /// `AllocError` if an allocation fails; the judged history is then as before, and nothing is prepared.
    pub fn set_model(&mut self, key: Key, kind: ModelKind) -> Result<Verdict, AllocError>
        ensures set { OnOk result (self.new ≡ with_again (length (history_of_key self.old.now key).events)
            (at_rest (with_kind key kind self.old.now) self.old.judged_again)) }
        ensures verdict { IfOk result (IsVerdictOn (with_kind key kind self.old.now)) }
        ensures err { OnErr result (self.new ≡ at_rest self.old.now self.old.judged_again) }
    {
        let verdict = self.prepare_model(key, kind)?;
        self.commit();
        Ok(verdict)
    }

    /// Sets the budget of a key: [`prepare_budget`](Self::prepare_budget) and [`commit`](Self::commit) in one. Gives the
    /// verdict.
    ///
    /// # Errors
    /// Those of [`prepare_budget`](Self::prepare_budget); the judged history is then as before, and nothing is prepared.
    pub fn set_budget(&mut self, key: Key, n: u32) -> Result<Verdict, Refusal>
        ensures within { OnOk result (IsBudget n) }
        ensures set { OnOk result (self.new ≡ with_again (length (history_of_key self.old.now key).events)
            (at_rest (with_budget key n self.old.now) self.old.judged_again)) }
        ensures verdict { IfOk result (IsVerdictOn (with_budget key n self.old.now)) }
        ensures refused { IfErr result (MayNotSetBudget n) }
        ensures memory_last { IsErrOf result Refusal.NoMemory → IsBudget n }
        ensures err { OnErr result (self.new ≡ at_rest self.old.now self.old.judged_again) }
    {
        let verdict = self.prepare_budget(key, n)?;
        self.commit();
        Ok(verdict)
    }

    /// The verdict on the present history. Takes constant time.
    pub fn verdict(&self) -> Verdict
        ensures { IsVerdictOn self.now.now result }
    {
        self.verdict
    }

    /// The history has a verdict at each length: the one that a rewind to it would give. Does nothing.
    pub fn some_verdicts(&self)
        ensures { (n : ℕ) → (v : Verdict) × IsVerdictOn (rewound n self.now.now) v }
    {
        judged_prefixes_law();
        // So that the prover takes the invariant, which speaks of the verdict.
        let _verdict = self.verdict;
    }

    /// The present history.
    pub fn history(&self) -> &History
        ensures events { result.now.events ≡ self.now.now.events }
        ensures concurrency { result.now.concurrency ≡ self.now.now.concurrency }
    {
        &self.history
    }

    /// The lines of the keys that have events, by first event. Each has the number of its replays so far, including each event that was
    /// pushed ([`KeyLine::replayed`]).
    pub fn lines(&self) -> &Lines
        ensures { nows result.now.rows ≡ rows_of self.now.now }
    {
        &self.lines
    }

    /// How many keys have events.
    pub fn key_count(&self) -> usize
        ensures { result ≡ length (keys_in_order self.now.now.events) }
    {
        self.lines.len()
    }

    /// The `i`-th key by first event: its kind, its budget, the number of its events, and its status.
    pub fn key_at(&self, i: usize) -> KeyRow
        requires { i < length (keys_in_order self.now.now.events) }
        ensures key { slice_get (keys_in_order self.now.now.events) i ≡ Some result.key }
        ensures kind { result.kind ≡ kind_of self.now.now result.key }
        ensures budget { result.budget ≡ budget_of self.now.now result.key }
        ensures events { result.events ≡ length (history_of_key self.now.now result.key).events }
        ensures status { IsStatusOf (history_of_key self.now.now result.key) result.status }
    {
        let (key, line) = self.lines.key_and_line(i);
        KeyRow {
            key,
            kind: self.settings.kind_of(key),
            budget: self.settings.budget_of(key),
            events: line.len(),
            status: line.status(),
        }
    }

    /// How many events of the key were judged again for the rewind that is prepared: fewer than 64 if the key loses events, and none if
    /// it does not. The judge of the key gets each of them, from the last state on that was saved before the cut. 0 if another change is
    /// prepared, or none. [`commit`](Self::commit) judges nothing again.
    pub fn replays(&self, key: Key) -> u64
        ensures counted { IfSome self.now.next (λ next.
            result ≡ replays_by self.now.now next key) }
        ensures few { result < 64 }
        ensures none { IfSome self.now.next (λ next.
            loses_by self.now.now next key ≡ false → result ≡ 0) }
    {
        let Some(prepared) = &self.prepared else {
            return 0;
        };
        let Change::Rewind(n, _) = &prepared.change else {
            return 0;
        };
        match self.lines.find(key) {
            Some(place) => self.lines.replays_at(place, *n),
            None => 0,
        }
    }

    /// How many events were judged again so far, by prepared changes, whether these were carried out or dropped. A rewind judges fewer than
    /// 64 events of each key that loses events, and none of others. Another kind or budget judges all of the key. A change for which memory
    /// was refused is not counted. It stops at the greatest `u64`.
    pub fn judged_again(&self) -> u64
        ensures { result ≡ self.now.judged_again }
    {
        let count = self.judged_again;
        count
    }

    // Prepares that an event comes next that speaks of no operation: no line sees it, and the verdict stays.
    fn prepare_fault(&mut self, event: Event) -> Result<Verdict, Refusal>
        requires { key_of event ≡ None }
        ensures { PreparesAppend self.old self.new event result }
    {
        self.prepared = None;
        judging_law();
        self.history.prepare_push(event)?;
        let (change, verdict) = (Change::Fault, self.verdict);
        self.prepared = Some(Prepared { change, verdict });
        Ok(verdict)
    }

    // Prepares that an event comes next, of a key that has the line at this place.
    fn prepare_next(&mut self, key: Key, place: usize, event: Event) -> Result<Verdict, Refusal>
        requires key { key_of event ≡ Some key }
        requires place { position (nat_eq key) (keys_in_order self.old.now.events) ≡ Some place }
        ensures { PreparesAppend self.old self.new event result }
    {
        self.prepared = None;
        judging_law();
        next_event_law();
        final_status_law();
        bad_keys_law();
        let index = self.history.len();
        self.history.prepare_push(event)?;
        let event = next_event(&self.history);
        let status = self.lines.prepare_push(place, index, event)?;
        let verdict = join_with(self.verdict, key, status);
        let change = Change::Append(place);
        self.prepared = Some(Prepared { change, verdict });
        Ok(verdict)
    }

    // Prepares that an event comes next, the first one of its key.
    fn prepare_first(&mut self, key: Key, event: Event) -> Result<Verdict, Refusal>
        requires key { key_of event ≡ Some key }
        requires new { position (nat_eq key) (keys_in_order self.old.now.events) ≡ None }
        ensures { PreparesAppend self.old self.new event result }
    {
        self.prepared = None;
        judging_law();
        next_event_law();
        let kind = self.settings.kind_of(key);
        let budget = self.settings.budget_of(key);
        let index = self.history.len();
        self.history.prepare_push(event)?;
        self.lines.reserve()?;
        let event = next_event(&self.history);
        let line = first_line(self.alloc, kind, budget, index, event)?;
        let verdict = join_with(self.verdict, key, line.status());
        let change = Change::Begin(key, line);
        self.prepared = Some(Prepared { change, verdict });
        Ok(verdict)
    }

    // Prepares that this is set for a key.
    fn prepare_set(&mut self, key: Key, setting: Setting) -> Result<Verdict, AllocError>
        ensures prepared { OnOk result (self.new ≡ with_next (with_setting key setting self.old.now)
            (with_again (length (history_of_key self.old.now key).events) self.old)) }
        ensures verdict { IfOk result (IsVerdictOn (with_setting key setting self.old.now)) }
        ensures err { OnErr result (self.new ≡ at_rest self.old.now self.old.judged_again) }
    {
        self.prepared = None;
        judging_law();
        let (kind, budget) = self.settings.prepare(key, setting)?;
        let place = self.lines.find(key);
        let borrowed = self.history.events();
        let mut judged_again = self.judged_again;
        let verdict = prepare_rebuild(
            &mut self.lines,
            self.verdict,
            place,
            kind,
            budget,
            borrowed,
            &mut judged_again,
        )?;
        self.judged_again = judged_again;
        let change = Change::Set(key, setting, place);
        self.prepared = Some(Prepared { change, verdict });
        Ok(verdict)
    }
}

// Tests that a budget is within its limits.
pub(crate) fn test_budget(budget: u32) -> Result<(), Refusal>
    ensures within { OnOk result (IsBudget budget) }
    ensures refused { IsErrOf result Refusal.BadBudget → ¬ IsBudget budget }
    ensures none_else { OnErr result (IsErrOf result Refusal.BadBudget) }
{
    if budget < 1 || budget > MOST_ENDS {
        return Err(Refusal::BadBudget);
    }
    Ok(())
}
