//! Events as they are spelled in texts.
ghost use Rattle.std.specs.Prelude.{◌≡◌, ◌↔◌, option_map, IsTrue, IsErr, IfOk, IfErr, IsErrOf};
ghost use Rattle.std.specs.Option.{option_copied};
ghost use Rattle.edn.specs.View.{value_of};
ghost use Rattle.edn.specs.Value.{keyword};
ghost use Rattle.events.specs.Spelling.{SpellsIndex, SpellsKind, SpellsProcess, SpellsName, SpellsPart, SpellsOp, text_of_fault, fault_by, MayTell, SpellsFault, SpellsBody, SpellsHead, SpellsAbout, Spells, WhyUnspelled, FindsAllowed};
ghost use Rattle.events.specs.Tables.{IsPartOf, IsFault, IsInTables};
ghost use Rattle.events.specs.declared.event.Event.{Event};
ghost use Rattle.events.specs.declared.event.Body.{Body};
ghost use Rattle.events.specs.declared.event.Fault.{Fault};
ghost use Rattle.models.specs.declared.operation.Op.{Op};
ghost use Rattle.models.specs.declared.operation.Part.{Part};
ghost use Rattle.models.specs.Names.{Finds};

use crate::collections::{are_groups, byte_of, count_of, groups_of, set_of};
use crate::elements::{integers_of, key_of, number_of, two_of};
use crate::event::{Body, Event, EventKind, Fault, Process};
use crate::fault_kind::FaultKind;
use crate::tables::{is_in_tables, takes_sets};
use edn::{Edn, Refusal};
use models::{Name, Op, Part};
use std::alloc::{AllocError, Global};

fn index_of(found: Option<&Edn>) -> Option<Option<u32>>
    ensures { Finds result (SpellsIndex (option_map value_of (option_copied found.entry))) }
{
    match found {
        None => Some(None),
        Some(element) => Some(Some(number_of(element)?)),
    }
}

fn event_kind_of(element: &Edn) -> Option<EventKind>
    ensures { Finds result (SpellsKind (value_of element.now)) }
{
    let name = element.as_keyword()?;
    if name == "invoke" {
        return Some(EventKind::Invoke);
    }
    if name == "ok" {
        return Some(EventKind::Ok);
    }
    if name == "fail" {
        return Some(EventKind::Fail);
    }
    if name == "info" {
        return Some(EventKind::Info);
    }
    None
}

fn process_of(element: &Edn) -> Option<Process>
    ensures { Finds result (SpellsProcess (value_of element.now)) }
{
    if let Some(name) = element.as_keyword() {
        return (name == "nemesis").then_some(Process::Nemesis);
    }
    Some(Process::Client(number_of(element)?))
}

fn operation_name_of(element: &Edn) -> Option<Name>
    ensures { Finds result (SpellsName (value_of element.now)) }
{
    Name::of_text(element.as_keyword()?)
}

fn part_of(
    alloc: Global,
    kind: EventKind,
    name: Name,
    element: &Edn,
) -> Result<Option<Part>, AllocError>
    ensures found { IfOk result (λ found.
        FindsAllowed found (SpellsPart (value_of element.now)) (IsPartOf kind name)) }
    ensures memory_last { IsErr result →
        (part : Part) × SpellsPart (value_of element.now) part × IsPartOf kind name part }
{
    if element.is_nil() {
        return Ok(Some(Part::Nil));
    }
    if let Some(a) = element.as_int() {
        return Ok(Some(Part::Int(a)));
    }
    if let Some((a, b)) = integers_of(element) {
        return Ok(Some(Part::Pair(a, b)));
    }
    if !takes_sets(alloc, kind, name) {
        return Ok(None);
    }
    let Some(members) = set_of(alloc, element)? else {
        return Ok(None);
    };
    Ok(Some(Part::Set(members)))
}

fn operation_of(
    alloc: Global,
    kind: EventKind,
    name: &Edn,
    value: &Edn,
) -> Result<Option<Op>, AllocError>
    ensures found { IfOk result (λ found. FindsAllowed found
        (SpellsOp (value_of name.now) (value_of value.now)) (λ op. IsPartOf kind op.name op.part)) }
    ensures memory_last { IsErr result → (op : Op)
        × SpellsOp (value_of name.now) (value_of value.now) op × IsPartOf kind op.name op.part }
{
    let Some(name) = operation_name_of(name) else {
        return Ok(None);
    };
    let Some((key, part)) = two_of(value) else {
        return Ok(None);
    };
    let Some(key) = key_of(key) else {
        return Ok(None);
    };
    let Some(part) = part_of(alloc, kind, name, part)? else {
        return Ok(None);
    };
    Ok(Some(Op { name, key, part }))
}

fn fault_kind_of(name: &Edn) -> Option<FaultKind>
    ensures { Finds result (λ kind. value_of name.now ≡ keyword (text_of_fault kind)) }
{
    FaultKind::of_text(name.as_keyword()?)
}

// The fault of this kind that the value spells. A partition alone takes memory.
fn fault_by(alloc: Global, kind: FaultKind, value: &Edn) -> Result<Option<Fault>, AllocError>
    ensures found { IfOk result (λ found. found ≡ fault_by kind (value_of value.now)) }
    ensures partition { IsErr result → kind ≡ FaultKind.Partition }
{
    match kind {
        FaultKind::Partition => Ok(groups_of(alloc, value)?.map(Fault::Partition)),
        FaultKind::Heal => Ok(value.is_nil().then_some(Fault::Heal)),
        FaultKind::Pause => Ok(byte_of(value).map(Fault::Pause)),
        FaultKind::Resume => Ok(byte_of(value).map(Fault::Resume)),
        FaultKind::Crash => Ok(byte_of(value).map(Fault::Crash)),
        FaultKind::Restart => Ok(byte_of(value).map(Fault::Restart)),
        FaultKind::LoseReplies => Ok(count_of(value).map(Fault::LoseReplies)),
    }
}

// Whether the value spells groups that are apart, if the fault is a partition.
fn may_tell(kind: FaultKind, value: &Edn) -> bool
    ensures { IsTrue result ↔ MayTell kind (value_of value.now) }
{
    match kind {
        FaultKind::Partition => are_groups(value),
        _ => true,
    }
}

fn fault_of(alloc: Global, name: &Edn, value: &Edn) -> Result<Option<Fault>, AllocError>
    ensures found { IfOk result (λ found. FindsAllowed found
        (SpellsFault (value_of name.now) (value_of value.now)) IsFault) }
    ensures memory_last { IsErr result → (fault : Fault)
        × SpellsFault (value_of name.now) (value_of value.now) fault × IsFault fault }
{
    let Some(kind) = fault_kind_of(name) else {
        return Ok(None);
    };
    if !may_tell(kind, value) {
        return Ok(None);
    }
    fault_by(alloc, kind, value)
}

fn body_of(
    alloc: Global,
    kind: EventKind,
    process: Process,
    name: &Edn,
    value: &Edn,
) -> Result<Option<Body>, AllocError>
    ensures found { IfOk result (λ found. FindsAllowed found
        (SpellsBody process (value_of name.now) (value_of value.now)) (IsInTables kind process)) }
    ensures memory_last { IsErr result → (body : Body)
        × SpellsBody process (value_of name.now) (value_of value.now) body
        × IsInTables kind process body }
{
    match process {
        Process::Client(_) => Ok(operation_of(alloc, kind, name, value)?.map(Body::Op)),
        Process::Nemesis => {
            if !matches!(kind, EventKind::Info) {
                return Ok(None);
            }
            let Some(fault) = fault_of(alloc, name, value)? else {
                return Ok(None);
            };
            Ok(Some(Body::Fault(fault)))
        }
    }
}

// The fields of an event's map, except for its subject.
#[derive(Clone, Copy)]
struct Head {
    index: Option<u32>,
    kind: EventKind,
    process: Process,
}

fn head_of(element: &Edn) -> Option<Head>
    ensures { Finds result
        (λ head. SpellsHead (value_of element.now) head.index head.kind head.process) }
{
    let index = index_of(element.get("index"))?;
    let kind = event_kind_of(element.get("type")?)?;
    let process = process_of(element.get("process")?)?;
    Some(Head {
        index,
        kind,
        process,
    })
}

fn about_of(
    alloc: Global,
    kind: EventKind,
    process: Process,
    element: &Edn,
) -> Result<Option<Body>, AllocError>
    ensures found { IfOk result (λ found. FindsAllowed found
        (SpellsAbout (value_of element.now) process) (IsInTables kind process)) }
    ensures memory_last { IsErr result → (body : Body)
        × SpellsAbout (value_of element.now) process body × IsInTables kind process body }
{
    let Some(name) = element.get("f") else {
        return Ok(None);
    };
    let Some(value) = element.get("value") else {
        return Ok(None);
    };
    body_of(alloc, kind, process, name, value)
}

fn event_of(alloc: Global, element: &Edn) -> Result<Option<Event>, AllocError>
    ensures found { IfOk result (λ found. Finds found (Spells (value_of element.now))) }
    ensures memory_last { IsErr result → (event : Event) × Spells (value_of element.now) event }
{
    let Some(head) = head_of(element) else {
        return Ok(None);
    };
    let Some(body) = about_of(alloc, head.kind, head.process, element)? else {
        return Ok(None);
    };
    if !is_in_tables(head.kind, head.process, &body) {
        return Ok(None);
    }
    Ok(Some(Event {
        index: head.index,
        kind: head.kind,
        process: head.process,
        body,
    }))
}

/// The event that a map of a text spells.
///
/// The keys `:type`, `:process`, `:f` and `:value` must be there, `:index` may be, and other keys are ignored. An index and a client's
/// process are 0 to 2^32 - 1. The value of a client's event is `[key part]`. A key is 0 to 65,535. The part is nil, an integer of 64 bits,
/// a vector of two integers, or a set of integers in any order. The tables of events say which part a name may have. An event of `:nemesis`
/// is an `:info` with the name of a fault, and its value has the replicas of the fault.
///
/// The time is that of one pass over the pairs, and of sorting the members of a set.
///
/// # Errors
/// [`Refusal::BadValue`] if the element spells no event; [`Refusal::NoMemory`] last, if it spells one and a growth
/// was refused.
pub fn from_edn(alloc: Global, element: &Edn) -> Result<Event, Refusal>
    ensures ok { IfOk result (Spells (value_of element.now)) }
    ensures refused { IfErr result (WhyUnspelled (value_of element.now)) }
    ensures memory_last { IsErrOf result Refusal.NoMemory →
        (event : Event) × Spells (value_of element.now) event }
{
    match event_of(alloc, element)? {
        Some(event) => Ok(event),
        None => Err(Refusal::BadValue),
    }
}
