//! Generators.
ghost use Rattle.std.specs.Prelude.{◌≡◌, IfOk};
ghost use Rattle.generators.specs.Generators.{generator_of, generators_of, each_thread, copies, is_over, all_over};

use crate::cycle::Cycle;
use std::alloc::{AllocError, Global};

/// A generator of operations and faults, in the manner of Jepsen's; the forms are this project's own. A form is built as
/// a value, and [`Gen::each_thread`] makes the copies of that form.
#[derive(Drop)]
pub enum Gen {
    /// The items in turn, round and round; each is for threads if it is an operation, and for the nemesis if it is a fault.
    Ops(Cycle),
    /// Asks a child at random, and if it gives nothing the next ones.
    Mix(Vec<Gen>),
    /// At most this number of items of the child.
    Limit(u64, Box<Gen>),
    /// The items of the first child, then those of the next.
    Seq(Vec<Gen>),
    /// As `Seq`, but the next child begins only if all threads are idle.
    Phases(Vec<Gen>),
    /// One child for each thread.
    EachThread(Vec<Gen>),
    /// The child, for threads alone.
    Clients(Box<Gen>),
    /// The child, for the nemesis alone.
    Nemesis(Box<Gen>),
}

impl Gen {
    /// A generator with an equal copy of the child for each of the threads 0 to `threads` - 1. Costs O(`threads`) copies of the child.
    pub fn each_thread(alloc: Global, threads: u32, child: Gen) -> Result<Gen, AllocError>
        ensures { IfOk result (λ g.
            generator_of g ≡ each_thread (copies threads (generator_of child))) }
    {
        let mut children = Vec::new(alloc);
        for _thread in 0..threads {
            let copy = child.copy(alloc)?;
            children.push(copy)?;
        }
        Ok(Gen::EachThread(children))
    }

    /// Whether there is nothing left for anybody. Costs O(forms in it).
    #[cycle(over)]
    pub fn is_over(&self) -> bool
        ensures { result ≡ is_over (generator_of self.now) }
    {
        match self {
            Gen::Ops(items) => items.is_empty(),
            Gen::Limit(left, child) => *left == 0 || child.is_over(),
            Gen::Clients(child) => child.is_over(),
            Gen::Nemesis(child) => child.is_over(),
            Gen::Mix(children) => are_over(children),
            Gen::Seq(children) => are_over(children),
            Gen::Phases(children) => are_over(children),
            Gen::EachThread(children) => are_over(children),
        }
    }

    /// An equal generator, with memory of its own except for the shared members of sets; `AllocError` if there is none, or as many share
    /// the members as can be counted. Costs O(forms and items in it).
    #[cycle(copy)]
    pub fn copy(&self, alloc: Global) -> Result<Gen, AllocError>
        ensures { IfOk result (λ other. generator_of other ≡ generator_of self.now) }
    {
        match self {
            Gen::Ops(items) => Ok(Gen::Ops(items.copy()?)),
            Gen::Limit(left, child) => Ok(Gen::Limit(*left, boxed_copy(alloc, child)?)),
            Gen::Clients(child) => Ok(Gen::Clients(boxed_copy(alloc, child)?)),
            Gen::Nemesis(child) => Ok(Gen::Nemesis(boxed_copy(alloc, child)?)),
            Gen::Mix(children) => Ok(Gen::Mix(copies_of(alloc, children)?)),
            Gen::Seq(children) => Ok(Gen::Seq(copies_of(alloc, children)?)),
            Gen::Phases(children) => Ok(Gen::Phases(copies_of(alloc, children)?)),
            Gen::EachThread(children) => Ok(Gen::EachThread(copies_of(alloc, children)?)),
        }
    }
}

#[cycle(over)]
pub fn are_over(children: &[Gen]) -> bool
    ensures { result ≡ all_over (generators_of children.now) }
{
    for child in children {
        if !child.is_over() {
            return false;
        }
    }
    true
}

#[cycle(copy)]
fn boxed_copy(alloc: Global, child: &Gen) -> Result<Box<Gen>, AllocError>
    ensures { IfOk result (λ other. generator_of other.value ≡ generator_of child.now) }
{
    let copy = child.copy(alloc)?;
    Ok(Box::new(alloc, copy)?)
}

#[cycle(copy)]
fn copies_of(alloc: Global, children: &[Gen]) -> Result<Vec<Gen>, AllocError>
    ensures { IfOk result (λ others. generators_of others.items ≡ generators_of children.now) }
{
    let mut others = Vec::new(alloc);
    for child in children {
        let copy = child.copy(alloc)?;
        others.push(copy)?;
    }
    Ok(others)
}
