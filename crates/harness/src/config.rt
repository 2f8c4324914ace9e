//! How the one-thread object is opened.
ghost use Rattle.std.specs.Prelude.{◌≡◌, ◌↔◌, IsTrue, OnOk, IfErr};
ghost use Rattle.harness.specs.Setups.{setup_of, judging, AllPass, IsSetup, MayNotOpen};

use crate::fitness::{Test, all_items_pass, all_scheduled_pass};
use edn::Refusal;
use events::MOST_REPLICAS;
use generators::{Cycle, Gen};
use kinds::ModelKind;
use monitor::MOST_ENDS;
use nemesis::Schedule;
use processes::MOST_THREADS;
use std::alloc::Global;
use test_store::Mode;

/// How a [`Core`](crate::Core) is opened.
#[derive(Drop)]
pub struct Config {
    /// How many threads the history has, 1 to 64.
    pub concurrency: u32,
    /// The kind of object that a key is for which none was set, and that each key of the store is.
    pub kind: ModelKind,
    /// How many ends of a key for which no budget was set may be possible just before an ok, 1 to 65,536.
    pub budget: u32,
    /// How many replicas the store has, 1 to 7.
    pub replicas: u8,
    /// How they serve.
    pub mode: Mode,
    /// The items for clients and the nemesis.
    pub generator: Gen,
    /// The faults that strike in addition to the generator's.
    pub schedule: Schedule,
    /// The seed of the generator's random words.
    pub seed: u64,
}

impl Config {
    /// The configuration of an object that only judges a history of others: no operation to draw and no fault to come, one replica, strict,
    /// and seed 0. The numbers are not tested here.
    pub fn judging_only(alloc: Global, concurrency: u32, kind: ModelKind, budget: u32) -> Config
        ensures { setup_of result ≡ judging concurrency kind budget }
    {
        Config {
            concurrency,
            kind,
            budget,
            replicas: 1,
            mode: Mode::Strict,
            generator: Gen::Ops(Cycle::new(Vec::new(alloc))),
            schedule: Schedule::new(Vec::new(alloc)),
            seed: 0,
        }
    }

    /// Tests that its numbers are within their limits, and that each operation and fault that may come is one that history
    /// and store take. Takes no memory, and the time of the generator and the schedule.
    ///
    /// # Errors
    /// [`Refusal::BadBudget`] if the budget is not 1 to 65,536, else [`Refusal::BadConcurrency`] if the concurrency is not 1 to 64. Else
    /// [`Refusal::NoSuchReplica`] if the replicas are not 1 to 7 or a fault names one that is not there. Else [`Refusal::BadValue`] if an
    /// operation has a part outside the tables or a fault names a replica twice.
    pub fn check(&self) -> Result<(), Refusal>
        ensures within { OnOk result (IsSetup (setup_of self.now)) }
        ensures refused { IfErr result (MayNotOpen (setup_of self.now)) }
    {
        if self.budget < 1 || self.budget > MOST_ENDS {
            return Err(Refusal::BadBudget);
        }
        if self.concurrency < 1 || self.concurrency > MOST_THREADS {
            return Err(Refusal::BadConcurrency);
        }
        if self.replicas < 1 || self.replicas > MOST_REPLICAS {
            return Err(Refusal::NoSuchReplica);
        }
        if !passes(Test::IsPresent(self.replicas), self) {
            return Err(Refusal::NoSuchReplica);
        }
        if !passes(Test::IsInTables, self) {
            return Err(Refusal::BadValue);
        }
        Ok(())
    }
}

// Whether each operation and fault that may come passes the test.
fn passes(test: Test, config: &Config) -> bool
    ensures { IsTrue result ↔ AllPass test (setup_of config.now) }
{
    all_items_pass(test, &config.generator) && all_scheduled_pass(test, &config.schedule)
}
