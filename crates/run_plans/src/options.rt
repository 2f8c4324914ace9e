//! The configuration of the one-thread object in the texts of options.
ghost use Rattle.std.specs.Prelude.{◌≡◌, ◌⊎◌, ◌≤◌, Ok, Err, IfOk, IfErr, IsOk, MatchResult};
ghost use Rattle.edn.specs.declared.refusal.Refusal.TheVariants.{NoMemory};
ghost use Rattle.harness.specs.Setups.{setup_of, IsSetup};
ghost use Rattle.run_plans.specs.Options.{default_run, default_setup, judging_spelled, plan_spelled, run_spelled};

use crate::plan::RunPlan;
use crate::spelling::{byte_of, count_in, kind_in, mode_in, switch_in, within};
use edn::Refusal;
use events::MOST_REPLICAS;
use harness::Config;
use monitor::MOST_ENDS;
use processes::MOST_THREADS;
use std::alloc::Global;

// Clients of a run at most: of the 64 seats of a board the nemesis takes one.
const MOST_CLIENTS: u32 = 63;

const MOST_SEED: u64 = 0x7fff_ffff_ffff_ffff;

const MOST_OPERATIONS: u64 = 100_000;

const MOST_KEYS: u64 = 64;

/// An option whose value is a text.
#[derive(Clone, Copy)]
pub enum OptionName {
    /// `--budget`
    Budget,
    /// `--concurrency`
    Concurrency,
    /// `--model`
    Model,
    /// `--seed`
    Seed,
    /// `--ops`
    Operations,
    /// `--keys`
    Keys,
    /// `--replicas`
    Replicas,
    /// `--mode`
    Mode,
    /// `--faults`
    Faults,
}

/// Why texts spell no configuration.
#[derive(Drop)]
pub enum Misspelled {
    /// The text of this option is none that it takes.
    Unread(OptionName),
    /// A number is out of its limits, or memory was refused.
    Refused(Refusal),
}

/// The texts of the options by which a history is judged.
#[derive(Clone, Copy)]
pub struct JudgingTexts<'a> {
    pub budget: &'a str,
    pub concurrency: &'a str,
    pub model: &'a str,
}

impl JudgingTexts<'_> {
    /// Those of options that are not given.
    pub fn defaults() -> JudgingTexts<'static>
        ensures { judging_spelled result ≡ Ok default_setup }
    {
        JudgingTexts {
            budget: "4096",
            concurrency: "2",
            model: "register",
        }
    }

    /// How the one-thread object is opened with these texts; it only judges then. A number may have a plus
    /// before it, and a minus. It takes no memory, and the time of the texts.
    ///
    /// # Errors
    ///
    /// [`Misspelled::Unread`] of the first text, in the order budget, concurrency, model, that is not a number or a name of a kind. Else
    /// [`Refusal::BadBudget`] if the budget is not 1 to 65,536, else [`Refusal::BadConcurrency`] if the concurrency is not 1 to 64.
    pub fn config(&self, alloc: Global) -> Result<Config, Misspelled>
        ensures spelled { MatchResult result
            (λ config. judging_spelled self.now ≡ Ok (setup_of config))
            (λ why. judging_spelled self.now ≡ Err why) }
        ensures within { IfOk result (λ config. IsSetup (setup_of config)) }
    {
        let Some(budget) = count_in(self.budget) else {
            return Err(Misspelled::Unread(OptionName::Budget));
        };
        let Some(concurrency) = count_in(self.concurrency) else {
            return Err(Misspelled::Unread(OptionName::Concurrency));
        };
        let Some(kind) = kind_in(self.model) else {
            return Err(Misspelled::Unread(OptionName::Model));
        };
        if budget < 1 || budget > MOST_ENDS {
            return Err(Misspelled::Refused(Refusal::BadBudget));
        }
        if concurrency < 1 || concurrency > MOST_THREADS {
            return Err(Misspelled::Refused(Refusal::BadConcurrency));
        }
        Ok(Config::judging_only(alloc, concurrency, kind, budget))
    }
}

/// The texts of the options of a run.
#[derive(Clone, Copy)]
pub struct RunTexts<'a> {
    /// How its history is judged.
    pub judging: JudgingTexts<'a>,
    pub seed: &'a str,
    pub operations: &'a str,
    pub keys: &'a str,
    pub replicas: &'a str,
    pub mode: &'a str,
    pub faults: &'a str,
}

impl RunTexts<'_> {
    /// Those of options that are not given.
    pub fn defaults() -> RunTexts<'static>
        ensures { run_spelled result ≡ Ok default_run }
    {
        RunTexts {
            judging: JudgingTexts::defaults(),
            seed: "0",
            operations: "100",
            keys: "1",
            replicas: "3",
            mode: "strict",
            faults: "off",
        }
    }

    /// How the one-thread object is opened for a run with these texts. It costs O(bytes of the texts), and the time and memory of
    /// [`RunPlan::config`].
    ///
    /// # Errors
    ///
    /// Those of [`JudgingTexts::config`]. Else [`Misspelled::Unread`] of the first text that is not a number or a name, or of a seed,
    /// operations or keys out of their limits. The order is seed, operations, keys, replicas, mode, faults. Else
    /// [`Refusal::BadConcurrency`] if the concurrency is 64, else [`Refusal::NoSuchReplica`] if the replicas are not 1 to 7, else
    /// [`Refusal::NoMemory`] if memory is refused.
    pub fn config(&self, alloc: Global) -> Result<Config, Misspelled>
        ensures spelled { IfOk result (λ config. run_spelled self.now ≡ Ok (setup_of config)) }
        ensures within { IfOk result (λ config.
            IsSetup (setup_of config) × (config.concurrency ≤ 63)) }
        ensures refused { IfErr result (λ why. (run_spelled self.now ≡ Err why)
            ⊎ ((why ≡ Misspelled.Refused NoMemory) × IsOk (run_spelled self.now))) }
    {
        let judging = self.judging.config(alloc)?;
        let plan = self.plan()?;
        if judging.concurrency > MOST_CLIENTS {
            return Err(Misspelled::Refused(Refusal::BadConcurrency));
        }
        if plan.replicas < 1 || plan.replicas > MOST_REPLICAS {
            return Err(Misspelled::Refused(Refusal::NoSuchReplica));
        }
        match plan.config(alloc, judging) {
            Ok(config) => Ok(config),
            Err(_) => Err(Misspelled::Refused(Refusal::NoMemory)),
        }
    }

    // The plan of clients and faults. The number of replicas is not tested yet.
    fn plan(&self) -> Result<RunPlan, Misspelled>
        ensures { MatchResult result (λ plan. plan_spelled self.now ≡ Ok plan)
            (λ why. plan_spelled self.now ≡ Err why) }
    {
        let Some(seed) = within(self.seed, 0, MOST_SEED) else {
            return Err(Misspelled::Unread(OptionName::Seed));
        };
        let Some(operations) = within(self.operations, 0, MOST_OPERATIONS) else {
            return Err(Misspelled::Unread(OptionName::Operations));
        };
        let Some(keys) = within(self.keys, 1, MOST_KEYS) else {
            return Err(Misspelled::Unread(OptionName::Keys));
        };
        let Some(replicas) = count_in(self.replicas) else {
            return Err(Misspelled::Unread(OptionName::Replicas));
        };
        let Some(mode) = mode_in(self.mode) else {
            return Err(Misspelled::Unread(OptionName::Mode));
        };
        let Some(has_faults) = switch_in(self.faults) else {
            return Err(Misspelled::Unread(OptionName::Faults));
        };
        Ok(RunPlan {
            seed,
            operations: operations as u32,
            keys: keys as u16,
            replicas: byte_of(replicas),
            mode,
            has_faults,
        })
    }
}
