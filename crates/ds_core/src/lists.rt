//! The lists that a record of a run is made of.

ghost use Rattle.std.specs.Prelude.{◌≡◌, ◌<◌, [], ◌∷◌, ◌++◌, length, replicate, slice_set, slice_index_or, OnOk};
ghost use Rattle.std.specs.Prelude.{OnErr, IfOk, IfSome};

use ds_plain::Stop;
use ds_step::Step;
use std::alloc::{AllocError, Global};
use std::marker::Model;

/// The steps of one thread, the oldest first.
#[derive(Debug, Drop)]
pub struct Steps {
    steps: Vec<Step>,
}

impl Model for Steps {
    ghost use Rattle.std.specs.Prelude.{List};
    ghost use Rattle.ds_step.specs.declared.Step.{Step};

    ghost Value = { List Step };

    ghost view = { λ s. s.steps.items };
}

impl Steps {
    /// No step.
    pub fn new(alloc: Global) -> Steps
        ensures { result ≡ [] }
    {
        Steps {
            steps: Vec::new(alloc),
        }
    }

    /// The steps, the oldest first.
    pub fn as_slice(&self) -> &[Step]
        ensures { result.now ≡ self.now }
    {
        self.steps.as_slice()
    }

    /// Adds the newest step. An `Err` changes nothing.
    pub fn push(&mut self, step: Step) -> Result<(), AllocError>
        ensures ok { OnOk result (self.new ≡ self.old ++ step ∷ []) }
        ensures err { OnErr result (self.new ≡ self.old) }
    {
        self.steps.push(step)?;
        Ok(())
    }
}

/// The steps of each thread, by thread number.
#[derive(Debug, Drop)]
pub struct Traces {
    traces: Vec<Steps>,
}

impl Model for Traces {
    ghost use Rattle.std.specs.Prelude.{List};
    ghost use Rattle.ds_step.specs.declared.Step.{Step};

    ghost Value = { List (List Step) };

    ghost view = { λ t. t.traces.items };
}

impl Traces {
    /// No trace at all, as a record has it where nothing was run.
    pub fn new(alloc: Global) -> Traces
        ensures { result ≡ [] }
    {
        Traces {
            traces: Vec::new(alloc),
        }
    }

    /// The empty traces of so many threads.
    pub fn of_threads(alloc: Global, threads: usize) -> Result<Traces, AllocError>
        ensures { IfOk result (λ traces. traces ≡ replicate threads []) }
    {
        let mut traces = Vec::with_capacity(alloc, threads)?;
        for _ in 0..threads {
            traces.push(Steps::new(alloc))?;
        }
        Ok(Traces { traces })
    }

    /// The traces, by thread number.
    pub fn as_slice(&self) -> &[Steps]
        ensures { result.now ≡ self.now }
    {
        self.traces.as_slice()
    }

    /// Adds a thread's newest step. An `Err` changes nothing.
    pub fn push(&mut self, thread: usize, step: Step) -> Result<(), AllocError>
        requires { thread < length self.old }
        ensures ok { OnOk result
            (self.new ≡ slice_set self.old thread (slice_index_or self.old thread [] ++ step ∷ [])) }
        ensures err { OnErr result (self.new ≡ self.old) }
    {
        self.traces[thread].push(step)
    }
}

/// How each thread stood when the run ended, by thread number.
#[derive(Debug, Drop)]
pub struct Stops {
    stops: Vec<Stop>,
}

impl Model for Stops {
    ghost use Rattle.std.specs.Prelude.{List};
    ghost use Rattle.ds_plain.specs.declared.Stop.{Stop};

    ghost Value = { List Stop };

    ghost view = { λ s. s.stops.items };
}

impl Stops {
    /// The list of these stops.
    pub fn new(stops: Vec<Stop>) -> Stops
        ensures { result ≡ stops.items }
    {
        Stops { stops }
    }

    /// The stops, by thread number.
    pub fn as_slice(&self) -> &[Stop]
        ensures { result.now ≡ self.now }
    {
        self.stops.as_slice()
    }
}

/// Thread numbers in the order of the steps.
#[derive(Debug, Drop)]
pub struct Order {
    threads: Vec<u8>,
}

impl Model for Order {
    ghost use Rattle.std.specs.Prelude.{List, ℕ};

    ghost Value = { List ℕ };

    ghost view = { λ o. o.threads.items };
}

impl Order {
    /// No step.
    pub fn new(alloc: Global) -> Order
        ensures { result ≡ [] }
    {
        Order {
            threads: Vec::new(alloc),
        }
    }

    /// The thread of each step, the oldest step first.
    pub fn as_slice(&self) -> &[u8]
        ensures { result.now ≡ self.now }
    {
        self.threads.as_slice()
    }

    /// Adds the thread of the newest step. An `Err` changes nothing.
    pub fn push(&mut self, thread: u8) -> Result<(), AllocError>
        ensures ok { OnOk result (self.new ≡ self.old ++ thread ∷ []) }
        ensures err { OnErr result (self.new ≡ self.old) }
    {
        self.threads.push(thread)?;
        Ok(())
    }
}
