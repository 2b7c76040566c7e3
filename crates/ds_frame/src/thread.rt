//! Threads: what they want, and the units that they have spent.

ghost use Rattle.std.specs.Prelude.{◌≡◌, ◌≤◌, ◌<◌, suc, IfOk};

use crate::frames::Frames;
use crate::moved::{Moved, Want};
use crate::run::Run;
use ds_code::Code;
use ds_map::Limits;
use ds_plain::{Place, Request, Stop, Trap, TrapKind};
use std::alloc::{AllocError, Global};
use std::marker::Model;

/// A thread that runs code.
#[derive(Drop)]
pub struct Thread {
    limits: Limits,
    number: u8,
    units: u32,
    want: Want,
    place: Place,
    frames: Frames,
    row: Vec<u64>,
}

impl Model for Thread {
    ghost use Rattle.std.specs.Prelude.{◌≤◌, length};
    ghost use Rattle.ds_frame.specs.Threads.{ThreadState, IsFresh};

    ghost Value = { ThreadState };

    ghost view = { λ t. record {
      lim = t.limits;
      number = t.number;
      row = length t.row.items;
      want = t.want;
      place = t.place;
      units = t.units;
      machine = t.frames;
    } };

    ghost invariant = { λ t. (t.units ≤ t.limits.fuel) × IsFresh t.want t.frames };
}

impl Thread {
    ghost use Rattle.ds_plain.specs.Behaviour.{Behaviour, told};
    ghost use Rattle.ds_code.specs.CodeProgram.{behaves};
    ghost use Rattle.ds_frame.specs.declared.moved.Want.TheVariants as wants;
    ghost use Rattle.ds_frame.specs.Steps.{nowhere, answered_at};
    ghost use Rattle.ds_frame.specs.Coming.{comes_from, begins};
    ghost use Rattle.ds_frame.specs.Threads.{runs, at_standing, Serves, Comes, first_state};

    /// A thread of this number within these limits, which has not begun and is to run this code. It takes all its
    /// memory: 65,536 cells, 1,024 frames, and a row of as many words as the code copies values together.
    pub fn new(
        alloc: Global,
        code: &Code,
        limits: &Limits,
        number: u8,
    ) -> Result<Thread, AllocError>
        ensures { IfOk result (λ thread. thread ≡ first_state limits.now number code.now.row) }
    {
        Ok(Thread {
            limits: *limits,
            number,
            units: 0,
            want: Want::Begin,
            place: Place {
                function: 0,
                instruction: 0,
            },
            frames: Frames::new(alloc)?,
            row: vec![in alloc; 0; code.row() as usize]?,
        })
    }

    /// What it wants.
    pub fn want(&self) -> Want
        ensures { result ≡ self.now.want }
    {
        self.want
    }

    /// The units that it has spent, at most its fuel.
    pub fn units(&self) -> u32
        ensures units { result ≡ self.now.units }
        ensures paid { result ≤ self.now.lim.fuel }
    {
        self.units
    }

    /// The place of the instruction that asks.
    pub fn place(&self) -> Place
        ensures { result ≡ self.now.place }
    {
        self.place
    }

    /// Counts the unit of a step.
    pub fn spend(&mut self)
        requires { self.old.units < self.old.lim.fuel }
        ensures { self.new ≡ record self.old { units = suc self.old.units } }
    {
        self.units += 1;
    }

    /// Runs local instructions up to the next want.
    fn run(&mut self, code: &Code)
        requires { code.now.row ≤ self.old.row }
        ensures { self.new ≡ at_standing self.old
            (comes_from (runs code.now self.old) self.old.place self.old.units self.old.machine) }
    {
        let run = Run {
            code,
            limits: self.limits,
            thread: self.number,
        };
        let fuel = self.limits.fuel();
        while self.units < fuel {
            match self.frames.step(&run, self.row.as_mut_slice()) {
                Moved::Goes => {
                    self.units += 1;
                },
                Moved::Asks(place, request) => {
                    self.units += 1;
                    self.place = place;
                    self.want = Want::Asks(request);
                    return;
                },
                Moved::Stuck => {
                    self.units = fuel;
                },
            }
        }
        self.want = Want::Asks(Request::Stop(Stop::Fuel));
    }

    /// Enters a function with an argument, and runs local instructions up to the first want.
    fn enter(&mut self, code: &Code, function: u32, arg: u64)
        requires begins { self.old.want ≡ wants.Begin }
        requires row { code.now.row ≤ self.old.row }
        ensures exact { self.new ≡ at_standing self.old
            (begins (runs code.now self.old) self.old.place self.old.units function arg) }
        ensures paid { self.old.units ≤ self.old.lim.fuel }
    {
        let run = Run {
            code,
            limits: self.limits,
            thread: self.number,
        };
        self.want = Want::Asks(Request::Stop(Stop::Fuel));
        self.frames.start(&run, function, arg);
        if self.frames.fits(&run, function) {
            self.run(code);
            return;
        }
        if self.units < self.limits.fuel() {
            let place = Place {
                function,
                instruction: 0,
            };
            let kind = TrapKind::StackLimit;
            self.units += 1;
            self.place = place;
            self.want = Want::Asks(Request::Stop(Stop::Trap(Trap { place, kind })));
        }
    }

    /// Takes the answer to the instruction at hand, and runs local instructions up to the next want.
    fn resume(&mut self, code: &Code, value: u64)
        requires { code.now.row ≤ self.old.row }
        ensures exact { self.new ≡ at_standing self.old (comes_from (runs code.now self.old) self.old.place
            self.old.units (answered_at (runs code.now self.old) self.old.machine value)) }
        ensures paid { self.old.units ≤ self.old.lim.fuel }
    {
        let run = Run {
            code,
            limits: self.limits,
            thread: self.number,
        };
        self.want = Want::Asks(Request::Stop(Stop::Fuel));
        self.frames.answer(&run, value);
        self.run(code);
    }

    /// Enters a function with an argument, and runs local instructions up to the first want.
    ///
    /// The code copies no more values together than the code for which the thread was made. On any such code the thread
    /// wants what the code's meaning asks. Each instruction costs one unit as it begins. The stop `Fuel` is wanted
    /// where the fuel does not pay for an instruction, and with all fuel spent where the code means nothing; the place
    /// is then that of what was asked before.
    pub fn begin(&mut self, code: &Code, function: u32, arg: u64)
        requires begins { self.old.want ≡ wants.Begin }
        requires row { code.now.row ≤ self.old.row }
        ensures { Comes code.now self.old self.new (behaves (runs code.now self.old) function arg) }
    {
        self.enter(code, function, arg);
    }

    /// Takes the answer to what it wants, and runs local instructions up to the next want, as `begin` does.
    ///
    /// The answer to a load and to an exchange is the whole word that was there before; to `malloc` the address of the
    /// block, or 0; to `pthread_create` 0 or 11; and to all else 0.
    pub fn answer(&mut self, code: &Code, value: u64)
        requires { code.now.row ≤ self.old.row }
        ensures { (rest : Behaviour) → Serves (runs code.now self.old) self.old.machine rest
            → Comes code.now self.old self.new (told rest value) }
    {
        self.resume(code, value);
    }
}
