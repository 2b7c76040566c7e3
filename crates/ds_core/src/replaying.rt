//! Runs code on the shared words.

ghost use Rattle.std.specs.Prelude.{◌≡◌, ◌<◌, ◌≤◌, ℕ, List, true, false, [], ◌++◌, ◌∷◌, length, map};
ghost use Rattle.std.specs.Prelude.{OnOk, IfOk, IsSomeAnd};
ghost use Rattle.ds_plain.specs.declared.Cue.{Cue};
ghost use Rattle.ds_plain.specs.Thread.{first_thread};
ghost use Rattle.ds_plain.specs.Asking.{HasRows};
ghost use Rattle.ds_plain.specs.Explained.{IsRecord, HasEnded, stop_in};
ghost use Rattle.ds_plain.specs.Turns.{IsScheduledOrder};
ghost use Rattle.ds_code.specs.CodeProgram.{program_of};
ghost use Rattle.ds_schedule.specs.Standing.{main_has_ended};
ghost use Rattle.ds_core.specs.Standing.{AreActors, Runs, all_left, actor_stop};

use crate::lists::{Order, Stops, Traces};
use crate::record::RunRecord;
use ds_actor::{Actor, turn};
use ds_code::Code;
use ds_map::Limits;
use ds_plain_laws::{nothing_stands, one_step_more, standing_is_recorded};
use ds_schedule::{Progress, Schedule};
use ds_step::VecWords;
use std::alloc::{AllocError, Global};

/// How many threads there are.
const THREADS: u8 = 16;

/// The actors of all threads, before their first steps.
fn first_actors(alloc: Global, code: &Code, limits: &Limits) -> Result<Vec<Actor>, AllocError>
    ensures { IfOk result (λ actors. AreActors code.now limits.now (λ t. first_thread limits.now) actors.items) }
{
    let mut actors = Vec::new(alloc);
    for number in 0..THREADS {
        actors.push(Actor::new(alloc, code, limits, number)?)?;
    }
    Ok(actors)
}

/// The shared words, who makes steps on them, what was recorded of the steps so far, and whose turn it is.
#[derive(Drop)]
struct Recorder<'a> {
    table: VecWords,
    actors: Vec<Actor>,
    traces: Traces,
    order: Order,
    progress: Progress<'a>,
}

impl<'a> Recorder<'a> {
    /// Before the first step, with the globals' first values.
    fn new(
        alloc: Global,
        code: &Code,
        limits: &Limits,
        schedule: &'a Schedule,
    ) -> Result<Recorder<'a>, AllocError>
        requires { length code.now.image ≤ 4096 }
        ensures { IfOk result (λ recorder. Runs code.now limits.now schedule.now.cues schedule.now.seed recorder.table
            recorder.actors.items recorder.traces recorder.order recorder.progress) }
    {
        nothing_stands();
        let table = VecWords::new(alloc, limits, code.image())?;
        let actors = first_actors(alloc, code, limits)?;
        let traces = Traces::of_threads(alloc, usize::from(THREADS))?;
        Ok(Recorder {
            table,
            actors,
            traces,
            order: Order::new(alloc),
            progress: Progress::new(schedule),
        })
    }

    /// One turn: the thread whose turn it is makes its next step, which is recorded.
    fn turn(&mut self, code: &Code, limits: &Limits) -> Result<(), AllocError>
        requires rows { HasRows limits.now (program_of limits.now code.now) }
        requires runs { (cues : List Cue) × (seed : ℕ) × Runs code.now limits.now cues seed self.old.table
            self.old.actors.items self.old.traces self.old.order self.old.progress }
        requires goes_on { main_has_ended self.old.progress ≡ false }
        ensures runs { OnOk result ((cues : List Cue) (seed : ℕ) → Runs code.now limits.now cues seed self.old.table
            self.old.actors.items self.old.traces self.old.order self.old.progress → Runs code.now limits.now cues seed
            self.new.table self.new.actors.items self.new.traces self.new.order self.new.progress) }
        ensures nearer { OnOk result
            (all_left limits.now.fuel self.new.actors.items < all_left limits.now.fuel self.old.actors.items) }
    {
        one_step_more();
        let thread = self.progress.next();
        let place = usize::from(thread);
        let made = turn(code, &mut self.actors[place], &mut self.table);
        let step = made.step();
        self.traces.push(place, step)?;
        self.order.push(thread)?;
        self.progress.passed(thread, &step);
        Ok(())
    }
}

/// Turn by turn, until main has ended.
fn run<'a>(
    alloc: Global,
    code: &Code,
    limits: &Limits,
    schedule: &'a Schedule,
) -> Result<Recorder<'a>, AllocError>
    requires rows { HasRows limits.now (program_of limits.now code.now) }
    requires image { length code.now.image ≤ 4096 }
    ensures runs { IfOk result (λ recorder. Runs code.now limits.now schedule.now.cues schedule.now.seed recorder.table
        recorder.actors.items recorder.traces recorder.order recorder.progress) }
    ensures ended { IfOk result (λ recorder. main_has_ended recorder.progress ≡ true) }
{
    let mut recorder = Recorder::new(alloc, code, limits, schedule)?;
    while !recorder.progress.main_has_ended() {
        recorder.turn(code, limits)?;
    }
    Ok(recorder)
}

/// How the threads of these actors stand.
fn stops_of(alloc: Global, actors: &[Actor]) -> Result<Stops, AllocError>
    ensures { IfOk result (λ stops. stops ≡ map actor_stop actors.now) }
{
    let mut stops = Vec::with_capacity(alloc, actors.len())?;
    for actor in actors {
        stops.push(actor.standing())?;
    }
    Ok(Stops::new(stops))
}

/// Runs code with 16 threads by a schedule, and records every step.
///
/// Thread 0 is main. In each turn the thread whose turn it is makes its next step, and the run ends with main's end.
/// The record has how each thread then stands, the steps of each, and the order of all. An `Err` is want of memory.
pub fn replay(
    alloc: Global,
    code: &Code,
    limits: &Limits,
    schedule: &Schedule,
) -> Result<RunRecord, AllocError>
    requires rows { HasRows limits.now (program_of limits.now code.now) }
    requires image { length code.now.image ≤ 4096 }
    ensures record { IfOk result (λ run. IsRecord (program_of limits.now code.now) limits.now run.stops run.traces) }
    ensures order { IfOk result (λ run. IsSomeAnd run.order (IsScheduledOrder (program_of limits.now code.now)
        limits.now schedule.now.cues schedule.now.seed run.traces)) }
    ensures sixteen_stops { IfOk result (λ run. length run.stops ≡ 16) }
    ensures main_ended { IfOk result (λ run. HasEnded (stop_in run.stops 0)) }
{
    standing_is_recorded();
    let ended = run(alloc, code, limits, schedule)?;
    let stops = stops_of(alloc, ended.actors.as_slice())?;
    let Recorder {
        table: _,
        actors: _,
        traces,
        order,
        progress: _,
    } = ended;
    Ok(RunRecord {
        stops,
        traces,
        order: Some(order),
    })
}
