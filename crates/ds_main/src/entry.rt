//! The top call.

ghost use Rattle.std.specs.Prelude.{◌≡◌, ◌⊎◌, ℕ, false, List, [], Some};
ghost use Rattle.std.specs.Option.{option_map};
ghost use Rattle.ds_ast.specs.declared.module.Module.{Module};
ghost use Rattle.ds_io.specs.Counts.{Rose};
ghost use Rattle.ds_io.specs.Sink.{Takes, TakesFront};
ghost use Rattle.ds_map.specs.Bounds.{Bounds};
ghost use Rattle.ds_report.specs.declared.fault.Fault.{Fault};
ghost use Rattle.ds_report.specs.Fault.{fault_text};
ghost use Rattle.ds_report.specs.Report.{IsReport};
ghost use Rattle.ds_main.specs.declared.job.Job.{Job};
ghost use Rattle.ds_main.specs.Job.{texts, IsJob, HasJob, NoJob};
ghost use Rattle.ds_main.specs.Input.{Held, IsAccepted, IsModuleOfInput, function_names};
ghost use Rattle.ds_main.specs.Refusal.{IsRefused};
ghost use Rattle.ds_main.specs.Text.{accepted_text, instrumented_text};
ghost use Rattle.ds_main.specs.Run.{IsEmpty, IsRunOfInput};
ghost use Rattle.ds_main.specs.Replayed.{IsReportOfEachOrder};
ghost use Rattle.ds_main.specs.Status.{run_status, IsRunStatus, status_of, IsFaultStatus, IsCutShort, IsStatus};
ghost use Rattle.ds_main.specs.Due.{IsDue, IsOfModule, IsDueText};
ghost use Rattle.ds_main.specs.Ending.{reading, writing, Call, Ends};

use crate::check::check;
use crate::instrument::instrument;
use crate::job::{Job, read_words};
use crate::laws::accepted_inputs_are_not_refused;
use crate::pace::Pace;
use crate::refuse::refuse;
use crate::replay::replay;
use ds_core::Ended;
use ds_io::{Sink, Source};
use ds_report::Fault;
use ds_report_laws::reports_of_runs;
use std::alloc::Global;
use std::thread::Threads;

/// Does the job that has these words.
fn answer<S: Source, K: Sink>(
    alloc: Global,
    words: &[String],
    source: &mut S,
    sink: &mut K,
) -> Ended
    ensures { let call : Call = record {
      words = texts words.now;
      source = reading S.left S.faults source.old source.new;
      sink = writing K.taken K.faults sink.old sink.new;
      ended = result;
    } in Ends call }
{
    match read_words(words) {
        Ok(job) => match job {
            Job::Replay { seed, limits } => replay(alloc, seed, &limits, source, sink),
            Job::Check => check(alloc, source, sink),
            Job::Instrument => instrument(alloc, source, sink),
        },
        Err(_) => refuse(alloc, sink, &Fault::Usage),
    }
}

/// Does the job that its words ask for, and tells by its result how that went.
///
/// All three jobs read the source to its end, unless it fails or holds too much, and take its module only where that
/// is accepted: it keeps all rules.
/// `check` writes that to the sink, with how many functions the module defines and how many instructions they have.
/// `instrument` writes the module with a note behind each store of a pointer. `replay` runs it, without notes, with up
/// to 16 threads, each step by the schedule that `--seed` gives, with a heap of so many pages as `--pages` says, and at
/// most so many units for each thread as `--fuel` says, and writes the report of the run. No thread of the system is
/// started, and no pace is called.
///
/// The status is 0 where the job was done; 9, 7, 3 or 8 where it was and main ran out of fuel, a thread met a full
/// table, a thread trapped, or another thread ran out of fuel, of which the first decides; 2 where no job has these
/// words, 4 where the source failed, 1 where the source held too many bytes or no accepted module, 5 where the sink
/// failed, and 6 where memory ran out. With 1, 2 and 4 the line of the fault was written, and nothing was run. With 5
/// the sink has taken a front of what was due, and with 6 nothing.
pub fn dangsan_main<R: Threads + Sync, S: Source, K: Sink, P: Pace>(
    rt: &R,
    alloc: Global,
    words: &[String],
    source: &mut S,
    sink: &mut K,
    pace: &P,
) -> Ended
    // The main theorem. Where the record is not empty, the input spells an accepted module, at least one order of the
    // recorded steps is legal, and every legal order is, without log steps, a run of the plain machine on that module.
    // The recorded order is one of these, and that of the schedule with no cues and the job's seed.
    ensures headline { IsEmpty result.run ⊎ ((seed : ℕ) × (lim : Bounds) × IsJob (texts words.now) (Job.Replay seed lim)
        × (m : Module) × IsRunOfInput (S.left source.old) seed lim m result.run) }
    // With status 0, 3, 7, 8 and 9 of `replay` there is a run, the sink took its whole report, by the names of the
    // functions of the module that the input spells, and the status is the one that the stops give. The report is that
    // of the plain machine's run, in whichever legal order of the recorded steps.
    ensures ran { (seed : ℕ) (lim : Bounds) → IsJob (texts words.now) (Job.Replay seed lim) → IsRunStatus result.status
        → (m : Module) × IsRunOfInput (S.left source.old) seed lim m result.run }
    ensures reported { (seed : ℕ) (lim : Bounds) → IsJob (texts words.now) (Job.Replay seed lim)
        → IsRunStatus result.status → (m : Module) × IsRunOfInput (S.left source.old) seed lim m result.run
        × (text : List ℕ) × IsReport (function_names m) result.run.stops result.run.traces false text
        × IsReportOfEachOrder lim m result.run text
        × Takes (K.taken sink.old) text (K.taken sink.new) }
    ensures run_status { (seed : ℕ) (lim : Bounds) → IsJob (texts words.now) (Job.Replay seed lim)
        → IsRunStatus result.status → result.status ≡ run_status result.run.stops }
    // With status 0 of `check` and `instrument` the input spells an accepted module, and the sink took the whole text
    // due. 3, 7, 8 and 9 are of `replay` alone.
    ensures checked { IsJob (texts words.now) Job.Check → result.status ≡ 0
        → (m : Module) × IsModuleOfInput (S.left source.old) m
        × Takes (K.taken sink.old) (accepted_text m) (K.taken sink.new) }
    ensures instrumented { IsJob (texts words.now) Job.Instrument → result.status ≡ 0
        → (m : Module) × IsModuleOfInput (S.left source.old) m
        × Takes (K.taken sink.old) (instrumented_text m) (K.taken sink.new) }
    ensures of_replay { IsRunStatus result.status → ¬ (result.status ≡ 0)
        → (seed : ℕ) × (lim : Bounds) × IsJob (texts words.now) (Job.Replay seed lim) }
    // With 0, 3, 7, 8 and 9 the source was read to its end.
    ensures read_out { IsRunStatus result.status → S.left source.new ≡ option_map (λ _. []) (S.left source.old) }
    // 2: exactly where no job has these words. 4: only where the source failed.
    ensures usage { result.status ≡ 2 → NoJob (texts words.now) }
    ensures usage_is_told { NoJob (texts words.now) → (result.status ≡ 2) ⊎ IsCutShort result.status }
    ensures read_failed { result.status ≡ 4
        → HasJob (texts words.now) × Rose (S.faults source.old) (S.faults source.new) }
    // 1: exactly where the source held more than 8,388,608 bytes or no accepted module.
    ensures refused { result.status ≡ 1 → HasJob (texts words.now) × Held (S.left source.old) IsRefused }
    ensures refusal_is_told { HasJob (texts words.now)
        → Held (S.left source.old) (λ bytes. IsRefused bytes →
        (result.status ≡ 1) ⊎ ((result.status ≡ 4) × Rose (S.faults source.old) (S.faults source.new))
        ⊎ IsCutShort result.status) }
    // 1, 2 and 4: the line of the first fault was written, nothing was run, and before a fault of the module the
    // source was read to its end.
    ensures fault_line { IsFaultStatus result.status → (fault : Fault) × (result.status ≡ status_of fault)
        × IsDue (texts words.now) (S.left source.old) (Rose (S.faults source.old) (S.faults source.new)) fault
        × (IsOfModule fault → S.left source.new ≡ option_map (λ _. []) (S.left source.old))
        × Takes (K.taken sink.old) (fault_text fault) (K.taken sink.new) }
    ensures nothing_run { IsFaultStatus result.status → IsEmpty result.run }
    // 5: only where the sink failed, which has taken a front of what was due. 6: nothing was written. No other status
    // comes.
    ensures write_failed { result.status ≡ 5 → Rose (K.faults sink.old) (K.faults sink.new) × (text : List ℕ)
        × IsDueText (texts words.now) (S.left source.old) (Rose (S.faults source.old) (S.faults source.new)) result.run
        text
        × TakesFront (K.taken sink.old) text (K.taken sink.new) }
    ensures out_of_memory { result.status ≡ 6 → K.taken sink.new ≡ K.taken sink.old }
    ensures statuses { IsStatus result.status }
    // For `replay` an accepted module is run, unless the source failed or memory ran out.
    ensures run_is_made { (seed : ℕ) (lim : Bounds) → IsJob (texts words.now) (Job.Replay seed lim)
        → Held (S.left source.old) (λ bytes. IsAccepted bytes →
        ¬ Rose (S.faults source.old) (S.faults source.new) → IsEmpty result.run → result.status ≡ 6) }
    // Completeness: where moreover the sink did not fail, the job is done.
    ensures complete { HasJob (texts words.now)
        → Held (S.left source.old) (λ bytes. IsAccepted bytes →
        ¬ Rose (S.faults source.old) (S.faults source.new) → ¬ Rose (K.faults sink.old) (K.faults sink.new) →
        IsRunStatus result.status ⊎ (result.status ≡ 6)) }
{
    accepted_inputs_are_not_refused();
    reports_of_runs();
    answer(alloc, words, source, sink)
}
