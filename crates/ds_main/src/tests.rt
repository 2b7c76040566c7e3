//! What no clause says and no run of the program shows.

use crate::input::accepted_module;
use crate::job::{ArgsFault, Job, read_words};
use crate::pace::{FreePace, Pace};
use crate::run::{report_of, run};
use ds_core::{Cues, Schedule};
use ds_io::MemSource;
use ds_map::Limits;
use ds_plain::Cue;
use std::alloc::Global;
use std::test::Fail;

/// The report of a replay of a text by these cues and the seed 0.
fn replayed(alloc: Global, text: &[u8], cues: Vec<Cue>) -> Result<Vec<u8>, Fail> {
    let mut source = MemSource::new(Vec::from_slice(alloc, text)?, 4096, Vec::new(alloc));
    let Ok(module) = accepted_module(alloc, &mut source) else {
        return Err(Fail::new("not accepted"));
    };
    let schedule = Schedule {
        cues: Cues::new(cues),
        seed: 0,
    };
    let record = run(alloc, &schedule, &Limits::default_limits(), &module)?;
    let report = report_of(alloc, &module, &record)?;
    Ok(report)
}

/// Main looks at a block as it frees it, then a thread frees the block and ends, and then main goes on.
#[test]
fn cues_let_a_thread_free_first(rt: HostRuntime) -> Result<(), Fail> {
    let text = b"define ptr @w(ptr %p) { call void @free(ptr %p) ret ptr null }
define i32 @main() {
  %t = alloca i64
  %p = call ptr @malloc(i64 8)
  %c = call i32 @pthread_create(ptr %t, ptr null, ptr @w, ptr %p)
  call void @free(ptr %p)
  ret i32 0
}
declare ptr @malloc(i64)
declare void @free(ptr)
declare i32 @pthread_create(ptr, ptr, ptr, ptr)
";
    let cues = vec![in rt.alloc();
        Cue {
            thread: 0,
            until: 62
        },
        Cue {
            thread: 1,
            until: 12
        },
        Cue {
            thread: 0,
            until: 12
        },
    ]?;
    let report = replayed(rt.alloc(), text.as_slice(), cues)?;
    let wanted = b"trap thread 0 in @main instruction 3: double free of 0x1000000, seen 0x4
main trapped; prints 0 mallocs 1 frees 1 notes 0 marks 0 traps 1
";
    assert_eq!(rt; report.as_slice(), wanted.as_slice());
    Ok(())
}

#[test]
fn reads_the_words_of_a_job(rt: HostRuntime) -> Result<(), Fail> {
    let check = vec![in rt.alloc(); String::from_str(rt.alloc(), "check")?]?;
    assert_eq!(rt; read_words(check.as_slice()).ok(), Some(Job::Check));
    assert_eq!(rt; read_words(&[]).err(), Some(ArgsFault::Usage));
    FreePace.enter(15);
    Ok(())
}

/// The module of a pointer that is stored, freed and used again, as it was read, and its copy.
#[test]
fn a_copy_equals_the_module_that_was_read(rt: HostRuntime) -> Result<(), Fail> {
    let text = b"@g = global ptr null
define i32 @main() {
  %p = call ptr @malloc(i64 16)
  store ptr %p, ptr @g
  call void @free(ptr %p)
  %q = load ptr, ptr @g
  store i64 7, ptr %q
  ret i32 0
}
declare ptr @malloc(i64)
declare void @free(ptr)
";
    let bytes = Vec::from_slice(rt.alloc(), text.as_slice())?;
    let mut source = MemSource::new(bytes, 4096, Vec::new(rt.alloc()));
    let Ok(module) = accepted_module(rt.alloc(), &mut source) else {
        return Err(Fail::new("not accepted"));
    };
    let copy = module.copy(rt.alloc())?;
    assert!(rt; copy == module);
    Ok(())
}
