//! Tells a fault, and runs nothing.

ghost use Rattle.std.specs.Prelude.{◌≡◌};
ghost use Rattle.ds_main.specs.Run.{IsEmpty};
ghost use Rattle.ds_main.specs.Status.{status_of};
ghost use Rattle.ds_main.specs.Ending.{writing, FaultEnds};
ghost use Rattle.ds_main.specs.Stopped.{StoppedBy};

use crate::deliver::{OUT_OF_MEMORY, deliver};
use crate::no_module::NoModule;
use ds_core::{Ended, RunRecord};
use ds_io::Sink;
use ds_report::{Fault, fault_line};
use std::alloc::Global;

/// The status of a fault.
fn status_by(fault: &Fault) -> u8
    ensures { result ≡ status_of fault.now }
{
    match fault {
        Fault::Usage => 2,
        Fault::Read => 4,
        Fault::TooLong | Fault::Parse(_) | Fault::Shape(_) | Fault::Check(_, _) => 1,
    }
}

/// Ends a call for want of memory, where nothing was run.
pub fn out_of_memory(alloc: Global) -> Ended
    ensures status { result.status ≡ 6 }
    ensures empty { IsEmpty result.run }
{
    Ended {
        status: OUT_OF_MEMORY,
        run: RunRecord::empty(alloc),
    }
}

/// Ends a call by a fault: its line is written, and nothing is run.
pub fn refuse<K: Sink>(alloc: Global, sink: &mut K, fault: &Fault) -> Ended
    ensures { FaultEnds fault.now (writing K.taken K.faults sink.old sink.new) result }
{
    match fault_line(alloc, fault) {
        Ok(line) => Ended {
            status: deliver(sink, line.as_slice(), status_by(fault)),
            run: RunRecord::empty(alloc),
        },
        Err(_) => out_of_memory(alloc),
    }
}

/// Ends a call whose input gives no module: the line of its fault is written, if it has one, and nothing is run.
pub fn stop<K: Sink>(alloc: Global, sink: &mut K, why: &NoModule) -> Ended
    ensures { StoppedBy why.now (writing K.taken K.faults sink.old sink.new) result }
{
    match why {
        NoModule::Refused(fault) => refuse(alloc, sink, fault),
        NoModule::Memory => out_of_memory(alloc),
    }
}
