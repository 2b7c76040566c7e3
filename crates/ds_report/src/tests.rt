use crate::{Fault, fault_line, render};
use ds_ast::{Bytes, List, Name};
use ds_check::TypeFault;
use ds_core::{RunRecord, Stops, Traces};
use ds_plain::{Place, Stop, Trap, TrapKind};
use ds_step::{Event, FullWhat, OpKind, Step, WordOp};
use std::alloc::{AllocError, Global};
use std::test::Fail;

/// The names of two functions.
fn functions(alloc: Global) -> Result<List<Name>, AllocError> {
    let mut names = List::new(alloc);
    names.push(Name::Text(Bytes::from_vec(Vec::from_slice(alloc, b"f")?)))?;
    names.push(Name::Number(0))?;
    Ok(names)
}

/// A step with this event.
fn step(event: Event) -> Step {
    let op = WordOp {
        kind: OpKind::Load,
        word: 0,
        a: 0,
        b: 0,
    };
    Step {
        op,
        old: 0,
        row: 1,
        event,
    }
}

/// The traces of 16 threads, the second with some events.
fn traces(alloc: Global) -> Result<Traces, AllocError> {
    let mut traces = Traces::of_threads(alloc, 16)?;
    let events = [
        Event::Begin,
        Event::Log,
        Event::Store {
            loc: 4096,
            value: 255,
        },
        Event::Noted {
            place: 8,
            life: 7,
            loc: 2,
        },
        Event::Print {
            number: 0,
            value: 0xffff_ffff_ffff_fff9,
        },
        Event::End,
    ];
    for event in events {
        traces.push(1, step(event))?;
    }
    Ok(traces)
}

#[test]
fn reports_a_run_with_its_trace(rt: HostRuntime) -> Result<(), Fail> {
    let alloc = rt.alloc();
    let mut stops = vec![in alloc; Stop::Idle; 16]?;
    let place = Place {
        function: 1,
        instruction: 3,
    };
    let kind = TrapKind::UseAfterFree {
        address: 0x8000_0000_0100_0040,
    };
    stops[0] = Stop::Returned(Some(0xffff_ffff));
    stops[1] = Stop::Trap(Trap { place, kind });
    stops[2] = Stop::Full(place, FullWhat::Logs);
    stops[3] = Stop::Fuel;
    let run = RunRecord {
        stops: Stops::new(stops),
        traces: traces(alloc)?,
        order: None,
    };
    let text = render(alloc, functions(alloc)?.as_slice(), &run, true)?;
    let want: &[u8] = b"-7
1 begin
1 store 0x100000 0xff
1 noted 0x1010 7
1 print -7
1 end
trap thread 1 in @0 instruction 3: use after free at 0x8000000001000040
full thread 2 in @0 instruction 3: logs
fuel thread 3
main returned -1; prints 1 mallocs 0 frees 0 notes 1 marks 0 traps 1\n";
    assert_eq!(rt; text.as_slice(), want);
    Ok(())
}

#[test]
fn tells_a_fault(rt: HostRuntime) -> Result<(), Fail> {
    let alloc = rt.alloc();
    let fault = Fault::Check(TypeFault::BadPhi { f: 0, i: 10 }, functions(alloc)?);
    let line = fault_line(alloc, &fault)?;
    assert_eq!(rt;
        line.as_slice(),
        b"error: bad phi in @f instruction 10\n".as_slice()
    );
    Ok(())
}
