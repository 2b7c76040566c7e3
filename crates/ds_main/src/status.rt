//! The status of a run.

ghost use Rattle.std.specs.Prelude.{◌≡◌, length};
ghost use Rattle.std.specs.List.{list_any};
ghost use Rattle.ds_plain.specs.Explained.{is_fuel, stop_in};
ghost use Rattle.ds_report.specs.Stop.{is_trap};
ghost use Rattle.ds_main.specs.Status.{is_full, run_status};

use crate::deliver::DONE;
use ds_plain::Stop;

/// The status where a thread trapped.
const TRAPPED: u8 = 3;

/// The status where a thread met a full table.
const FULL: u8 = 7;

/// The status where a thread other than main ran out of fuel.
const THREAD_OUT_OF_FUEL: u8 = 8;

/// The status where main ran out of fuel.
const MAIN_OUT_OF_FUEL: u8 = 9;

/// Whether a thread ran out of fuel.
fn is_fuel(stop: Stop) -> bool
    ensures { result ≡ is_fuel stop }
{
    matches!(stop, Stop::Fuel)
}

/// Whether a thread met a full table.
fn is_full(stop: Stop) -> bool
    ensures { result ≡ is_full stop }
{
    matches!(stop, Stop::Full(_, _))
}

/// Whether a thread trapped.
fn is_trap(stop: Stop) -> bool
    ensures { result ≡ is_trap stop }
{
    matches!(stop, Stop::Trap(_))
}

/// Whether some thread ran out of fuel.
fn some_fuel(stops: &[Stop]) -> bool
    ensures { result ≡ list_any is_fuel stops.now }
{
    stops.iter().any(|stop| is_fuel(*stop))
}

/// Whether some thread met a full table.
fn some_full(stops: &[Stop]) -> bool
    ensures { result ≡ list_any is_full stops.now }
{
    stops.iter().any(|stop| is_full(*stop))
}

/// Whether some thread trapped.
fn some_trap(stops: &[Stop]) -> bool
    ensures { result ≡ list_any is_trap stops.now }
{
    stops.iter().any(|stop| is_trap(*stop))
}

/// How main stood.
fn main_stop(stops: &[Stop]) -> Stop
    requires { length stops.now ≡ 16 }
    ensures { result ≡ stop_in stops.now 0 }
{
    stops[0]
}

/// The status of a run that was reported, by how its threads stood.
pub fn status_by(stops: &[Stop]) -> u8
    requires { length stops.now ≡ 16 }
    ensures { result ≡ run_status stops.now }
{
    if is_fuel(main_stop(stops)) {
        return MAIN_OUT_OF_FUEL;
    }
    if some_full(stops) {
        return FULL;
    }
    if some_trap(stops) {
        return TRAPPED;
    }
    if some_fuel(stops) {
        return THREAD_OUT_OF_FUEL;
    }
    DONE
}
