//! Laws about the fuel of threads, each the contract of a function that does nothing.
//!
//! A caller calls the function and uses what it ensures. The laws speak of every program, of all bounds and of every
//! trace that follows the step table.
#![tactic(auto)]

ghost use Rattle.ds_fuel_laws.specs.Laws.{FuelIsExact, UnitsArePaid};
ghost use Rattle.ds_fuel_laws.specs.Tried.{PricesAreTried};

/// A thread that has ended has the stop Fuel exactly where its fuel did not pay for what came next. It has then spent
/// all its fuel, and else what it had asked for.
pub fn fuel_is_exact()
    ensures { FuelIsExact }
{}

/// No thread ever spends more than its fuel.
pub fn units_are_paid()
    ensures { UnitsArePaid }
{}

/// The prices of small programs, and how they end with so much fuel.
pub fn prices_are_tried()
    ensures { PricesAreTried }
{}
