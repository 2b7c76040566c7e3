//! What a thread runs.

use ds_code::Code;
use ds_map::Limits;
use std::marker::Model;

/// The code that a thread runs, the limits of the run, and the number of the thread.
#[derive(Drop)]
pub struct Run<'a> {
    /// The code.
    pub code: &'a Code,
    /// The limits of the run.
    pub limits: Limits,
    /// The number of the thread.
    pub thread: u8,
}

impl<'a> Model for Run<'a> {
    ghost use Rattle.ds_code.specs.Machine.{Running};
    ghost use Rattle.ds_frame.specs.Steps.{running_code};

    ghost Value = { Running };

    ghost coded = { running_code };

    ghost view = { λ r. record { code = r.code.now; lim = r.limits; thread = r.thread } };
}
