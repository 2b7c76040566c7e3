//! Laws about reports of runs, each the contract of a function that does nothing.
//!
//! A caller calls the function and uses what it ensures. The laws speak of every program, of every record and of every
//! text, whichever code made them.
#![tactic(auto)]

ghost use Rattle.std.specs.Prelude.{◌++◌, codes};
ghost use Rattle.ds_tried.specs.Worked.{use_after_free_traps, free_of_marked_pointer_traps};
ghost use Rattle.ds_tried.specs.Worked.{pointer_in_register_is_not_found, free_of_null_does_nothing};
ghost use Rattle.ds_tried.specs.Worked.{double_free_traps, free_inside_block_traps, free_of_stack_traps};
ghost use Rattle.ds_tried.specs.Worked.{store_to_null_traps, store_off_its_width_traps, load_behind_heap_traps};
ghost use Rattle.ds_tried.specs.Worked.{full_logs_stop};
ghost use Rattle.ds_tried.specs.Threaded.{endless_loop_ends_by_fuel, newer_pointer_is_not_marked};
ghost use Rattle.ds_tried.specs.Threaded.{newer_pointer_into_block_is_left, sixteenth_thread_is_refused};
ghost use Rattle.ds_tried.specs.Threaded.{join_of_itself_traps, join_of_no_thread_traps};
ghost use Rattle.ds_report_laws.specs.Worked.{Reports, main_trapped, none_counted};
ghost use Rattle.ds_report_laws.specs.Example.{TellsARun, TellsATrace, TellsStopsAndCounts};
ghost use Rattle.ds_report_laws.specs.Laws.{ExplainedReports, ReportsOfRuns};

use ds_tried::{
    bad_addresses, endless_loops, frees_of_modules, full_tables_stop, newer_pointers,
    threads_of_modules, uses_after_free,
};

/// Where an order of the traces is explained, the report of the record is that of the run of the plain machine which
/// this order is without log steps: its values in the order in which it printed them, where the trace is asked for
/// its events thread by thread, how it leaves the threads, and the counts of its events.
pub fn explained_reports()
    ensures { ExplainedReports }
{}

/// The report of a record that is of a run of the program is the report of a run of the plain machine on that program;
/// and whichever legal order of the traces is taken, it is that of the run which this order is without log steps.
pub fn reports_of_runs()
    ensures { ReportsOfRuns }
{}

/// Reports that were worked out by hand: that of a small run, and that of a state with each kind of stop line.
pub fn reports_are_tried()
    ensures tells_a_run { TellsARun }
    ensures tells_a_trace { TellsATrace }
    ensures tells_stops_and_counts { TellsStopsAndCounts }
{}

/// The reports of runs of small modules that were worked out by hand: uses of dangling pointers, frees, bad addresses,
/// a loop without end, pointers that are stored while a free goes on, threads that are refused, and a full table.
pub fn reports_are_worked()
    ensures use_after_free_traps { Reports use_after_free_traps
        (main_trapped (codes "4: use after free at 0x8000000001000000") (codes "mallocs 1 frees 1 notes 1 marks 1")) }
    ensures free_of_marked_pointer_traps { Reports free_of_marked_pointer_traps
        (main_trapped (codes "4: free of marked 0x8000000001000000") (codes "mallocs 1 frees 1 notes 1 marks 1")) }
    ensures pointer_in_register_is_not_found { Reports pointer_in_register_is_not_found
        (codes "7\nmain returned 0; prints 1 mallocs 1 frees 1 notes 0 marks 0 traps 0\n") }
    ensures free_of_null_does_nothing { Reports free_of_null_does_nothing
        (codes "main returned 0; prints 0 mallocs 0 frees 0 notes 0 marks 0 traps 0\n") }
    ensures double_free_traps { Reports double_free_traps
        (main_trapped (codes "2: double free of 0x1000000, seen 0x4") (codes "mallocs 1 frees 1 notes 0 marks 0")) }
    ensures free_inside_block_traps { Reports free_inside_block_traps
        (main_trapped (codes "2: bad free of 0x1000008") (codes "mallocs 1 frees 0 notes 0 marks 0")) }
    ensures free_of_stack_traps { Reports free_of_stack_traps
        (main_trapped (codes "1: bad free of 0x100000") none_counted) }
    ensures store_to_null_traps { Reports store_to_null_traps
        (main_trapped (codes "0: bad address 0x0") none_counted) }
    ensures store_off_its_width_traps { Reports store_off_its_width_traps
        (main_trapped (codes "1: bad address 0x1001") none_counted) }
    ensures load_behind_heap_traps { Reports load_behind_heap_traps
        (main_trapped (codes "1: bad address 0x1100000") none_counted) }
    ensures endless_loop_ends_by_fuel { Reports endless_loop_ends_by_fuel
        (codes "fuel thread 0\nmain out of fuel; prints 0 mallocs 0 frees 0 notes 0 marks 0 traps 0\n") }
    ensures newer_pointer_is_not_marked { Reports newer_pointer_is_not_marked
        (codes "16777232\nmain returned 0; prints 1 mallocs 2 frees 1 notes 3 marks 0 traps 0\n") }
    ensures newer_pointer_into_block_is_left { Reports newer_pointer_into_block_is_left
        (codes "16777224\nmain returned 0; prints 1 mallocs 1 frees 1 notes 1 marks 0 traps 0\n") }
    ensures sixteenth_thread_is_refused { Reports sixteenth_thread_is_refused
        (codes "11\nmain returned 0; prints 1 mallocs 0 frees 0 notes 0 marks 0 traps 0\n") }
    ensures join_of_itself_traps { Reports join_of_itself_traps
        (main_trapped (codes "0: bad join of 0") none_counted) }
    ensures join_of_no_thread_traps { Reports join_of_no_thread_traps
        (main_trapped (codes "0: bad join of 99") none_counted) }
    ensures full_logs_stop { Reports full_logs_stop
        (codes "full thread 0 in @main instruction 3: logs\n"
        ++ codes "main stopped at a full table; prints 0 mallocs 2 frees 0 notes 1 marks 0 traps 0\n") }
{
    uses_after_free();
    frees_of_modules();
    bad_addresses();
    endless_loops();
    newer_pointers();
    threads_of_modules();
    full_tables_stop();
}
