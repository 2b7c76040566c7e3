//! The definitions of runs, tried on small programs and on events that are written by hand.
//!
//! Each law is the contract of a function that does nothing: what may come next behind some events, what may not, and
//! what is left behind them.
#![tactic(auto)]

ghost use Rattle.ds_tried.specs.Programs.{Hold};
ghost use Rattle.ds_tried.specs.Modules.{IsWorked};
ghost use Rattle.ds_tried.specs.Threads.{main_begins, begins_once, prints_are_numbered, ends_where_it_returns};
ghost use Rattle.ds_tried.specs.Threads.{nothing_behind_end, log_is_no_event, IsPrinted, spawn_is_asked};
ghost use Rattle.ds_tried.specs.Threads.{number_is_stored, opened_thread_begins, ended_thread_is_joined};
ghost use Rattle.ds_tried.specs.Threads.{bad_join_traps, only_end_behind_trap, BadJoinStop, sixteenth_is_refused};
ghost use Rattle.ds_tried.specs.Threads.{refusal_is_told, sixteen_is_never_given_out, ends_for_want_of_fuel};
ghost use Rattle.ds_tried.specs.Threads.{FuelStop, ends_at_a_load, ends_behind_spawn, ended_is_not_started};
ghost use Rattle.ds_tried.specs.Words.{loads_are_of_the_word, narrow_loads_tell_the_word, whole_stores_write};
ghost use Rattle.ds_tried.specs.Words.{IsStored, narrow_stores_exchange, whole_operations, narrow_operations};
ghost use Rattle.ds_tried.specs.Words.{operations_tell_the_word_before, compare_and_swap, narrow_compare_and_swap};
ghost use Rattle.ds_tried.specs.Words.{compare_and_swap_tells};
ghost use Rattle.ds_tried.specs.Mallocs.{page_gets_class_wanted, free_block_is_taken, start_is_told, IsLiveBlock};
ghost use Rattle.ds_tried.specs.Mallocs.{classes_hold_a_byte_more, end_of_page_is_no_block};
ghost use Rattle.ds_tried.specs.Mallocs.{used_block_is_passed_over, null_is_told_last, page_is_passed_over};
ghost use Rattle.ds_tried.specs.Mallocs.{other_pages_are_left};
ghost use Rattle.ds_tried.specs.Notes.{live_block_is_found, found_block_is_noted, each_note_finds_its_own, IsNoted};
ghost use Rattle.ds_tried.specs.Notes.{only_end_behind_full, FullStop, pointers_into_blocks};
ghost use Rattle.ds_tried.specs.Frees.{free_begins_with_live_block, new_block_is_freed, free_visits_what_was_noted};
ghost use Rattle.ds_tried.specs.Frees.{free_ends_when_nothing_is_due, IsFreed, IsFreeingMeanwhile, IsDue};
ghost use Rattle.ds_tried.specs.Frees.{other_values_are_seen, SeenWordsStay, second_free_traps, DoubleFreeStop};
ghost use Rattle.ds_tried.specs.Frees.{bad_free_traps, BadFreeStop, free_of_no_block_traps, NeverGivenStop};
ghost use Rattle.ds_tried.specs.Frees.{next_life_is_given, former_lives_owe_nothing, free_of_former_life};
ghost use Rattle.ds_tried.specs.Frees.{store_is_no_longer_due, StoreStrikes, ExchangeStrikes, LoadLeaves};
ghost use Rattle.ds_tried.specs.Frees.{one_of_two_frees, SeenWhileFreeing, freed_block_is_not_found};
ghost use Rattle.ds_tried.specs.Frees.{noted_meanwhile_is_not_due, each_free_has_its_block, SeenIsOwn};
ghost use Rattle.ds_tried.specs.Frees.{frees_at_their_word};
ghost use Rattle.ds_tried.specs.Schedules.{FirstOfTwo, EndedHaveNoTurn, DrawnBehindCues, CueEndsAtItsRow};
ghost use Rattle.ds_tried.specs.Schedules.{CueEndsAtAWait, CueEndsAtAnEnd, CueIsPassedOver, DrawnHistory};
ghost use Rattle.ds_tried.specs.Schedules.{CuedHistory};
ghost use Rattle.ds_tried.specs.Rounds.{TenThousandEndARound, OneUnitLessGoesOn, EachThreadHasEachRound};
ghost use Rattle.ds_tried.specs.Rounds.{MainEndsInTheLast};
ghost use Rattle.ds_tried.specs.Rows.{BlockIsTakenAndFreed, OthersAreSeen, StrangeWordsAreAskedAgain, NullIsTold};
ghost use Rattle.ds_tried.specs.Rows.{PagesAreLookedAtRound, NoStartsAreRefused, SecondFreesAreRefused};
ghost use Rattle.ds_tried.specs.Noting.{TwoLivesAreNoted, NoBlockIsSkipped, NoLifeIsSkipped};
ghost use Rattle.ds_tried.specs.Noting.{StrangeLogsAreAskedAgain, FullTablesStop};
ghost use Rattle.ds_tried.specs.Accesses.{SubtractionWraps, ExpectedWordIsReplaced, NeighboursStay, OtherWritesStay};
ghost use Rattle.ds_tried.specs.Accesses.{NarrowSumWraps, OtherByteIsLoaded};
ghost use Rattle.ds_tried.specs.Spawns.{ThreadIsStarted, SeventeenthIsRefused, EndIsAwaited, OthersAreNotJoined};
ghost use Rattle.ds_tried.specs.Spawns.{FunctionIsBegun, FuelIsSpentWaiting};
ghost use Rattle.ds_tried.specs.Worked.{use_after_free_traps, pointer_store_is_noted, free_of_marked_pointer_traps};
ghost use Rattle.ds_tried.specs.Worked.{pointer_in_register_is_not_found, free_of_null_does_nothing};
ghost use Rattle.ds_tried.specs.Worked.{double_free_traps, free_inside_block_traps, free_of_stack_traps};
ghost use Rattle.ds_tried.specs.Worked.{store_to_null_traps, store_off_its_width_traps, load_behind_heap_traps};
ghost use Rattle.ds_tried.specs.Worked.{other_pointer_is_seen, pointer_past_the_end_is_its_own};
ghost use Rattle.ds_tried.specs.Worked.{second_life_is_noted_anew, head_is_used_after_free, full_logs_stop};
ghost use Rattle.ds_tried.specs.Threaded.{endless_loop_ends_by_fuel, newer_pointer_is_not_marked};
ghost use Rattle.ds_tried.specs.Threaded.{newer_pointer_is_not_lost, newer_pointer_into_block_is_left};
ghost use Rattle.ds_tried.specs.Threaded.{newer_pointer_into_block_may_be_marked, sixteenth_thread_is_refused};
ghost use Rattle.ds_tried.specs.Threaded.{sixteenth_is_refused_behind_them, join_of_itself_traps};
ghost use Rattle.ds_tried.specs.Threaded.{join_of_no_thread_traps, second_of_two_frees_traps};
ghost use Rattle.ds_tried.specs.Threaded.{first_of_two_frees_goes_on, first_of_two_frees_ends};
ghost use Rattle.ds_tried.specs.Loops.{full_page_gives_null, one_place_left};

/// Main begins, prints and ends, each once and in order.
pub fn main_prints()
    ensures main_begins { Hold main_begins }
    ensures begins_once { Hold begins_once }
    ensures prints_are_numbered { Hold prints_are_numbered }
    ensures ends_where_it_returns { Hold ends_where_it_returns }
    ensures nothing_behind_end { Hold nothing_behind_end }
    ensures log_is_no_event { Hold log_is_no_event }
    ensures is_printed { IsPrinted }
{}

/// A thread is started, begins once its number is stored, and is joined once it has ended.
pub fn threads_are_started()
    ensures spawn_is_asked { Hold spawn_is_asked }
    ensures number_is_stored { Hold number_is_stored }
    ensures opened_thread_begins { Hold opened_thread_begins }
    ensures ended_thread_is_joined { Hold ended_thread_is_joined }
{}

/// Joins trap where no such thread can be joined.
pub fn bad_joins_trap()
    ensures bad_join_traps { Hold bad_join_traps }
    ensures only_end_behind_trap { Hold only_end_behind_trap }
    ensures bad_join_stop { BadJoinStop }
{}

/// No more than 16 numbers are given out.
pub fn sixteen_numbers()
    ensures sixteenth_is_refused { Hold sixteenth_is_refused }
    ensures refusal_is_told { Hold refusal_is_told }
    ensures sixteen_is_never_given_out { Hold sixteen_is_never_given_out }
{}

/// Threads end for want of fuel.
pub fn fuel_ends()
    ensures ends_for_want_of_fuel { Hold ends_for_want_of_fuel }
    ensures fuel_stop { FuelStop }
    ensures ends_at_a_load { Hold ends_at_a_load }
    ensures ends_behind_spawn { Hold ends_behind_spawn }
    ensures ended_is_not_started { Hold ended_is_not_started }
{}

/// A load tells the whole word.
pub fn words_are_loaded()
    ensures loads_are_of_the_word { Hold loads_are_of_the_word }
    ensures narrow_loads_tell_the_word { Hold narrow_loads_tell_the_word }
{}

/// A store writes its bytes and leaves the others.
pub fn words_are_stored()
    ensures whole_stores_write { Hold whole_stores_write }
    ensures is_stored { IsStored }
    ensures narrow_stores_exchange { Hold narrow_stores_exchange }
{}

/// An operation in one step changes its bytes and tells the word before.
pub fn words_are_changed()
    ensures whole_operations { Hold whole_operations }
    ensures narrow_operations { Hold narrow_operations }
    ensures operations_tell_the_word_before { Hold operations_tell_the_word_before }
{}

/// A compare-and-swap exchanges where it finds what it expects, and else loads.
pub fn words_are_compared()
    ensures compare_and_swap { Hold compare_and_swap }
    ensures narrow_compare_and_swap { Hold narrow_compare_and_swap }
    ensures compare_and_swap_tells { Hold compare_and_swap_tells }
{}

/// A malloc gives a page its class, and takes a free block.
pub fn blocks_are_taken()
    ensures page_gets_class_wanted { Hold page_gets_class_wanted }
    ensures free_block_is_taken { Hold free_block_is_taken }
    ensures start_is_told { Hold start_is_told }
    ensures is_live_block { IsLiveBlock }
    ensures classes_hold_a_byte_more { Hold classes_hold_a_byte_more }
    ensures end_of_page_is_no_block { Hold end_of_page_is_no_block }
{}

/// A malloc is told null where every place was passed over.
pub fn null_is_told()
    ensures used_block_is_passed_over { Hold used_block_is_passed_over }
    ensures null_is_told_last { Hold null_is_told_last }
    ensures page_is_passed_over { Hold page_is_passed_over }
    ensures other_pages_are_left { Hold other_pages_are_left }
{}

/// A note finds the live block that its value points into.
pub fn stores_are_noted()
    ensures live_block_is_found { Hold live_block_is_found }
    ensures found_block_is_noted { Hold found_block_is_noted }
    ensures each_note_finds_its_own { Hold each_note_finds_its_own }
    ensures is_noted { IsNoted }
    ensures only_end_behind_full { Hold only_end_behind_full }
    ensures full_stop { FullStop }
    ensures pointers_into_blocks { Hold pointers_into_blocks }
{}

/// A free visits what was noted, marks what points into its block, and then ends.
pub fn frees_mark()
    ensures free_begins_with_live_block { Hold free_begins_with_live_block }
    ensures new_block_is_freed { Hold new_block_is_freed }
    ensures free_visits_what_was_noted { Hold free_visits_what_was_noted }
    ensures free_ends_when_nothing_is_due { Hold free_ends_when_nothing_is_due }
    ensures is_freed { IsFreed }
    ensures is_freeing_meanwhile { IsFreeingMeanwhile }
    ensures is_due { IsDue }
    ensures other_values_are_seen { Hold other_values_are_seen }
    ensures seen_words_stay { SeenWordsStay }
{}

/// A free traps where no block starts, or none that is live.
pub fn frees_trap()
    ensures second_free_traps { Hold second_free_traps }
    ensures double_free_stop { DoubleFreeStop }
    ensures bad_free_traps { Hold bad_free_traps }
    ensures bad_free_stop { BadFreeStop }
    ensures free_of_no_block_traps { Hold free_of_no_block_traps }
    ensures never_given_stop { NeverGivenStop }
{}

/// What was noted in a former life of a block is no matter of the present one.
pub fn lives_are_apart()
    ensures next_life_is_given { Hold next_life_is_given }
    ensures former_lives_owe_nothing { Hold former_lives_owe_nothing }
    ensures free_of_former_life { Hold free_of_former_life }
{}

/// What another thread writes while a free goes on is no longer due.
pub fn stores_strike()
    ensures store_is_no_longer_due { Hold store_is_no_longer_due }
    ensures store_strikes { StoreStrikes }
    ensures exchange_strikes { ExchangeStrikes }
    ensures load_leaves { LoadLeaves }
{}

/// Frees and notes of two threads on one block, or at one location.
pub fn frees_meet()
    ensures one_of_two_frees { Hold one_of_two_frees }
    ensures seen_while_freeing { SeenWhileFreeing }
    ensures freed_block_is_not_found { Hold freed_block_is_not_found }
    ensures noted_meanwhile_is_not_due { Hold noted_meanwhile_is_not_due }
    ensures each_free_has_its_block { Hold each_free_has_its_block }
    ensures seen_is_own { SeenIsOwn }
{}

/// Frees that are taken at their word.
pub fn weak_frees()
    ensures frees_at_their_word { Hold frees_at_their_word }
{}

/// Turns are drawn among the threads that were given out and have not ended.
pub fn turns_are_drawn()
    ensures first_of_two { FirstOfTwo }
    ensures ended_have_no_turn { EndedHaveNoTurn }
    ensures drawn_behind_cues { DrawnBehindCues }
{}

/// Cues are followed in order, and passed over where their thread can have no turn.
pub fn cues_are_followed()
    ensures cue_ends_at_its_row { CueEndsAtItsRow }
    ensures cue_ends_at_a_wait { CueEndsAtAWait }
    ensures cue_ends_at_an_end { CueEndsAtAnEnd }
    ensures cue_is_passed_over { CueIsPassedOver }
{}

/// One history is that of a schedule.
pub fn histories_are_scheduled()
    ensures drawn_history { DrawnHistory }
    ensures cued_history { CuedHistory }
{}

/// A run on threads is cut into rounds in one way.
pub fn runs_are_cut_into_rounds()
    ensures ten_thousand_end_a_round { TenThousandEndARound }
    ensures one_unit_less_goes_on { OneUnitLessGoesOn }
    ensures each_thread_has_each_round { EachThreadHasEachRound }
    ensures main_ends_in_the_last { MainEndsInTheLast }
{}

/// The steps of an access to program memory follow the step table.
pub fn accesses_are_followed()
    ensures subtraction { SubtractionWraps }
    ensures whole_words { ExpectedWordIsReplaced }
    ensures neighbours { NeighboursStay }
    ensures other_writes { OtherWritesStay }
    ensures narrow_sum { NarrowSumWraps }
    ensures other_bytes { OtherByteIsLoaded }
{}

/// The steps of a thread that starts another one, that joins one and that begins follow the step table.
pub fn spawns_are_followed()
    ensures started { ThreadIsStarted }
    ensures refused { SeventeenthIsRefused }
    ensures awaited { EndIsAwaited }
    ensures not_joined { OthersAreNotJoined }
    ensures begun { FunctionIsBegun }
    ensures fuel_is_spent { FuelIsSpentWaiting }
{}

/// The steps of a malloc and a free follow the step table.
pub fn rows_are_followed()
    ensures taken_and_freed { BlockIsTakenAndFreed }
    ensures others { OthersAreSeen }
    ensures strange_words { StrangeWordsAreAskedAgain }
    ensures null { NullIsTold }
    ensures round { PagesAreLookedAtRound }
    ensures no_starts { NoStartsAreRefused }
    ensures second_frees { SecondFreesAreRefused }
{}

/// The steps of a note follow the step table.
pub fn notes_are_followed()
    ensures two_lives { TwoLivesAreNoted }
    ensures no_block { NoBlockIsSkipped }
    ensures no_life { NoLifeIsSkipped }
    ensures strange_words { StrangeLogsAreAskedAgain }
    ensures full { FullTablesStop }
{}

/// A use of a dangling pointer that was stored traps, and one of a pointer in a register does not.
pub fn uses_after_free()
    ensures use_after_free_traps { IsWorked use_after_free_traps }
    ensures pointer_store_is_noted { Hold pointer_store_is_noted }
    ensures free_of_marked_pointer_traps { IsWorked free_of_marked_pointer_traps }
    ensures pointer_in_register_is_not_found { IsWorked pointer_in_register_is_not_found }
{}

/// Frees of null, of a block twice, and of what is no block.
pub fn frees_of_modules()
    ensures free_of_null_does_nothing { IsWorked free_of_null_does_nothing }
    ensures double_free_traps { IsWorked double_free_traps }
    ensures free_inside_block_traps { IsWorked free_inside_block_traps }
    ensures free_of_stack_traps { IsWorked free_of_stack_traps }
{}

/// Accesses where no word lies.
pub fn bad_addresses()
    ensures store_to_null_traps { IsWorked store_to_null_traps }
    ensures store_off_its_width_traps { IsWorked store_off_its_width_traps }
    ensures load_behind_heap_traps { IsWorked load_behind_heap_traps }
{}

/// A loop without end ends for want of fuel.
pub fn endless_loops()
    ensures endless_loop_ends_by_fuel { IsWorked endless_loop_ends_by_fuel }
{}

/// What another thread stores while a free goes on is not lost.
pub fn newer_pointers()
    ensures newer_pointer_is_not_marked { IsWorked newer_pointer_is_not_marked }
    ensures newer_pointer_is_not_lost { Hold newer_pointer_is_not_lost }
    ensures newer_pointer_into_block_is_left { IsWorked newer_pointer_into_block_is_left }
    ensures newer_pointer_into_block_may_be_marked { Hold newer_pointer_into_block_may_be_marked }
{}

/// Threads that are refused, and joins that trap.
pub fn threads_of_modules()
    ensures sixteenth_thread_is_refused { IsWorked sixteenth_thread_is_refused }
    ensures sixteenth_is_refused_behind_them { IsWorked sixteenth_is_refused_behind_them }
    ensures join_of_itself_traps { IsWorked join_of_itself_traps }
    ensures join_of_no_thread_traps { IsWorked join_of_no_thread_traps }
{}

/// What is stored over a noted pointer, behind a block's end and in its next life.
pub fn other_pointers()
    ensures other_pointer_is_seen { IsWorked other_pointer_is_seen }
    ensures pointer_past_the_end_is_its_own { IsWorked pointer_past_the_end_is_its_own }
    ensures second_life_is_noted_anew { IsWorked second_life_is_noted_anew }
    ensures head_is_used_after_free { IsWorked head_is_used_after_free }
{}

/// A note that finds no log left stops its thread.
pub fn full_tables_stop()
    ensures full_logs_stop { IsWorked full_logs_stop }
{}

/// A malloc is told null behind all 256 places of a page.
pub fn full_pages()
    ensures full_page_gives_null { IsWorked full_page_gives_null }
    ensures one_place_left { Hold one_place_left }
{}

/// One of two frees of a block goes on, and the other traps.
pub fn two_frees_of_modules()
    ensures second_of_two_frees_traps { IsWorked second_of_two_frees_traps }
    ensures first_of_two_frees_goes_on { IsWorked first_of_two_frees_goes_on }
    ensures first_of_two_frees_ends { IsWorked first_of_two_frees_ends }
{}
