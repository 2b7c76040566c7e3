//! What instructions mean, tried on inputs whose answers were worked out by hand: each the contract of a function that
//! does nothing.
#![tactic(auto)]

ghost use Rattle.ds_meaning_laws.specs.Arithmetic as arithmetic;
ghost use Rattle.ds_meaning_laws.specs.Accesses as accesses;
ghost use Rattle.ds_meaning_laws.specs.Addresses as addresses;
ghost use Rattle.ds_meaning_laws.specs.Branches as branches;
ghost use Rattle.ds_meaning_laws.specs.Calls as calls;
ghost use Rattle.ds_meaning_laws.specs.Externals as externals;
ghost use Rattle.ds_meaning_laws.specs.Programs as programs;
ghost use Rattle.ds_meaning_laws.specs.Traps as traps;

/// Sums, differences and products.
pub fn sums_are_tried()
    ensures sums_wrap { arithmetic.SumsWrap }
    ensures differences_wrap { arithmetic.DifferencesWrap }
    ensures products_wrap { arithmetic.ProductsWrap }
{}

/// Quotients and remainders.
pub fn divisions_are_tried()
    ensures sdiv_rounds_towards_zero { arithmetic.SdivRoundsTowardsZero }
    ensures srem_has_the_sign_of_the_first { arithmetic.SremHasTheSignOfTheFirst }
    ensures udiv_and_urem_are_unsigned { arithmetic.UdivAndUremAreUnsigned }
    ensures divisions_by_zero_trap { arithmetic.DivisionsByZeroTrap }
    ensures divisions_overflow { arithmetic.DivisionsOverflow }
{}

/// Shifts, and operations bit by bit.
pub fn shifts_are_tried()
    ensures shifts_by_the_width { arithmetic.ShiftsByTheWidth }
    ensures shifts_by_one { arithmetic.ShiftsByOne }
    ensures bits_by_bits { arithmetic.BitsByBits }
{}

/// Comparisons.
pub fn comparisons_are_tried()
    ensures compares_with_and_without_sign { arithmetic.ComparesWithAndWithoutSign }
    ensures compares_equal_numbers { arithmetic.ComparesEqualNumbers }
    ensures compares_pointers { arithmetic.ComparesPointers }
{}

/// Selections.
pub fn selections_are_tried()
    ensures selects { arithmetic.Selects }
{}

/// Conversions.
pub fn conversions_are_tried()
    ensures extends_by_zeros { arithmetic.ExtendsByZeros }
    ensures extends_by_the_sign { arithmetic.ExtendsByTheSign }
    ensures truncates { arithmetic.Truncates }
    ensures converts_pointers { arithmetic.ConvertsPointers }
{}

/// Operands.
pub fn operands_are_tried()
    ensures operands_are_cut { arithmetic.OperandsAreCut }
    ensures globals_are_addresses { arithmetic.GlobalsAreAddresses }
    ensures unknown_names_have_no_meaning { arithmetic.UnknownNamesHaveNoMeaning }
{}

/// Loads.
pub fn loads_are_tried()
    ensures loads_a_byte { accesses.LoadsAByte }
    ensures loads_words_and_halves { accesses.LoadsWordsAndHalves }
    ensures loads_the_last { accesses.LoadsTheLast }
{}

/// Stores.
pub fn stores_are_tried()
    ensures stores_a_part { accesses.StoresAPart }
    ensures stores_of_pointers_are_noted { accesses.StoresOfPointersAreNoted }
{}

/// Accesses at bad addresses.
pub fn bad_addresses_are_tried()
    ensures outside_the_regions { accesses.OutsideTheRegions }
    ensures not_aligned { accesses.NotAligned }
    ensures marked { accesses.Marked }
{}

/// Exchanges, and what compare-and-swaps give.
pub fn exchanges_are_tried()
    ensures rmw_gives_the_old_part { accesses.RmwGivesTheOldPart }
    ensures xchg_is_noted { accesses.XchgIsNoted }
    ensures xchg_alone_is_noted { accesses.XchgAloneIsNoted }
    ensures cmpxchg_gives_the_pair { accesses.CmpxchgGivesThePair }
    ensures cmpxchg_is_noted { accesses.CmpxchgIsNoted }
    ensures parts_are_taken { accesses.PartsAreTaken }
    ensures fences_do_nothing { accesses.FencesDoNothing }
{}

/// Memory on the stack.
pub fn allocas_are_tried()
    ensures allocates_whole_words { addresses.AllocatesWholeWords }
    ensures counts_without_a_sign { addresses.CountsWithoutASign }
    ensures stack_is_limited { addresses.StackIsLimited }
    ensures no_words_are_always_there { addresses.NoWordsAreAlwaysThere }
{}

/// Addresses of parts.
pub fn addresses_are_tried()
    ensures indices_have_a_sign { addresses.IndicesHaveASign }
    ensures fields_have_offsets { addresses.FieldsHaveOffsets }
    ensures elements_have_offsets { addresses.ElementsHaveOffsets }
    ensures addresses_wrap { addresses.AddressesWrap }
    ensures no_indices { addresses.NoIndices }
    ensures no_such_part { addresses.NoSuchPart }
{}

/// The values that phis take.
pub fn phis_are_tried()
    ensures phis_exchange_values { branches.PhisExchangeValues }
    ensures phis_take_their_width { branches.PhisTakeTheirWidth }
    ensures no_arm_and_no_value { branches.NoArmAndNoValue }
    ensures phis_are_done { branches.PhisAreDone }
{}

/// Branches.
pub fn branches_are_tried()
    ensures conditions_choose { branches.ConditionsChoose }
    ensures switches_choose { branches.SwitchesChoose }
    ensures unreachable_traps { branches.UnreachableTraps }
{}

/// Calls of functions that the module defines.
pub fn calls_are_tried()
    ensures calls_enter_a_frame { calls.CallsEnterAFrame }
    ensures calls_with_no_meaning { calls.CallsWithNoMeaning }
{}

/// How many frames and cells there are.
pub fn room_is_tried()
    ensures cells_are_counted { calls.CellsAreCounted }
    ensures frames_are_limited { calls.FramesAreLimited }
    ensures cells_are_limited { calls.CellsAreLimited }
    ensures calls_without_room_trap { calls.CallsWithoutRoomTrap }
{}

/// Returns.
pub fn returns_are_tried()
    ensures threads_return { calls.ThreadsReturn }
    ensures calls_give_values { calls.CallsGiveValues }
{}

/// How a thread begins.
pub fn first_frames_are_tried()
    ensures threads_begin { calls.ThreadsBegin }
    ensures large_functions_do_not_begin { calls.LargeFunctionsDoNotBegin }
{}

/// Calls of `malloc`.
pub fn mallocs_are_tried()
    ensures malloc_is_limited { externals.MallocIsLimited }
{}

/// Calls of `free`.
pub fn frees_are_tried()
    ensures frees_in_the_heap { externals.FreesInTheHeap }
    ensures bad_frees { externals.BadFrees }
{}

/// Calls of `print_i64`, `pthread_create` and `pthread_join`.
pub fn threads_are_tried()
    ensures prints { externals.Prints }
    ensures starts_threads { externals.StartsThreads }
    ensures starts_no_thread { externals.StartsNoThread }
    ensures joins { externals.Joins }
{}

/// Notes of pointers that were stored.
pub fn notes_are_tried()
    ensures notes_in_the_heap { externals.NotesInTheHeap }
    ensures notes_outside_the_heap { externals.NotesOutsideTheHeap }
    ensures notes_at_bad_addresses { externals.NotesAtBadAddresses }
    ensures notes_of_stores { externals.NotesOfStores }
    ensures notes_by_calls { externals.NotesByCalls }
    ensures places_behind_notes { externals.PlacesBehindNotes }
{}

/// Calls of other functions that are declared, and of a defined one with the name of an external.
pub fn other_calls_are_tried()
    ensures others_have_no_meaning { externals.OthersHaveNoMeaning }
    ensures defined_functions_are_called { externals.DefinedFunctionsAreCalled }
{}

/// What main asks where it calls a function.
pub fn runs_are_tried()
    ensures runs_calls { programs.RunsCalls }
    ensures stays_stopped { programs.StaysStopped }
    ensures stacks_differ { programs.StacksDiffer }
    ensures fuel_is_a_bound { programs.FuelIsABound }
{}

/// What main asks where it loops.
pub fn loops_are_tried()
    ensures runs_loops { programs.RunsLoops }
    ensures asks_nothing_for_ever { programs.AsksNothingForEver }
{}

/// What main asks where it stores a pointer: by itself, and by calls of `ds_note`.
pub fn noting_is_tried()
    ensures notes_pointers { programs.NotesPointers }
    ensures notes_no_null { programs.NotesNoNull }
    ensures notes_nothing { programs.NotesNothing }
{}

/// What threads ask, and what a program is beside that.
pub fn programs_are_tried()
    ensures runs_threads { programs.RunsThreads }
    ensures no_function_no_thread { programs.NoFunctionNoThread }
    ensures main_and_threads { programs.MainAndThreads }
    ensures globals_begin { programs.GlobalsBegin }
    ensures large_functions_trap { programs.LargeFunctionsTrap }
{}

/// Runs that end at an instruction that cannot be carried out.
pub fn traps_are_tried()
    ensures traps_at_the_store { traps.TrapsAtTheStore }
    ensures traps_where_it_is_called { traps.TrapsWhereItIsCalled }
    ensures traps_of_deep_calls { traps.TrapsOfDeepCalls }
    ensures traps_of_a_full_stack { traps.TrapsOfAFullStack }
{}
