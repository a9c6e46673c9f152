// Demand 3: the heap stays sound for every list of orders; and how much heap to fit. The claims are in specs/Claims.antt and specs/Peak.antt; their proofs cite the theorems.
#![tactic(auto)]

ghost use Rattle.soundness.specs.Claims.{HeapStaysSound, HeapStaysSoundOnAcquired};
ghost use Rattle.soundness.specs.Operations.{OperationsDoWhatTheyName, OperationsDoWhatTheyNameOnAcquired};
ghost use Rattle.soundness.specs.Prints.{PrintedIsCalled};
ghost use Rattle.soundness.specs.Peak.{FrontierWithinPeakOfLists, FrontierIsPeak, PeakIsEnough, OneFewerIsTooFew};
ghost use Rattle.soundness.specs.Shapes.{EveryShapeStaysSound};
ghost use Rattle.soundness.specs.Counts.{CountsAreTrue, FitIsForPeak};
ghost use Rattle.soundness.specs.Example.{WorkedListIsSound};
ghost use Rattle.soundness.specs.Larger.{LargerListIsSound};
ghost use Rattle.soundness.specs.Second.{FortyAreSoundInBoth};
ghost use Rattle.soundness.specs.Operated.{WorkedOperations};
ghost use Rattle.soundness.specs.Fewest.{SeasonIsSound};

pub fn heap_stays_sound()
    ensures { HeapStaysSound }
{}

// by the blocks that are acquired, whatever is reachable
pub fn heap_stays_sound_on_acquired()
    ensures { HeapStaysSoundOnAcquired }
{}

// store, load, share_block_n and erase_block on the context of a channel that a list has reached
pub fn operations_do_what_they_name()
    ensures { OperationsDoWhatTheyName }
{}

pub fn operations_do_what_they_name_on_acquired()
    ensures { OperationsDoWhatTheyNameOnAcquired }
{}

// by runs that met no fault, on however many blocks
pub fn frontier_within_peak_of_lists()
    ensures { FrontierWithinPeakOfLists }
{}

pub fn frontier_is_peak()
    ensures { FrontierIsPeak }
{}

// demand 3 and the peak, for an edition and a frame by their numbers
pub fn every_shape_stays_sound()
    ensures { EveryShapeStaysSound }
{}

// on another heap, of two blocks more than that peak
pub fn peak_is_enough()
    ensures { PeakIsEnough }
{}

pub fn one_fewer_is_too_few()
    ensures { OneFewerIsTooFew }
{}

// that they speak of something
pub fn worked_list_is_sound()
    ensures { WorkedListIsSound }
{}

pub fn larger_list_is_sound()
    ensures { LargerListIsSound }
{}

pub fn forty_are_sound_in_both()
    ensures { FortyAreSoundInBoth }
{}

pub fn worked_operations()
    ensures { WorkedOperations }
{}

pub fn season_is_sound()
    ensures { SeasonIsSound }
{}

// what `channel` prints of it
pub fn printed_is_called()
    ensures { PrintedIsCalled }
{}

// what `heap_chains::count_blocks` counts of it
pub fn counts_are_true()
    ensures { CountsAreTrue }
{}

// what `heap_chains::to_fit` tells
pub fn fit_is_for_peak()
    ensures { FitIsForPeak }
{}
