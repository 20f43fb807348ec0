//! What holds of the five chains, each as the contract of a function that does nothing.
ghost use Rattle.kmip_plan.specs.ChainLaws.{
  StepsAreDistinct,
  StatesAreDistinct,
  StepsFollowTheLifecycle,
  DoneStepsAreNoRows,
  PlacesAndStates,
  TargetsAndWords,
};

/// No step is at two places of a chain.
pub fn steps_are_distinct()
    ensures { StepsAreDistinct }
{}

/// No chain comes through a state twice.
pub fn states_are_distinct()
    ensures { StatesAreDistinct }
{}

/// After each step of a chain there is a state: the one before it, moved by a row of the lifecycle.
/// After Create it is Pre-Active.
pub fn steps_follow_the_lifecycle()
    ensures { StepsFollowTheLifecycle }
{}

/// A step that was done has no row of the lifecycle from any state that the chain has come to
/// since. So no step of a chain can be done twice.
pub fn done_steps_are_no_rows()
    ensures { DoneStepsAreNoRows }
{}

/// A key is in a state after a number of steps exactly where that number is the place of the state.
pub fn places_and_states()
    ensures { PlacesAndStates }
{}

/// Each target has one word, and that word names this target alone.
pub fn targets_and_words()
    ensures { TargetsAndWords }
{}
