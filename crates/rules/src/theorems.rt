ghost use Rattle.rules.specs.Leaves.{LeafChosen, low_of, high_of};
ghost use Rattle.rules.specs.Mixed.{UnderAnyMix, WithinLimits, PathsGrown, WorthsOfOwnMarks, WorkCounted, ExpansionsCounted};
ghost use Rattle.rules.specs.Refused.{RefusalsChangeNothing};
ghost use Rattle.rules.specs.Sequences.{Start, LimitLaws};
ghost use Rattle.rules.specs.Gap.{InEverySearch, NoSequenceAbovePromiseAndGap, PlanAllowed, PlanWorthAtLeastPromise, GapWithinWidthAtReach, StartsAtPredictedEnd, FirstGapCoversIssuedAndPlanned};

use model::Model;
use reckoning::Reckoning;

// Does nothing: its contract says what a gap is worth, for this model and this reckoning in every call.
pub fn no_allowed_plan_beats_the_gap<M: Model, R: Reckoning>(model: &M, reckoning: &R)
    ensures no_sequence_above_promise_and_gap { InEverySearch (M.meaning model.now) (R.meaning reckoning.now) NoSequenceAbovePromiseAndGap }
    ensures plan_allowed { InEverySearch (M.meaning model.now) (R.meaning reckoning.now) PlanAllowed }
    ensures plan_worth_at_least_promise { InEverySearch (M.meaning model.now) (R.meaning reckoning.now) PlanWorthAtLeastPromise }
    ensures gap_within_width_at_reach { InEverySearch (M.meaning model.now) (R.meaning reckoning.now) GapWithinWidthAtReach }
    ensures starts_at_predicted_end { InEverySearch (M.meaning model.now) (R.meaning reckoning.now) StartsAtPredictedEnd }
    ensures first_gap_covers_issued_and_planned { FirstGapCoversIssuedAndPlanned (M.meaning model.now) (R.meaning reckoning.now) }
{}

// Does nothing: its contract has the laws of what a switch limit allows. A front of an allowed sequence
// is allowed, the setting before may be repeated, and with none before any setting is free.
pub fn limit_allows_fronts_and_repeats<S>()
    ensures { (start : Start S) → LimitLaws start }
{}

// Does nothing: its contract says which leaf a search chooses. No leaf has a greater worth, and none
// of the same worth a lower number.
pub fn chosen_leaf_is_greatest_then_lowest<S>()
    ensures for_the_plan { LeafChosen {S = S} low_of }
    ensures to_expand_next { LeafChosen {S = S} high_of }
{}

// Does nothing: its contract says that expansions are counted as they are made.
pub fn n_expansions_expand_n_nodes<S>()
    ensures from_a_start { ExpansionsCounted S }
    ensures by_every_work { UnderAnyMix S WorkCounted }
{}

// Does nothing: its contract says what every station keeps, whatever models and reckonings its calls are handed.
pub fn every_mix_keeps_limits_paths_and_worths<S>()
    ensures sizes_within_limits { UnderAnyMix S WithinLimits }
    ensures paths_are_their_parents_and_one_step_more { UnderAnyMix S PathsGrown }
    ensures worths_are_of_own_marks { UnderAnyMix S WorthsOfOwnMarks }
{}

// Does nothing: its contract says that a refused call changes nothing, except that work keeps the
// expansions before the refused one.
pub fn refused_calls_change_nothing<S>()
    ensures { RefusalsChangeNothing S }
{}
