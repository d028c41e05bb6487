// What is certain: each statement below is the promise of a function that does nothing but name what it rests on. A reader of the whole project starts here.

#![tactic(auto)]

ghost use Rattle.bits.specs.Alls.{All};
ghost use Rattle.demands.specs.Demand1.{Demand1};
ghost use Rattle.demands.specs.Demand2.{Demand2};
ghost use Rattle.demands.specs.Demand3.{Demand3, Statements};
ghost use Rattle.demands.specs.Examples.{Holds, starred};
ghost use Rattle.demands.specs.NoBetter.{NoBetterPath};
ghost use Rattle.demands.specs.Recording.{Recording};

// Demand 1: bad input is refused with its number from document 01, the state is the one before the call, lent memory keeps its bytes; a field a call.
pub fn demand_one()
    ensures { Demand1 }
{}

// Demand 2: every encoded payload comes back with 0 corrections, and an accepted one has an encoding at exactly the reported distance.
pub fn demand_two()
    ensures { Demand2 }
{
    voice_rules::round_trip();
    voice_rules::exact_distance();
    voice_rules::injective();
}

// Demand 3: no frame goes out before a lock, those after it are exact and have the offsets that are asked for, over any history of calls.
pub fn demand_three()
    ensures { Demand3 }
{
    sync_call_rules::demand_three_of_calls();
}

// Document 01's sentences on the synchroniser hold after any history of calls.
pub fn synchroniser_statements()
    ensures { Statements }
{
    sync_call_rules::calls_follow_the_rules();
    sync_rules::synchroniser_rules();
    sync_rules::gap_rule();
    sync_call_rules::moves_of_calls();
}

// Document 01's starred examples hold, all in one list.
pub fn starred_examples()
    ensures { All Holds starred }
{}

// Document 02, A9: no other bits that end in eight zeros are coded nearer to what was received than those that the path search finds.
pub fn no_better_path()
    ensures { NoBetterPath }
{
    voice_path_rules::nearest_path();
    voice_rules::nearest_tried();
}

// What leaves the case: any history of a recorder's steps, the input cut anywhere, hands out what is made of exactly the frames that the synchroniser sends.
pub fn recording()
    ensures { Recording }
{
    recorder_rules::makings_sequential();
    recorder_rules::step_rules();
    recorder_rules::steps_make();
    recorder_rules::cut_anywhere();
    recorder_rules::whole_input();
    recorder_rules::journal_rule();
    merge_recorder_rules::merge_records();
    merging_rules::merged_rule();
}
