// What holds of any history of the synchroniser's calls: they follow the rules, and what holds of the rules' pushes holds of what the calls hand out.

#![tactic(auto)]

ghost use Rattle.sync_call_rules.specs.Feeds.{feed_rules};
ghost use Rattle.sync_call_rules.specs.Statements.{calls_follow, demand_calls, end_calls, quiet_calls, move_calls, reliable_calls};

// Any history of calls has the state and the frames of the rules' pushes.
pub fn calls_follow_the_rules()
    ensures { calls_follow }
{}

// States demand 3 over the calls: what any history of calls, refused ones among them, hands out.
pub fn demand_three_of_calls()
    ensures { demand_calls }
{}

// A feed does what the pushes do that it makes: no frame is lost, and nothing is pushed twice.
pub fn feed_is_pushes()
    ensures { feed_rules }
{}

// After any history of calls the end of the stream plus the net slip is the number of bits pushed, and it stays below 2^42.
pub fn end_of_calls()
    ensures { end_calls }
{}

// Calls that make no more pushes than `quiet_dibits` says hand out no frame and leave the settled offset.
pub fn quiet_calls()
    ensures { quiet_calls }
{}

// The net slip rises by the front moves and third shifts of the frames that any history of calls hands out.
pub fn moves_of_calls()
    ensures { move_calls }
{}

// The frames that any history of calls hands out have the reliabilities of the rules' frames.
pub fn reliabilities_of_calls()
    ensures { reliable_calls }
{}
