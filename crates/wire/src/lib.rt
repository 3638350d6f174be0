// Calls and answers as bytes. What they stand for in the written till is in specs/Meant.antt.
#![tactic(auto)]

ghost use Rattle.wire.specs.Back.{CallsBack, CallsDiffer, AnswersBack, FrontsRefused, PlaceRight};

pub mod answer;
pub mod call;

// The theorems of calls and answers as bytes. The function does nothing: the check asks for a proof only where a contract
// names the statement.
pub fn laws_stand()
    // What was written as a call is read, and what is read as one was written.
    ensures calls_back { CallsBack }

    // Different calls have different bytes.
    ensures calls_differ { CallsDiffer }

    // What was written as an answer is read, and what is read as one was written.
    ensures answers_back { AnswersBack }

    // Every front of a call's bytes is refused at its own length, but where it is itself a sale.
    ensures fronts_refused { FrontsRefused }

    // The place of what can't be read is the length of the longest front with which some call begins.
    ensures place_right { PlaceRight }
{}
