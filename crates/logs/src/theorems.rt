ghost use Rattle.logs.specs.Promises.{CallsFixReplies, NumbersRise};

use kinds::Kind;

// Nothing but the calls decides the replies: over one plant, the same calls are answered alike.
pub fn the_calls_fix_the_replies<K: Kind>()
    ensures the_same_calls_are_answered_alike { CallsFixReplies K.Value K.Test }
{}

// The first check that holds is the one with the lowest number.
pub fn the_numbers_of_the_checks_rise<K: Kind>()
    ensures checks_stand_in_rising_order { NumbersRise K.Value K.Test }
{}
