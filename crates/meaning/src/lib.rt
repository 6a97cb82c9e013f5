// The laws of the meaning. Each function only carries its theorem.
#![tactic(auto)]

ghost use Rattle.meaning.specs.Examples.{ExamplesPlay};
ghost use Rattle.meaning.specs.Laws.{NumbersTell, Stays, HeldStays, HeldUntil, HoldEnds, ListExact, NumbersRise, RefusalsChangeNothing, WeightGrows, FullOnly, RulesAlone, SameTimeAgain, StaysInBounds};

// The worked examples are answered as they say.
pub fn examples_play()
    ensures { ExamplesPlay }
{}

// A number tells one content, one time, one room and one key, for good; its hold only grows.
pub fn numbers_tell()
    ensures { NumbersTell }
{}

// What is put stays, but for the ways that are named; and what goes by those isn't held.
pub fn what_is_put_stays()
    ensures { Stays }
{}

// What is held stays through any run, until its time.
pub fn what_is_held_stays()
    ensures { HeldStays }
{}

// That is, as long as the time of the house is below its hold.
pub fn held_until()
    ensures { HeldUntil }
{}

// And not for longer: its number is refused as held only before its time.
pub fn hold_ends()
    ensures { HoldEnds }
{}

// A list shows every key that it should, once, in order, and nothing else.
pub fn list_exact()
    ensures { ListExact }
{}

// A number that is answered is the next one, and every number there is lies below the next.
pub fn numbers_rise()
    ensures { NumbersRise }
{}

// What is turned away changes nothing.
pub fn refusals_change_nothing()
    ensures { RefusalsChangeNothing }
{}

// Only making a room, putting, beginning an upload, putting a part and removing the latest make the weight grow.
pub fn weight_grows()
    ensures { WeightGrows }
{}

// So only these are ever answered by full.
pub fn full_only()
    ensures { FullOnly }
{}

// Rules do to each thing what they would do if it were alone.
pub fn rules_alone()
    ensures { RulesAlone }
{}

// The same time told again changes nothing.
pub fn same_time_again()
    ensures { SameTimeAgain }
{}

// Nothing outgrows its bound, and every name and number is in range.
pub fn stays_in_bounds()
    ensures { StaysInBounds }
{}
