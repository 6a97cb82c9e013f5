// The theorems on stripes of six pieces, any four of which give all back. `pieces` has the code.
#![tactic(auto)]

ghost use Rattle.field.specs.Code.{AnyFour};
ghost use Rattle.field.specs.Stripe.{four_of_six, RebuildsSame, ZerosStay};

// Any four of the six pieces give the data back.
pub fn any_four_stands()
    ensures { AnyFour four_of_six }
{}

// A piece that is made anew of any four is the piece that encoding gave.
pub fn rebuilds_same()
    ensures { RebuildsSame }
{}

// Pieces of zeros have parities of zeros, so that a blank stripe is a sound one.
pub fn zeros_stay()
    ensures { ZerosStay }
{}
