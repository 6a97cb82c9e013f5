// What a stretch of mending does: which drives get the current record.
#![tactic(auto)]

ghost use Rattle.std.specs.Prelude.{◌≡◌, ◌≤◌};
ghost use Rattle.mending.specs.Stretches.{stretch_of, StretchAsks};

use labels::Label;

// Which drives are filled, and how much is asked for: the six reads, a write to each that is filled, and the six syncs.
#[derive(Clone, Copy)]
pub struct Stretch {
    pub fills: [bool; 6],
    pub asks: u16,
}

// A drive that shows no record lacks it, and gets it. A drive that shows one has the current record already.
pub fn plan_stretch(seen: [Label; 6]) -> Stretch
    ensures is { result ≡ stretch_of seen }
    ensures short { result.asks ≤ 18 }
{
    let fills = seen.map(|l| !l.is_trusted());
    let writes = fills.iter().filter(|f| **f).count();
    Stretch {
        fills,
        asks: 12 + writes as u16,
    }
}

// The root record's mending asks for just as much as is counted here.
pub fn stretch_asks()
    ensures { StretchAsks }
{}
