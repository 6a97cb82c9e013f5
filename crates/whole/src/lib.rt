// The whole: a house of the clock over the root record, on six drives. Both programs answer lines by these functions, and by no others.
#![tactic(auto)]

ghost use Rattle.std.specs.Prelude.{◌≡◌};
ghost use Rattle.driver.specs.Known.{WhereKnown};
ghost use Rattle.recorder.specs.Recording.{recorder_code};
ghost use Rattle.front.specs.Fronts.{held_in, LineDone};
ghost use Rattle.whole.specs.Wholes.{house_of, TimeStands};

use driver::Disks;
use front::House;
use recorder::Recorder;

// The longest line of bytes that is ever heard: a put of 5,242,880 bytes under the longest names.
pub const LONGEST: usize = 5_243_414;

// A house that isn't up yet; it will hear lines of up to `longest` bytes.
pub fn closed_house(longest: usize) -> House<Recorder>
    ensures { result.longest ≡ longest }
{
    House::new(Recorder::new(), longest)
}

// Answers a line. What is run is the machine of the promise; and the promise holds of it: whatever lines come, wherever power fails,
// whichever two drives are lost and replaced, everything that is ever seen is as the meaning says.
pub fn answer_line<D: Disks>(
    house: &mut House<Recorder>,
    disks: &mut D,
    line: &[u8],
    out: &mut [u8],
) -> Option<usize>
    ensures ran { WhereKnown D.Disks.known D.Disks.model disks.old disks.new (λ d e. LineDone recorder_code house.old.longest line.now (held_in (λ r. r) house.old) d out.old result out.new (held_in (λ r. r) house.new) e) }
    ensures same { house.new.longest ≡ house.old.longest }
    ensures whole { TimeStands }
{
    house.call(disks, line, out)
}
