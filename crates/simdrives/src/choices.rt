// How a cut chooses what each sector holds after it.
ghost use Rattle.std.specs.Prelude.{◌≡◌, ◌+◌, ◌^◌, ◌<◌};
ghost use Rattle.simdrives.specs.Chances.{stirred, mixed_of, undoes, chosen_next};

use std::collections::BTreeMap;

// Of the contents since the last sync: all old, all the newest, some by a seed, or by the bits of a number, the lowest for the first sector that has such contents.
#[derive(Clone, Copy, Debug, PartialEq, Eq)]
pub enum Choice {
    Old,
    Newest,
    Seed(u64),
    Bits(u64),
}

fn stir(x: u64, k: u32, m: u64) -> u64
    requires { k < 64 }
    ensures { result ≡ stirred k m x }
{
    (x ^ (x >> k)).wrapping_mul(m)
}

// What a state of splitmix64 gives.
fn mixed(state: u64) -> u64
    ensures { result ≡ mixed_of state }
{
    let a = stir(state, 30, 0xbf58_476d_1ce4_e5b9);
    let b = stir(a, 27, 0x94d0_49bb_1331_11eb);
    b ^ (b >> 31)
}

impl Choice {
    // How many of `writes` writes to the next sector are undone.
    pub fn next(&mut self, writes: u64) -> u64
        requires { writes + 1 < 2 ^ 64 }
        ensures undoes { result ≡ undoes self.old writes }
        ensures onward { self.new ≡ chosen_next self.old }
    {
        match *self {
            Choice::Old => writes,
            Choice::Newest => 0,
            Choice::Seed(state) => {
                let state = state.wrapping_add(0x9e37_79b9_7f4a_7c15);
                *self = Choice::Seed(state);
                mixed(state) % (writes + 1)
            }
            Choice::Bits(bits) => {
                *self = Choice::Bits(bits / 2);
                if bits % 2 == 0 { writes } else { 0 }
            }
        }
    }

    // Turns the number of writes to each sector, in the order of the sectors, into how many of them are undone.
    pub fn choose_all(&mut self, counts: &mut BTreeMap<u64, u64>) {
        for n in counts.values_mut() {
            *n = self.next((*n).min(u64::MAX - 1));
        }
    }
}
