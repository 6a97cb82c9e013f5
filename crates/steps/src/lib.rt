// Machines in code: each does one step at a time and asks for one thing at a time, and is tied to the machine of the theorems.
#![tactic(auto)]

ghost use Rattle.std.specs.Prelude.{◌≡◌};
ghost use Rattle.steps.specs.Steps.{unused, sector_at, placed};

pub mod layers;
pub mod machines;

// The memory that is lent to a machine for its sectors. It means nothing between calls. A machine that wants more of it gets a field of its own here.
#[derive(Drop)]
pub struct Lent {
    pub bytes: [u8; 4096],
}

impl Lent {
    pub fn new() -> Lent
        ensures { result ≡ unused }
    {
        Lent { bytes: [0; 4096] }
    }

    // As it is at first.
    pub fn clear(&mut self)
        ensures { self.new ≡ unused }
    {
        *self = Lent::new();
    }

    // The sector that a request to write means.
    pub fn sector(&self, at: usize) -> [u8; 512]
        ensures { result ≡ sector_at at self.now }
    {
        let a = at.min(3584);
        let mut b = [0; 512];
        b.copy_from_slice(&self.bytes[a..a + 512]);
        b
    }

    // Puts a sector where a request to write means it; what is no sector is left out. It takes any bytes, as `step` hands on what was read: a narrower type
    // would ask more of who calls.
    pub fn place(&mut self, at: usize, got: &[u8])
        ensures { self.new ≡ placed at got.now self.old }
    {
        if got.len() == 512 {
            let a = at.min(3584);
            self.bytes[a..a + 512].copy_from_slice(got);
        }
    }
}

// What a step asks for. A sector that is written is the 512 lent bytes from `at` on, or the last ones.
#[derive(Clone, Copy, PartialEq, Eq)]
pub enum Ask {
    Read { drive: u8, sector: u64 },
    Write { drive: u8, sector: u64, at: usize },
    Sync { drive: u8 },
    Again,
    Done,
}

// What a stack is at: the lower machine comes up; a call was begun; the lower machine answers a call of the upper one; it mends.
#[derive(Clone, Copy, PartialEq, Eq)]
pub enum Doing {
    Opens,
    Begun,
    Waits,
    Mends,
}

// A layer over a machine.
#[derive(Drop)]
pub struct Stack<U, L> {
    pub upper: U,
    pub lower: L,
    pub doing: Doing,
}
