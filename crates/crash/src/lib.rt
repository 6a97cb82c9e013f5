// What a machine on six drives is shown by: an invariant that every step keeps, wherever the power fails.
#![tactic(auto)]

ghost use Rattle.crash.specs.Refinement.{Refinement, KeepsAt};

// A machine, its judge, and an invariant for which each step's obligation holds.
pub trait Refined: Sized {
    ghost refinement: { Refinement };
}

// It keeps to its judge, whatever happens to it, and stays within bounds.
pub fn refined_keeps<S: Refined>()
    ensures { KeepsAt S.Refined.refinement }
{}
