// Six drives, machines and layers on them: the theorems by which a system is proved layer by layer.
#![tactic(auto)]

ghost use Rattle.drives.specs.Layers.{Setting, ComposeAt, WithinAt};
ghost use Rattle.drives.specs.Simulation.{Showing, KeepsAt};

// A machine, a layer above it, and their judges.
pub trait Layered: Sized {
    ghost setting: { Setting };
}

// A layer, the judges below and above it, and the relation that ties their states.
pub trait Shown: Sized {
    ghost showing: { Showing };
}

// A layer that is right above a judge is right above every machine that keeps to it.
pub fn layers_compose<S: Layered>()
    ensures { ComposeAt S.Layered.setting }
{}

// A layer uses the drives as fairly as the machine below it, and its stretches are no longer.
pub fn layers_stay_within<S: Layered>()
    ensures { WithinAt S.Layered.setting }
{}

// A layer for which each step's obligation holds is right above its judge.
pub fn shown_keeps<S: Shown>()
    ensures { KeepsAt S.Shown.showing }
{}
