// Rows and one payload on six drives, whatever becomes of two of them at a time.
#![tactic(auto)]

ghost use Rattle.stripes.specs.Stripes.{Setting, StripesStand};

// How labels are sectors, and how rows lie on drives.
pub trait Striped: Sized {
    ghost setting: { Setting };
}

// Rows and payload are as their judge says, through any calls, cuts, losses and replacements; mending says whole soon.
pub fn stripes_stand<S: Striped>()
    ensures { StripesStand S.Striped.setting.codec S.Striped.setting.coding }
{}
