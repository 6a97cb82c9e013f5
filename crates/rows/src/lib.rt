// Rows and one payload: what a layer above the drives may count on.
#![tactic(auto)]

ghost use Rattle.rows.specs.Laws.{Kinds, RowsStay};

// What rows hold, and what a payload is.
pub trait RowKinds: Sized {
    ghost kinds: { Kinds };
}

// What was written to a row and committed is read from it, through any calls and cuts, until it is written again.
pub fn committed_rows_stay<S: RowKinds>()
    ensures { RowsStay S.RowKinds.kinds }
{}
