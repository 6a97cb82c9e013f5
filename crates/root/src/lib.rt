// The root record: one payload, kept on six drives, whatever becomes of two of them.
#![tactic(auto)]

ghost use Rattle.root.specs.Root.{LawfulCodec, RootStands};
ghost use Rattle.root.specs.Labels.{LabelledRootStands};

// How labels are sectors.
pub trait Labelling: Sized {
    ghost labels: { LawfulCodec };
}

// What was set is got, after any cut, loss, replacement and mending, however labels are written.
pub fn any_root_stands<L: Labelling>()
    ensures { RootStands L.Labelling.labels.codec }
{}

// The same for labels with payloads of 480 bytes.
pub fn root_stands()
    ensures { LabelledRootStands }
{}
