// One payload that is kept whatever happens: its calls and replies. What they come to is in specs/Register.antt.
#![tactic(auto)]

// What a root record carries. By default no time was told.
#[derive(Clone, Copy, Default, PartialEq, Eq)]
pub struct Payload {
    // the time that was last told, in ms; 0 for none, as on the drives and in the written meaning
    pub time: u64,
}

// An enum and no Option of a payload, where None would have to mean `get`.
#[derive(Clone, Copy, PartialEq, Eq)]
pub enum Call {
    Set(Payload),
    Get,
}

// Likewise, where None would have to mean that it was set.
#[derive(Clone, Copy, PartialEq, Eq)]
pub enum Reply {
    Done,
    Is(Payload),
}
