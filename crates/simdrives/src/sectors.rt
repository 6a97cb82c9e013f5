// What is in memory of one drive.
use std::collections::BTreeMap;

// What a sector held before a write: nothing where it was never written to.
#[derive(Drop)]
pub struct Before {
    pub sector: u64,
    pub bytes: Option<Box<[u8; 512]>>,
}

// What the sectors hold, and what they held before each write since the last sync, the latest last: a sync forgets that, and a cut goes back by it.
#[derive(Drop)]
pub struct Sectors {
    pub holds: BTreeMap<u64, Box<[u8; 512]>>,
    pub undo: Vec<Before>,
}
