// How rows of 16,384 bytes lie on six drives, of which any four give all back.
#![tactic(auto)]

ghost use Rattle.shards.specs.Shards.{bytes};
ghost use Rattle.stripes.specs.Coding.{LawfulCoding};

// The sectors of any four drives give the row back, and each sector of the other two.
pub fn shards_lawful()
    ensures { LawfulCoding bytes }
{}
