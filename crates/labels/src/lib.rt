// The label of a drive: its sector 0, read and written. The bytes are laid out in docs/LAYOUT.md.
#![tactic(auto)]

ghost use Rattle.std.specs.Prelude.{◌≡◌};
ghost use Rattle.root.specs.Labels.{sector as whole};
ghost use Rattle.labels.specs.Times.{byte_of, payload_of, number, label_in, label_bytes, trusts, committed_on, LabelsStand};

use register::Payload;

// The bytes of a sector.
pub const SECTOR_BYTES: u64 = 512;

// The fewest and the most sectors that a drive may have.
pub const FEWEST_SECTORS: u64 = 8192;

pub const MOST_SECTORS: u64 = 1 << 40;

// What a drive shows: it is not there, it is new, it is being filled, it has a record, or it is none of ours.
#[derive(Clone, Copy)]
pub enum Label {
    Missing,
    Blank,
    Rebuilding,
    Empty,
    Committed(Payload),
    Foreign,
}

impl Label {
    // Whether a drive that shows this is trusted: it has a record, of either kind.
    pub fn is_trusted(self) -> bool
        ensures { result ≡ trusts self }
    {
        matches!(self, Label::Empty | Label::Committed(_))
    }

    // What was committed, by this label.
    pub fn committed(self) -> Option<Payload>
        ensures { result ≡ committed_on self }
    {
        match self {
            Label::Committed(p) => Some(p),
            _ => None,
        }
    }
}

// The labels that are written in a sector of their own kind.
#[derive(Clone, Copy)]
enum Kind {
    Empty,
    Committed,
    Rebuilding,
}

impl From<Kind> for u8 {
    ghost from_gives = { λ kind byte. byte ≡ byte_of kind };

    fn from(kind: Kind) -> u8 {
        match kind {
            Kind::Empty => 1,
            Kind::Committed => 2,
            Kind::Rebuilding => 3,
        }
    }
}

// A label of a kind.
fn laid(kind: Kind, time: u64) -> [u8; 512]
    ensures { result ≡ whole (byte_of kind) (payload_of time) }
{
    let mut b = [0; 512];
    b[0..8].copy_from_slice(b"luvdjast");
    b[8] = 1;
    b[9] = u8::from(kind);
    b[16..24].copy_from_slice(&time.to_be_bytes());
    b
}

// The time in the payload of a sector.
fn time_in(sector: &[u8; 512]) -> u64
    ensures { result ≡ number 16 sector.now }
{
    u64::from_be_bytes(sector[16..24].try_into().unwrap())
}

// What a sector shows. It is a label only if it is what would be written for that label, so nothing else is taken for one.
fn label_in(sector: &[u8; 512]) -> Label
    ensures { result ≡ label_in sector.now }
{
    let time = time_in(sector);
    if *sector == [0; 512] {
        Label::Blank
    } else if *sector == laid(Kind::Rebuilding, 0) {
        Label::Rebuilding
    } else if *sector == laid(Kind::Empty, 0) {
        Label::Empty
    } else if *sector == laid(Kind::Committed, time) {
        Label::Committed(Payload { time })
    } else {
        Label::Foreign
    }
}

// What a drive shows, by the bytes that its sector 0 reads as; nothing is read of a drive that is not there.
// It takes any bytes: a narrower type would ask more of who calls.
pub fn read_label(sector: &[u8]) -> Label
    ensures { result ≡ label_in sector.now }
{
    match sector.as_array::<512>() {
        Some(whole) => label_in(whole),
        None if sector.is_empty() => Label::Missing,
        None => Label::Foreign,
    }
}

// The sector that has the label of a record: of what was committed, or that nothing ever was.
pub fn write_label(committed: Option<Payload>) -> [u8; 512]
    ensures { result ≡ label_bytes committed }
{
    match committed {
        None => laid(Kind::Empty, 0),
        Some(p) => laid(Kind::Committed, p.time),
    }
}

// What is written is read back, nothing else is a label, and with these labels the root record stands.
pub fn labels_stand()
    ensures { LabelsStand }
{}
