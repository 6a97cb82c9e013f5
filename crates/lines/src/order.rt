// Which lines are turned away, and in which order.
ghost use Rattle.std.specs.Prelude.{◌≡◌};
ghost use Rattle.std.specs.Option.{option_map};
ghost use Rattle.lines.specs.Replies.{refusal};
ghost use Rattle.meaning.specs.Does.{core};
ghost use Rattle.lines.specs.Means.{meant, means};
ghost use Rattle.lines.specs.Kinds.{code_of, Decodes};
ghost use Rattle.lines.specs.Order as order;
ghost use Rattle.lines.specs.Order.{call_within, heard, kind_of, lacks_call, lacks_kind, tag_of, tells_time};
ghost use Rattle.lines.specs.Turns.{built_by, number_of, taken};

use crate::calls::{Call, read_call};
use crate::fields::number_in;
use crate::kinds::{Kind, Unknown};

#[derive(Clone, Copy, PartialEq, Eq)]
pub enum Refusal {
    // no call, or one with a value out of range
    Wrong = 1,
    Missing = 2,
    Exists = 3,
    // another version stands there than was expected
    Unexpected = 4,
    NotEmpty = 5,
    Held = 6,
    // a part of an upload isn't there
    Gap = 7,
    UsedUp = 8,
    // no time was told yet
    NoTime = 10,
    NotBuilt = 12,
}

// The number that stands for it on a line.
impl From<Refusal> for u8 {
    ghost from_gives = { λ why number. number ≡ number_of why };

    fn from(why: Refusal) -> u8 {
        why as u8
    }
}

impl TryFrom<u8> for Refusal {
    type Error = Unknown;

    ghost try_from_gives = { Decodes number_of refusal };

    fn try_from(number: u8) -> Result<Refusal, Unknown> {
        match number {
            1 => Ok(Refusal::Wrong),
            2 => Ok(Refusal::Missing),
            3 => Ok(Refusal::Exists),
            4 => Ok(Refusal::Unexpected),
            5 => Ok(Refusal::NotEmpty),
            6 => Ok(Refusal::Held),
            7 => Ok(Refusal::Gap),
            8 => Ok(Refusal::UsedUp),
            10 => Ok(Refusal::NoTime),
            12 => Ok(Refusal::NotBuilt),
            _ => Err(Unknown(number)),
        }
    }
}

// What is built so far.
#[derive(Clone, Copy, PartialEq, Eq)]
pub enum Built {
    Nothing,
    Time,
    Core,
    All,
}

// Is it a kind of call of which nothing is built?
fn lacks_kind(built: Built, kind: Option<Kind>) -> bool
    ensures { result ≡ lacks_kind (built_by built) (option_map code_of kind) }
{
    let Some(kind) = kind else {
        return false;
    };
    match built {
        Built::Nothing => true,
        Built::Time => kind != Kind::Time,
        Built::Core => !matches!(
            kind,
            Kind::MakeRoom
                | Kind::DropRoom
                | Kind::Put
                | Kind::Get
                | Kind::Remove
                | Kind::Look
                | Kind::Time
        ),
        Built::All => false,
    }
}

// A call of the core: whole objects, no older versions.
#[tactic(auto, unfolding(meaning::specs::Does::core))]
fn in_core(call: Call<'_>) -> bool
    ensures { result ≡ core (means call.entry) }
{
    match call {
        Call::MakeRoom { .. }
        | Call::DropRoom { .. }
        | Call::Put { .. }
        | Call::Look { .. }
        | Call::Time { .. } => true,
        Call::Get { number, .. } | Call::Remove { number, .. } => number == 0,
        _ => false,
    }
}

#[tactic(auto, unfolding(meaning::specs::Does::is_tick))]
fn lacks_call(built: Built, call: Option<Call<'_>>) -> bool
    ensures { result ≡ lacks_call (built_by built) (meant call.entry) }
{
    let Some(call) = call else {
        return false;
    };
    match built {
        Built::Nothing => true,
        Built::Time => !matches!(call, Call::Time { .. }),
        Built::Core => !in_core(call),
        Built::All => false,
    }
}

// The tag that the answer bears, whatever the line's length says; 0 where there is none, as docs/MEANING.md has it.
pub fn tag_of(line: &[u8]) -> u32
    ensures { result ≡ tag_of line.now }
{
    let Some(rest) = line.get(4..) else {
        return 0;
    };
    number_in(rest).map_or(0, |(tag, _)| tag)
}

pub fn kind_of(line: &[u8]) -> Option<u8>
    ensures { result ≡ kind_of line.now }
{
    line.get(8).copied()
}

// The kind of call that stands on the line, if there is one.
fn call_kind(line: &[u8]) -> Option<Kind>
    ensures lacks { (b : order.Built) → lacks_kind b (option_map code_of result) ≡ lacks_kind b (kind_of line.now) }
    ensures time { tells_time (option_map code_of result) ≡ tells_time (kind_of line.now) }
{
    Kind::try_from(kind_of(line)?).ok()
}

fn read_within(longest: usize, line: &[u8]) -> Option<Call<'_>>
    ensures { meant result ≡ call_within longest line.now }
{
    if longest < line.len() {
        None
    } else {
        read_call(line)
    }
}

// The call on a line, or why it is turned away. `time` is 0 while none was told, as in docs/MEANING.md.
pub fn turned_away(
    line: &[u8],
    built: Built,
    longest: usize,
    time: u64,
    next: u64,
) -> Result<Call<'_>, Refusal>
    ensures { taken result ≡ heard (built_by built) longest line.now time next }
{
    let kind = call_kind(line);
    let call = read_within(longest, line);
    if lacks_kind(built, kind) || lacks_call(built, call) {
        return Err(Refusal::NotBuilt);
    }
    if kind != Some(Kind::Time) {
        if time == 0 {
            return Err(Refusal::NoTime);
        }
        if next >= 1 << 62 {
            return Err(Refusal::UsedUp);
        }
    }
    call.ok_or(Refusal::Wrong)
}
