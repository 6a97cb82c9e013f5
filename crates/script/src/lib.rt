// What a rehearsal's script says beyond what both programs are told, and which drives may be lost.
#![tactic(auto)]

ghost use Rattle.std.specs.Prelude.{◌≡◌, ℕ, ◌<◌, ◌==◌, List, length, position, IfSome};
ghost use Rattle.console.specs.Commands.{Trims};
ghost use Rattle.script.specs.Numbers.{number_after};
ghost use Rattle.script.specs.Orders.{chosen_of, cut_in, cut_of, numbered, order_of};

mod numbers;
mod weak;

use numbers::number;
pub use weak::Weak;

// What each sector that was not synced holds after a cut: by a seed, where 0 is all old and 1 all the newest, or by the bits of a number.
#[derive(Clone, Copy)]
pub enum Chosen {
    Seed(u64),
    Bits(u64),
}

#[derive(Clone, Copy)]
pub enum Order {
    Drives(u64),
    Longest(u64),
    MendWhole,
    Lose(u64),
    Replace(u64),
    Asked,
    Cut { after: u64, chosen: Chosen },
}

// The number that follows a word.
fn number_after(text: &[u8], word: &[u8]) -> Option<u64>
    ensures { result ≡ number_after word.now text.now }
{
    number(text.strip_prefix(word)?)
}

// Where the first space stands.
fn first_space(text: &[u8]) -> Option<usize>
    ensures value { result ≡ position (λ c. c == 32) text.now }
    ensures bound { IfSome result (λ n. n < length text.now) }
{
    text.iter().position(|c| *c == b' ')
}

fn read_chosen(text: &[u8]) -> Option<Chosen>
    ensures { result ≡ chosen_of text.now }
{
    let bits = number_after(text, b"bits ").map(Chosen::Bits);
    bits.or(number(text).map(Chosen::Seed))
}

// A cut by what follows the word.
fn cut_in(text: &[u8]) -> Option<Order>
    ensures { result ≡ cut_in text.now }
{
    let n = first_space(text)?;
    let after = number(&text[..n])?;
    let chosen = read_chosen(&text[n + 1..])?;
    Some(Order::Cut { after, chosen })
}

fn read_cut(text: &[u8]) -> Option<Order>
    ensures { result ≡ cut_of text.now }
{
    cut_in(text.strip_prefix(b"cut ")?)
}

fn with_number(text: &[u8]) -> Option<Order>
    ensures { result ≡ numbered text.now }
{
    if let Some(n) = number_after(text, b"drives ") {
        Some(Order::Drives(n))
    } else if let Some(n) = number_after(text, b"longest ") {
        Some(Order::Longest(n))
    } else if let Some(n) = number_after(text, b"lose ") {
        Some(Order::Lose(n))
    } else if let Some(n) = number_after(text, b"replace ") {
        Some(Order::Replace(n))
    } else {
        read_cut(text)
    }
}

fn order_in(text: &[u8]) -> Option<Order>
    ensures { result ≡ order_of text.now }
{
    // By `==`: a `match` on words is proved byte by byte, each case by a name of its own.
    if text == b"mend whole".as_slice() {
        Some(Order::MendWhole)
    } else if text == b"asked".as_slice() {
        Some(Order::Asked)
    } else {
        with_number(text)
    }
}

// What a line of text orders; none, where it is what the other program is told too, or no command at all. White space at its end doesn't count.
pub fn read_order(text: &[u8]) -> Option<Order>
    ensures { (t : List ℕ) × Trims text.now t × (result ≡ order_of t) }
{
    order_in(text.trim_ascii_end())
}
