// Reads one card from standard input and prints its text.
#![tactic(auto)]

use std::io;
use std::io::Print;

// One byte more than the longest card, 12 for its start and 5 for each of 1,000 turns: a longer card is refused at that byte,
// whatever comes after it.
const CARD: usize = 5013;

fn main(rt: HostRuntime) -> io::Result<()> {
    let mut card = [0u8; CARD];
    let length = stored::read_full(&mut rt.stdin(), &mut card)?;
    let mut text = [0u8; card_text::ROOM];
    let bytes = card_text::text(&card[..length], &mut text).unwrap();
    rt.write_all(&text[..bytes])
}
