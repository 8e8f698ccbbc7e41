// The number of an end: its place in the list of a roll's ends. Found without a list of them: a window of some ends, in fixed memory,
// moves over the generator's list, and each end that it shows is compared.
#![tactic(auto)]

ghost use Rattle.std.specs.Prelude.{◌≡◌, ◌≤◌, ◌↔◌, IsTrue, map};
ghost use Rattle.ints.specs.Twos.{from_twos};
ghost use Rattle.position.specs.Board.{checkers};
ghost use Rattle.end_number.specs.Number.{number_told, number_answer};
ghost use Rattle.end_number.specs.Slots.{FirstHeld};

use ints::refusal::Refusal;

// The ends that the window shows at once, and their bytes, 26 for each.
const SLOTS: usize = 32;

const BYTES: usize = SLOTS * 26;

// The number of the end, which is given as it stands in the list, with sides switched. Refusals 1 to 4, 6, 5, 7, then 12 where it is no
// end of the roll.
pub fn end_number(b: [i8; 26], die1: usize, die2: usize, end: [i8; 26]) -> Result<usize, Refusal>
    ensures { number_told result ≡ number_answer checkers b die1 die2 end }
{
    moves::check_play(b, die1, die2)?;
    let mut slots = [0u8; BYTES];
    let mut from = 0;
    loop {
        let left = moves::fill(&b, die1, die2, &mut slots, from) - from;
        let shown = left.min(SLOTS);
        if let Some(i) = slot_of(&slots, shown, &end) {
            return Ok(from + i);
        }
        if left <= SLOTS {
            return Err(Refusal::NotAnEnd);
        }
        from += SLOTS;
    }
}

// The first of n slots that holds the board.
fn slot_of(slots: &[u8; BYTES], n: usize, board: &[i8; 26]) -> Option<usize>
    requires { n ≤ 32 }
    ensures { FirstHeld slots.now n board.now result }
{
    let (ends, _) = slots.as_chunks::<26>();
    ends[..n].iter().position(|end| holds(end, board))
}

// Whether a slot holds the board.
fn holds(slot: &[u8; 26], board: &[i8; 26]) -> bool
    ensures { IsTrue result ↔ map from_twos slot.now ≡ board.now }
{
    for i in 0..26 {
        if ints::entry_of(slot[i]) != board[i] {
            return false;
        }
    }
    true
}
