// From `all_positions_after_moving` of position.rs: the ends of a roll, listed, counted, or asked by number.
// One generator with a window serves all three: it passes the ends in document 01's order, counts them, and writes those whose
// numbers fall in the lent memory.
#![tactic(auto)]

pub mod double_moves;
pub mod ends;
pub mod mixed_moves;
pub mod order;
pub mod points;
pub mod window;

ghost use Rattle.std.specs.Prelude.{◌≡◌, map, length};
ghost use Rattle.ints.specs.Refusals.{refusal_in, told, told_with};
ghost use Rattle.ints.specs.Twos.{from_twos};
ghost use Rattle.position.specs.Board.{checkers};
ghost use Rattle.position.specs.Answers.{board_told};
ghost use Rattle.rules.specs.Ends.{ends_of};
ghost use Rattle.moves.specs.Bytes.{Passed};
ghost use Rattle.moves.specs.Answers.{Playable, CanPlay, ends_count, list_answer, listed_in, count_answer, end_answer};

use ints::refusal::{Refusal, Refused};
use mixed_moves::Pair;
use window::Window;

// More bytes than any roll's ends take: 26 for each of 17,550.
const ROOM: usize = 456300;

// Lists the ends of a roll, 26 bytes an end, sides switched, and answers their number. Refusals 1 to 4, 6, 5, 7, then 10, with the number
// of ends, where the list is shorter than they are; it then stays as it was.
pub fn list(b: [i8; 26], die1: usize, die2: usize, out: &mut [u8]) -> Result<usize, Refused>
    ensures { (told_with result ≡ list_answer checkers b die1 die2 (length out.old)) × (out.new ≡ listed_in checkers b die1 die2 out.old) }
{
    check_play(b, die1, die2)?;
    if out.len() < ROOM {
        let n = number_of_ends(&b, die1, die2);
        if out.len() < n * 26 {
            return Err(Refused {
                why: Refusal::ListTooShort,
                carried: n,
            });
        }
    }
    Ok(fill(&b, die1, die2, out, 0))
}

// The number of ends of a roll. Refusals 1 to 4, 6, 5, 7.
pub fn count(b: [i8; 26], die1: usize, die2: usize) -> Result<usize, Refusal>
    ensures { told result ≡ count_answer checkers b die1 die2 }
{
    check_play(b, die1, die2)?;
    Ok(number_of_ends(&b, die1, die2))
}

// The end with a number, counted from 0 in the list's order, sides switched. Refusals 1 to 4, 6, 5, 7, then 11 where there is none.
pub fn end(b: [i8; 26], die1: usize, die2: usize, number: usize) -> Result<[i8; 26], Refusal>
    ensures { board_told result ≡ end_answer checkers b die1 die2 number }
{
    check_play(b, die1, die2)?;
    let mut slot = [0u8; 26];
    let n = fill(&b, die1, die2, &mut slot, number);
    if n <= number {
        return Err(Refusal::NoSuchEnd);
    }
    Ok(board_of(slot))
}

// The first of the refusals 1 to 4, 6, 5, 7 of a board and two dice, if there is one.
pub fn check_play(b: [i8; 26], die1: usize, die2: usize) -> Result<(), Refusal>
    ensures { Playable checkers b die1 die2 (refusal_in result) }
{
    position::check_start(b)?;
    if !dice::is_die(die1) {
        return Err(Refusal::DieOutside1To6);
    }
    if !dice::is_die(die2) {
        return Err(Refusal::DieOutside1To6);
    }
    Ok(())
}

// The number of ends: the generator's, with no room for any.
fn number_of_ends(b: &[i8; 26], die1: usize, die2: usize) -> usize
    requires { CanPlay checkers b.now die1 die2 }
    ensures { result ≡ ends_count b.now die1 die2 }
{
    let mut none = [0u8; 1];
    fill(b, die1, die2, &mut none, 0)
}

// Passes the ends of a roll, from number 0 on, and writes those that fall in the window that begins at the end with number `from`.
// The number of ends.
pub fn fill(b: &[i8; 26], die1: usize, die2: usize, out: &mut [u8], from: usize) -> usize
    requires { CanPlay checkers b.now die1 die2 }
    ensures { Passed (ends_of b.now die1 die2) out.old from 0 result out.new }
{
    let mut window = Window::new(out, from);
    if die1 == die2 {
        return double_moves::double_ends(b, die1, &mut window);
    }
    let dice = Pair {
        small: die1.min(die2),
        big: die1.max(die2),
    };
    mixed_moves::mixed_ends(b, dice, &mut window)
}

// The board in 26 bytes, two's complement.
fn board_of(bytes: [u8; 26]) -> [i8; 26]
    ensures { result ≡ map from_twos bytes }
{
    let mut board = [0i8; 26];
    for i in 0..26 {
        board[i] = ints::entry_of(bytes[i]);
    }
    board
}
