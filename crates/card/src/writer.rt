// Records made, and written into lent memory.
ghost use Rattle.std.specs.Prelude.{◌≡◌, ◌+◌, ◌≤◌, length};
ghost use Rattle.std.proofs.lemmas.List.Edits.{sets};
ghost use Rattle.position.specs.Board.{checkers, Accepted};
ghost use Rattle.card.specs.Records.{RecordMade};

use crate::reader::{TURN_BYTES, TURN_MARK, is_finished};
use ints::refusal::Refusal;

// The record of a turn from a board to an end, which is given with sides switched. Refusals 25, 7, 12.
#[tactic(auto, unfolding(dice::specs::Dice::dice_byte_of))]
pub fn turn_record(
    b: [i8; 26],
    die1: usize,
    die2: usize,
    end: [i8; 26],
) -> Result<[u8; TURN_BYTES], Refusal>
    requires { Accepted checkers b }
    ensures { RecordMade b die1 die2 end result }
{
    if is_finished(&b) {
        return Err(Refusal::TurnAfterFinish);
    }
    let byte = dice::dice_byte(die1, die2)?;
    let number = end_number::end_number(b, die1, die2, end)?;
    let [low, high] = (number as u16).to_le_bytes();
    Ok([TURN_MARK[0], TURN_MARK[1], byte, low, high])
}

// Writes the bytes from a place of the buffer on.
pub fn put(buffer: &mut [u8], at: usize, bytes: &[u8])
    requires { at + length bytes.now ≤ length buffer.old }
    ensures { buffer.new ≡ sets buffer.old at bytes.now }
{
    buffer[at..at + bytes.len()].copy_from_slice(bytes);
}
