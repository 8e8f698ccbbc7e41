// The C function that recovers the steps behind an end, over a row of steps that the caller lends. It is the one function that holds
// the row; all else is done by functions over plain values.
ghost use Rattle.std.specs.Prelude.{◌≡◌, length};
ghost use Rattle.ints.specs.Answer.{packed};
ghost use Rattle.position.specs.Board.{checkers};
ghost use Rattle.bg_move.specs.Answers.{row_answer, row_after};

use bg_move::Step;
use ints::refusal::Refusal;

// Writes the steps from the old board to an end, which is told from the mover's side, to the row's first places, and answers their
// number; a row with fewer places stays as it was.
pub fn munchalep_recover(
    old: &[i8; 26],
    end: &[i8; 26],
    die1: usize,
    die2: usize,
    row: &mut [Step],
) -> u64
    ensures { (result ≡ packed (row_answer checkers old.now die1 die2 end.now (length row.old))) × (row.new ≡ row_after checkers old.now die1 die2 end.now row.old) }
{
    let found = match bg_move::recover(*old, *end, die1, die2) {
        Ok(steps) => steps,
        Err(refusal) => return refusal.number() as u64,
    };
    let steps = found.as_slice();
    if row.len() < steps.len() {
        return Refusal::RowTooShort.number() as u64;
    }
    // One by one, and no `copy_from_slice`: with a length that is known only when it runs that is a call of the C library's memcpy.
    for i in 0..steps.len() {
        row[i] = found.at(i);
    }
    256 * (steps.len() as u64)
}
