// What the C interface answers: thin functions over the proved crates, which munchalep_c exports to C.
// Every function answers one number: the refusal's in the low byte, 0 for none, and 256 times the value above it. A board, a
// key or an input that is answered goes to an out parameter, which a refusal leaves as it was.
#![tactic(auto)]

pub mod game_card;
pub mod recover;

ghost use Rattle.std.specs.Prelude.{◌≡◌, ◌+◌, ◌*◌, ◌≤◌, T, length};
ghost use Rattle.std.specs.Result.{result_unwrap_or};
ghost use Rattle.ints.specs.Answer.{packed, carried};
ghost use Rattle.ints.specs.Refusals.{number, refusal_in, told_with};
ghost use Rattle.position.specs.Board.{checkers, refusal_of};
ghost use Rattle.position.specs.Phase.{phase_answer};
ghost use Rattle.position.specs.Answers.{switch_answer, step_answer};
ghost use Rattle.moves.specs.Answers.{list_answer, listed_in, count_answer, end_answer};
ghost use Rattle.key.specs.Key.{key_answer, board_of_key_answer};
ghost use Rattle.inputs.specs.Answers.{is_number, input_told, contact_answer, contact_lent, contact_input, race_answer, race_lent, race_input};
ghost use Rattle.munchalep.specs.Lent.{Put, PutKey, PutInput};

use inputs::{Contact, Race};
use ints::refusal::{Refusal, Refused};

// The refusal of a board, 1 to 4, or 0.
pub fn munchalep_check(board: &[i8; 26]) -> u64
    ensures { result ≡ refusal_of checkers board.now }
{
    refusal_number(position::check(*board).map_err(Refusal::from))
}

// The board seen from the other side.
pub fn munchalep_switch(board: &[i8; 26], out: &mut [i8; 26]) -> u64
    ensures { Put (switch_answer checkers board.now) out.old result out.new }
{
    put(position::switch(*board), out)
}

// The board, unswitched, after one checker moves from a point by a die.
pub fn munchalep_step(board: &[i8; 26], from: usize, die: usize, out: &mut [i8; 26]) -> u64
    ensures { Put (step_answer checkers board.now from die) out.old result out.new }
{
    put(position::try_move_single_checker(*board, from, die), out)
}

// The key of the board.
pub fn munchalep_key(board: &[i8; 26], key: &mut [u8; 10]) -> u64
    ensures { PutKey (key_answer checkers board.now) key.old result key.new }
{
    put(key::encode(*board), key)
}

// The board of the key.
pub fn munchalep_board_of_key(key: &[u8; 10], out: &mut [i8; 26]) -> u64
    ensures { Put (board_of_key_answer checkers key.now) out.old result out.new }
{
    put(key::decode(*key), out)
}

// The number of result and phase, 0 to 7, as the value.
pub fn munchalep_result(board: &[i8; 26]) -> u64
    ensures { result ≡ packed (phase_answer checkers board.now) }
{
    match position::phase::game_phase(*board) {
        Ok(phase) => 256 * (phase.number() as u64),
        Err(why) => why.number() as u64,
    }
}

// Lists the ends of a roll, 26 bytes an end, and answers their number; a list that is too short for them stays as it was.
pub fn munchalep_list(board: &[i8; 26], die1: usize, die2: usize, list: &mut [u8]) -> u64
    ensures { (result ≡ packed (list_answer checkers board.now die1 die2 (length list.old))) × (list.new ≡ listed_in checkers board.now die1 die2 list.old) }
{
    answer_number(moves::list(*board, die1, die2, list))
}

// The number of ends of a roll.
pub fn munchalep_count(board: &[i8; 26], die1: usize, die2: usize) -> u64
    ensures { result ≡ packed (count_answer checkers board.now die1 die2) }
{
    answer_number(moves::count(*board, die1, die2).map_err(Refused::from))
}

// The end of a roll with a number, counted from 0, sides switched.
pub fn munchalep_end(
    board: &[i8; 26],
    die1: usize,
    die2: usize,
    number: usize,
    out: &mut [i8; 26],
) -> u64
    ensures { Put (end_answer checkers board.now die1 die2 number) out.old result out.new }
{
    put(moves::end(*board, die1, die2, number), out)
}

// Fills exactly 202 floats with the contact net's inputs; any other number of them stays as it was. Lent floats are told by their
// bits, so that a refusal is promised to leave every byte, those of a NaN too.
pub fn munchalep_contact_inputs(board: &[i8; 26], inputs: &mut [u32]) -> u64
    ensures { (result ≡ packed (contact_answer checkers board.now (length inputs.old))) × (inputs.new ≡ contact_lent checkers board.now inputs.old) }
{
    refusal_number(inputs::fill::<Contact>(board, inputs))
}

// The same of the race net and exactly 186 floats.
pub fn munchalep_race_inputs(board: &[i8; 26], inputs: &mut [u32]) -> u64
    ensures { (result ≡ packed (race_answer checkers board.now (length inputs.old))) × (inputs.new ≡ race_lent checkers board.now inputs.old) }
{
    refusal_number(inputs::fill::<Race>(board, inputs))
}

// The contact net's input that has the place.
pub fn munchalep_contact_input(board: &[i8; 26], place: usize, out: &mut u32) -> u64
    ensures { PutInput (contact_input checkers board.now place) out.old result out.new }
{
    put_input(inputs::input::<Contact>(*board, place), out)
}

// The race net's input that has the place.
pub fn munchalep_race_input(board: &[i8; 26], place: usize, out: &mut u32) -> u64
    ensures { PutInput (race_input checkers board.now place) out.old result out.new }
{
    put_input(inputs::input::<Race>(*board, place), out)
}

// The number of an answer's refusal, 0 for none.
fn refusal_number<T: Copy>(answer: Result<T, Refusal>) -> u64
    ensures { result ≡ refusal_in answer }
{
    match answer {
        Ok(_) => 0,
        Err(why) => why.number() as u64,
    }
}

// The same; and what is answered, if it is not refused, goes to `out`.
fn put<T: Copy>(answer: Result<T, Refusal>, out: &mut T) -> u64
    ensures number { result ≡ refusal_in answer }
    ensures lent { out.new ≡ result_unwrap_or answer out.old }
{
    *out = answer.unwrap_or(*out);
    refusal_number(answer)
}

// The same of one input, whose bits go to `out`.
fn put_input(answer: Result<f32, Refusal>, out: &mut u32) -> u64
    requires { T (is_number (input_told answer)) }
    ensures { PutInput (input_told answer) out.old result out.new }
{
    match answer {
        Ok(value) => put(Ok(inputs::bits_of(value)), out),
        Err(why) => put(Err(why), out),
    }
}

// The number of an answer that is a number itself: 256 times that; or the refusal's number, and 256 times what it carries.
fn answer_number(answer: Result<usize, Refused>) -> u64
    requires { carried (told_with answer) ≤ 17550 }
    ensures { result ≡ packed (told_with answer) }
{
    match answer {
        Ok(n) => 256 * (n as u64),
        Err(refused) => refused_number(refused),
    }
}

// A refusal's number, and 256 times what it carries.
fn refused_number(refused: Refused) -> u64
    requires { refused.carried ≤ 17550 }
    ensures { result ≡ number refused.why + 256 * refused.carried }
{
    refused.why.number() as u64 + 256 * (refused.carried as u64)
}
