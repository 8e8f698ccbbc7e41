// The functions that C calls, as include/munchalep.h declares them. Each has the clauses of the function of its name in the crate
// `munchalep`, and calls it.
#![tactic(auto)]

ghost use Rattle.std.specs.Prelude.{◌≡◌, length};
ghost use Rattle.ints.specs.Answer.{packed};
ghost use Rattle.position.specs.Board.{checkers, refusal_of};
ghost use Rattle.position.specs.Phase.{phase_answer};
ghost use Rattle.position.specs.Answers.{switch_answer, step_answer};
ghost use Rattle.moves.specs.Answers.{list_answer, listed_in, count_answer, end_answer};
ghost use Rattle.key.specs.Key.{key_answer, board_of_key_answer};
ghost use Rattle.inputs.specs.Answers.{contact_answer, contact_lent, contact_input, race_answer, race_lent, race_input};
ghost use Rattle.munchalep.specs.Lent.{Put, PutKey, PutInput};
ghost use Rattle.bg_move.specs.Answers.{row_answer, row_after};
ghost use Rattle.card.specs.Game.{turns_most};
ghost use Rattle.card.specs.Read.{read_answer};
ghost use Rattle.card.specs.Answers.{position_answer, begin_answer, begun_in, add_answer, added_in};
ghost use Rattle.munchalep.specs.LentCard.{PutPosition};

use bg_move::Step;

// The refusal of a board, 1 to 4, or 0.
#[unsafe(no_mangle)]
pub extern "C" fn munchalep_check(board: &[i8; 26]) -> u64
    ensures { result ≡ refusal_of checkers board.now }
{
    munchalep::munchalep_check(board)
}

// The board seen from the other side.
#[unsafe(no_mangle)]
pub extern "C" fn munchalep_switch(board: &[i8; 26], out: &mut [i8; 26]) -> u64
    ensures { Put (switch_answer checkers board.now) out.old result out.new }
{
    munchalep::munchalep_switch(board, out)
}

// The board, unswitched, after one checker moves from a point by a die.
#[unsafe(no_mangle)]
pub extern "C" fn munchalep_step(
    board: &[i8; 26],
    from: usize,
    die: usize,
    out: &mut [i8; 26],
) -> u64
    ensures { Put (step_answer checkers board.now from die) out.old result out.new }
{
    munchalep::munchalep_step(board, from, die, out)
}

// The key of the board.
#[unsafe(no_mangle)]
pub extern "C" fn munchalep_key(board: &[i8; 26], key: &mut [u8; 10]) -> u64
    ensures { PutKey (key_answer checkers board.now) key.old result key.new }
{
    munchalep::munchalep_key(board, key)
}

// The board of the key.
#[unsafe(no_mangle)]
pub extern "C" fn munchalep_board_of_key(key: &[u8; 10], out: &mut [i8; 26]) -> u64
    ensures { Put (board_of_key_answer checkers key.now) out.old result out.new }
{
    munchalep::munchalep_board_of_key(key, out)
}

// The number of result and phase, 0 to 7, as the value.
#[unsafe(no_mangle)]
pub extern "C" fn munchalep_result(board: &[i8; 26]) -> u64
    ensures { result ≡ packed (phase_answer checkers board.now) }
{
    munchalep::munchalep_result(board)
}

// Lists the ends of a roll, 26 bytes an end, and answers their number; a list that is too short for them stays as it was.
#[unsafe(no_mangle)]
pub extern "C" fn munchalep_list(board: &[i8; 26], die1: usize, die2: usize, list: &mut [u8]) -> u64
    ensures { (result ≡ packed (list_answer checkers board.now die1 die2 (length list.old))) × (list.new ≡ listed_in checkers board.now die1 die2 list.old) }
{
    munchalep::munchalep_list(board, die1, die2, list)
}

// The number of ends of a roll.
#[unsafe(no_mangle)]
pub extern "C" fn munchalep_count(board: &[i8; 26], die1: usize, die2: usize) -> u64
    ensures { result ≡ packed (count_answer checkers board.now die1 die2) }
{
    munchalep::munchalep_count(board, die1, die2)
}

// The end of a roll with a number, counted from 0, sides switched.
#[unsafe(no_mangle)]
pub extern "C" fn munchalep_end(
    board: &[i8; 26],
    die1: usize,
    die2: usize,
    number: usize,
    out: &mut [i8; 26],
) -> u64
    ensures { Put (end_answer checkers board.now die1 die2 number) out.old result out.new }
{
    munchalep::munchalep_end(board, die1, die2, number, out)
}

// Fills exactly 202 floats with the contact net's inputs; any other number of them stays as it was. Lent floats are told by their
// bits, so that a refusal is promised to leave every byte, those of a NaN too.
#[unsafe(no_mangle)]
pub extern "C" fn munchalep_contact_inputs(board: &[i8; 26], inputs: &mut [u32]) -> u64
    ensures { (result ≡ packed (contact_answer checkers board.now (length inputs.old))) × (inputs.new ≡ contact_lent checkers board.now inputs.old) }
{
    munchalep::munchalep_contact_inputs(board, inputs)
}

// The same of the race net and exactly 186 floats.
#[unsafe(no_mangle)]
pub extern "C" fn munchalep_race_inputs(board: &[i8; 26], inputs: &mut [u32]) -> u64
    ensures { (result ≡ packed (race_answer checkers board.now (length inputs.old))) × (inputs.new ≡ race_lent checkers board.now inputs.old) }
{
    munchalep::munchalep_race_inputs(board, inputs)
}

// The contact net's input that has the place.
#[unsafe(no_mangle)]
pub extern "C" fn munchalep_contact_input(board: &[i8; 26], place: usize, out: &mut u32) -> u64
    ensures { PutInput (contact_input checkers board.now place) out.old result out.new }
{
    munchalep::munchalep_contact_input(board, place, out)
}

// The race net's input that has the place.
#[unsafe(no_mangle)]
pub extern "C" fn munchalep_race_input(board: &[i8; 26], place: usize, out: &mut u32) -> u64
    ensures { PutInput (race_input checkers board.now place) out.old result out.new }
{
    munchalep::munchalep_race_input(board, place, out)
}

// Writes the steps from the old board to an end, which is told from the mover's side, to the row's first places, and answers their
// number; a row with fewer places stays as it was.
#[unsafe(no_mangle)]
pub extern "C" fn munchalep_recover(
    old: &[i8; 26],
    end: &[i8; 26],
    die1: usize,
    die2: usize,
    row: &mut [Step],
) -> u64
    ensures { (result ≡ packed (row_answer checkers old.now die1 die2 end.now (length row.old))) × (row.new ≡ row_after checkers old.now die1 die2 end.now row.old) }
{
    munchalep::recover::munchalep_recover(old, end, die1, die2, row)
}

// Begins a card in the buffer, from a board.
#[unsafe(no_mangle)]
pub extern "C" fn munchalep_card_begin(board: &[i8; 26], buffer: &mut [u8]) -> u64
    ensures { (result ≡ packed (begin_answer checkers board.now (length buffer.old))) × (buffer.new ≡ begun_in checkers board.now buffer.old) }
{
    munchalep::game_card::munchalep_card_begin(board, buffer)
}

// Adds a turn to the card in the first `length` bytes of the buffer. The end is given with sides switched.
#[unsafe(no_mangle)]
pub extern "C" fn munchalep_card_add(
    buffer: &mut [u8],
    length: usize,
    die1: usize,
    die2: usize,
    end: &[i8; 26],
) -> u64
    ensures { (result ≡ packed (add_answer checkers turns_most buffer.old length die1 die2 end.now)) × (buffer.new ≡ added_in checkers turns_most buffer.old length die1 die2 end.now) }
{
    munchalep::game_card::munchalep_card_add(buffer, length, die1, die2, end)
}

// Reads a card: the number of its turns.
#[unsafe(no_mangle)]
pub extern "C" fn munchalep_card_read(card: &[u8]) -> u64
    ensures { result ≡ packed (read_answer checkers turns_most card.now) }
{
    munchalep::game_card::munchalep_card_read(card)
}

// The position of a card with a number, 0 the start.
#[unsafe(no_mangle)]
pub extern "C" fn munchalep_card_position(card: &[u8], number: usize, out: &mut [i8; 26]) -> u64
    ensures { PutPosition (position_answer checkers turns_most card.now number) out.old result out.new }
{
    munchalep::game_card::munchalep_card_position(card, number, out)
}
