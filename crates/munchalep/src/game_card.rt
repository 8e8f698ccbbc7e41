// The game card in C. A number of turns, a new length, or the byte where a refused record begins stands above the refusal's number.
ghost use Rattle.std.specs.Prelude.{◌≡◌, length};
ghost use Rattle.ints.specs.Answer.{packed};
ghost use Rattle.position.specs.Board.{checkers};
ghost use Rattle.card.specs.Game.{turns_most};
ghost use Rattle.card.specs.Read.{read_answer};
ghost use Rattle.card.specs.Answers.{position_answer, begin_answer, begun_in, add_answer, added_in};
ghost use Rattle.munchalep.specs.LentCard.{PutPosition};

// Begins a card in the buffer, from a board.
pub fn munchalep_card_begin(board: &[i8; 26], buffer: &mut [u8]) -> u64
    ensures { (result ≡ packed (begin_answer checkers board.now (length buffer.old))) × (buffer.new ≡ begun_in checkers board.now buffer.old) }
{
    crate::answer_number(card::begin(*board, buffer))
}

// Adds a turn to the card in the first `length` bytes of the buffer. The end is given with sides switched.
pub fn munchalep_card_add(
    buffer: &mut [u8],
    length: usize,
    die1: usize,
    die2: usize,
    end: &[i8; 26],
) -> u64
    ensures { (result ≡ packed (add_answer checkers turns_most buffer.old length die1 die2 end.now)) × (buffer.new ≡ added_in checkers turns_most buffer.old length die1 die2 end.now) }
{
    crate::answer_number(card::add(buffer, length, die1, die2, *end))
}

// Reads a card: the number of its turns.
pub fn munchalep_card_read(card: &[u8]) -> u64
    ensures { result ≡ packed (read_answer checkers turns_most card.now) }
{
    crate::answer_number(card::read(card))
}

// The position of a card with a number, 0 the start.
pub fn munchalep_card_position(card: &[u8], number: usize, out: &mut [i8; 26]) -> u64
    ensures { PutPosition (position_answer checkers turns_most card.now number) out.old result out.new }
{
    match card::position(card, number) {
        Ok(board) => {
            *out = board;
            0
        }
        Err(refused) => crate::refused_number(refused),
    }
}
