// The game card: a start record, and a record for each turn. A card is read whole before anything is answered of it.
#![tactic(auto)]

pub mod reader;
pub mod writer;

ghost use Rattle.std.specs.Prelude.{◌≡◌, length};
ghost use Rattle.position.specs.Board.{checkers};
ghost use Rattle.card.specs.Game.{turns_most};
ghost use Rattle.card.specs.Read.{read_answer};
ghost use Rattle.card.specs.Answers.{card_told, position_told, position_answer, begin_answer, begun_in, add_answer, added_in};

use ints::refusal::{Refusal, Refused};

// A game has at most a thousand turns.
pub const MAX_TURNS: usize = 1000;

// Begins a card in the buffer: writes the start record of a board, and answers its length. Refusals 1 to 4, 6, 5, then 19 where the
// buffer has no room; a refusal leaves it as it was.
#[tactic(auto, unfolding(crate::specs::Answers::begin_answer, crate::specs::Answers::begun_in))]
pub fn begin(b: [i8; 26], buffer: &mut [u8]) -> Result<usize, Refused>
    ensures { (card_told result ≡ begin_answer checkers b (length buffer.old)) × (buffer.new ≡ begun_in checkers b buffer.old) }
{
    position::check_start(b)?;
    if buffer.len() < reader::START_BYTES {
        return Err(Refusal::CardTooShort.into());
    }
    let key = key::encode(b).unwrap();
    writer::put(buffer, 0, &reader::START_MARK);
    writer::put(buffer, 2, &key);
    Ok(reader::START_BYTES)
}

// Adds a turn to the card in the first `len` bytes of the buffer: writes its record after them, and answers the card's new length. The
// end is given with sides switched. Refusals 19 where the buffer is shorter than the card, those of reading the card, 22, 25, 7, 12,
// then 19 where the buffer has no room; a refusal leaves it as it was.
#[tactic(auto, unfolding(crate::specs::Answers::add_answer, crate::specs::Answers::turn_answer, crate::specs::Answers::added_in))]
pub fn add(
    buffer: &mut [u8],
    len: usize,
    die1: usize,
    die2: usize,
    end: [i8; 26],
) -> Result<usize, Refused>
    ensures { (card_told result ≡ add_answer checkers turns_most buffer.old len die1 die2 end) × (buffer.new ≡ added_in checkers turns_most buffer.old len die1 die2 end) }
{
    if buffer.len() < len {
        return Err(Refusal::CardTooShort.into());
    }
    let replayed = reader::replay(&buffer[..len], 0)?;
    if replayed.turns >= MAX_TURNS {
        return Err(Refusal::TurnLimit.into());
    }
    let record = writer::turn_record(replayed.last, die1, die2, end)?;
    if buffer.len() - len < reader::TURN_BYTES {
        return Err(Refusal::CardTooShort.into());
    }
    writer::put(buffer, len, &record);
    Ok(len + reader::TURN_BYTES)
}

// The number of turns of a card. Refusals 20, 21, those of the key, 6, 5; then for each turn 22, 23, 24, 25, 26, 11.
pub fn read(card: &[u8]) -> Result<usize, Refused>
    ensures { card_told result ≡ read_answer checkers turns_most card.now }
{
    let replayed = reader::replay(card, 0)?;
    Ok(replayed.turns)
}

// The position of a card that has a number: 0 is the start, k the board after turn k and its switch. The refusals of reading, then
// 36 where the card has fewer turns.
#[tactic(auto, unfolding(crate::specs::Answers::position_answer))]
pub fn position(card: &[u8], number: usize) -> Result<[i8; 26], Refused>
    ensures { position_told result ≡ position_answer checkers turns_most card.now number }
{
    let replayed = reader::replay(card, number)?;
    replayed.asked.ok_or(Refusal::NoSuchPosition.into())
}
