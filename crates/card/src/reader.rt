// A card is replayed in one pass: the start record, then turn after turn, each from the board that the one before left.
ghost use Rattle.std.specs.Prelude.{◌≡◌, ◌≤◌, length};
ghost use Rattle.position.specs.Board.{checkers, Accepted};
ghost use Rattle.card.specs.Game.{turns_most};
ghost use Rattle.card.specs.Read.{start_key, finished};
ghost use Rattle.card.specs.Replay.{StartRead, Played, TurnRead, Replayed};

use dice::Dice;
use ints::refusal::{Refusal, Refused};

// A start record is its mark and the ten bytes of a key.
pub const START_BYTES: usize = 12;

pub const START_MARK: [u8; 2] = [0x53, 0x54];

// A turn record is its mark, the dice byte, and the end's number in two bytes, low first.
pub const TURN_BYTES: usize = 5;

pub const TURN_MARK: [u8; 2] = [0x54, 0x55];

// A card that was read: the number of its turns, the board that the next turn is played from, and the board after as many turns as
// were asked, if it has so many.
#[derive(Drop)]
pub struct Reading {
    pub turns: usize,
    pub last: [i8; 26],
    pub asked: Option<[i8; 26]>,
}

// Reads a whole card. Each byte is read once.
pub fn replay(card: &[u8], stop: usize) -> Result<Reading, Refused>
    ensures { Replayed checkers turns_most card.now stop result }
{
    let mut last = start(card)?;
    let records = &card[START_BYTES..];
    let mut asked = (stop == 0).then_some(last);
    let mut turns = 0;
    for bytes in records.chunks(TURN_BYTES) {
        let at = START_BYTES + turns * TURN_BYTES;
        if turns == crate::MAX_TURNS {
            return Err(Refused {
                why: Refusal::TurnLimit,
                carried: at,
            });
        }
        last = match turn(last, bytes) {
            Ok(next) => next,
            Err(why) => return Err(Refused { why, carried: at }),
        };
        turns += 1;
        if turns == stop {
            asked = Some(last);
        }
    }
    Ok(Reading { turns, last, asked })
}

// The board of the start record, or the refusal: 20, 21, the key's, 6, 5.
#[tactic(auto, unfolding(crate::specs::Read::start_record_refusal, key::specs::Key::board_of_key_answer, position::specs::Answers::board_answer))]
fn start(card: &[u8]) -> Result<[i8; 26], Refusal>
    ensures { StartRead checkers card.now result }
{
    if card.len() < START_BYTES {
        return Err(Refusal::StartTooShort);
    }
    if !card.starts_with(&START_MARK) {
        return Err(Refusal::StartMark);
    }
    let b = key::decode(key_bytes(card))?;
    position::check_start(b)?;
    Ok(b)
}

// The board after the turn that a record tells, and its switch, or the refusal: 23, 24, 25, 26, 11.
#[tactic(auto, unfolding(crate::specs::Read::turn_refusal, crate::specs::Read::after_turn))]
fn turn(b: [i8; 26], bytes: &[u8]) -> Result<[i8; 26], Refusal>
    requires { Accepted checkers b }
    ensures { TurnRead checkers b bytes.now result }
{
    if bytes.len() < TURN_BYTES {
        return Err(Refusal::TurnTooShort);
    }
    if !bytes.starts_with(&TURN_MARK) {
        return Err(Refusal::TurnMark);
    }
    let number = u16::from_le_bytes([bytes[3], bytes[4]]);
    played(b, bytes[2], number as usize)
}

// The board after a turn with a dice byte that stops at the end with a number, and its switch, or the refusal: 25, 26, 11.
#[tactic(auto, unfolding(dice::specs::Dice::dice_of_byte))]
fn played(b: [i8; 26], byte: u8, number: usize) -> Result<[i8; 26], Refusal>
    requires { Accepted checkers b }
    ensures { Played checkers b byte number result }
{
    if is_finished(&b) {
        return Err(Refusal::TurnAfterFinish);
    }
    match Dice::try_from(byte)? {
        Dice::Double(die) => moves::end(b, die, die, number),
        Dice::Mixed(dice) => moves::end(b, dice.big, dice.small, number),
    }
}

// Whether a side has all its checkers off.
pub fn is_finished(b: &[i8; 26]) -> bool
    ensures { result ≡ finished b.now }
{
    let all = position::checkers_below(b, 26);
    all.x == 0 || all.o == 0
}

// The key of the start record.
pub fn key_bytes(card: &[u8]) -> [u8; 10]
    requires { 12 ≤ length card.now }
    ensures { result ≡ start_key card.now }
{
    card[2..START_BYTES].try_into().unwrap()
}
