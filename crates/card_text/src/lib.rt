// The text of a card, as the card program prints it.
#![tactic(auto)]

mod lines;
mod put;

ghost use Rattle.std.specs.Prelude.{◌≡◌, ◌↔◌, ◌+◌, ◌*◌, ◌≤◌, length, IsSome, IfSome};
ghost use Rattle.arrayvec.specs.ArrayVec.{array_vec_len};
ghost use Rattle.ints.specs.Answer.{value};
ghost use Rattle.position.specs.Board.{checkers, Accepted};
ghost use Rattle.card.specs.Game.{turns_most};
ghost use Rattle.card.specs.Read.{turn_refusal, board_after, read_answer};
ghost use Rattle.card_text.specs.Text.{text_from, text_of, text_room, text_told, text_answer, text_in};
ghost use Rattle.card_text.specs.Wrote.{Wrote};
ghost use Rattle.card_text.specs.Turns.{ToldTurn, PutTurns};

use card::{reader, writer};
use lines::Line;

// Room for the text of any card: 27 bytes for its first line, at most 42 a turn, and at most 13 for the last.
pub const ROOM: usize = 42040;

// What is told of a turn: its dice byte, its end's number, the number of ends, and the board after it and its switch.
#[derive(Drop)]
struct Turn {
    dice: u8,
    number: usize,
    count: usize,
    after: [i8; 26],
}

// Where the text goes on after a card's turns, and the board after them.
#[derive(Drop)]
struct Turns {
    at: usize,
    last: [i8; 26],
}

// Puts the text of any card into the lent memory, and answers the number of its bytes; none, and nothing is put, where the memory
// has not the room for any card's text.
pub fn text(card: &[u8], out: &mut [u8]) -> Option<usize>
    ensures answer { text_told result ≡ text_answer checkers turns_most card.now (length out.old) }
    ensures lent { out.new ≡ text_in checkers turns_most card.now out.old }
    ensures room { IsSome result ↔ (text_room turns_most ≤ length out.old) }
    ensures fits { IfSome result (λ n. n ≤ length out.old) }
{
    if out.len() < ROOM {
        return None;
    }
    Some(put_text(card, out))
}

// The text of any card, where the memory has the room for any.
fn put_text(card: &[u8], out: &mut [u8]) -> usize
    requires { text_room turns_most ≤ length out.old }
    ensures { Wrote out.old 0 (text_of checkers turns_most card.now) result out.new }
{
    match card::read(card) {
        Ok(turns) => put_card(card, turns, out),
        Err(refused) => put_line(out, 0, &lines::refused_line(refused)),
    }
}

// The text of a card that is accepted.
fn put_card(card: &[u8], turns: usize, out: &mut [u8]) -> usize
    requires { (read_answer checkers turns_most card.now ≡ value turns) × (40 + 42 * turns ≤ length out.old) }
    ensures { Wrote out.old 0 (text_from checkers (value turns) card.now) result out.new }
{
    let key = reader::key_bytes(card);
    let start = key::decode(key).unwrap();
    let begun = put_line(out, 0, &lines::start_line(key));
    let played = put_turns(card, turns, start, out, begun);
    let last = played.last;
    let phase = position::phase::game_phase(last).unwrap();
    put_line(out, played.at, &lines::result_line(phase))
}

// The lines of an accepted card's turns.
fn put_turns(card: &[u8], turns: usize, start: [i8; 26], out: &mut [u8], at: usize) -> Turns
    requires { (read_answer checkers turns_most card.now ≡ value turns) × (start ≡ board_after card.now 0) × (at + 42 * turns ≤ length out.old) }
    ensures { PutTurns card.now turns at out.old result out.new }
{
    let mut b = start;
    let mut to = at;
    for k in 0..turns {
        let turn = told(b, &card[reader::START_BYTES + reader::TURN_BYTES * k..]);
        b = turn.after;
        let key = key::encode(b).unwrap();
        let line = lines::turn_line(k + 1, turn.dice, turn.number, turn.count, key);
        to = put_line(out, to, &line);
    }
    Turns { at: to, last: b }
}

// A line, from a place of the lent memory on; the place after it is answered.
fn put_line(out: &mut [u8], at: usize, line: &Line) -> usize
    requires { at + array_vec_len line.now ≤ length out.old }
    ensures { Wrote out.old at line.now.items result out.new }
{
    writer::put(out, at, line.as_slice());
    at + line.len()
}

// What is told of a turn from b, whose record the bytes begin with.
#[tactic(auto, using(crate::proofs::ToldTurns::whole_record))]
fn told(b: [i8; 26], bytes: &[u8]) -> Turn
    requires { Accepted checkers b × (turn_refusal b bytes.now ≡ 0) }
    ensures { ToldTurn b bytes.now result }
{
    let dice = bytes[2];
    let larger = (dice / 16) as usize;
    let smaller = (dice % 16) as usize;
    let number = u16::from_le_bytes([bytes[3], bytes[4]]) as usize;
    let count = moves::count(b, larger, smaller).unwrap();
    let after = moves::end(b, larger, smaller, number).unwrap();
    Turn {
        dice,
        number,
        count,
        after,
    }
}
