// The lines of a card's text, each in room for the longest.
ghost use Rattle.std.specs.Prelude.{◌≡◌, ◌++◌, ◌+◌, ◌≤◌};
ghost use Rattle.arrayvec.specs.ArrayVec.{array_vec_len};
ghost use Rattle.ints.specs.Refusals.{number};
ghost use Rattle.position.specs.Answers.{phase_number};
ghost use Rattle.card_text.specs.Text.{start_line, end_words, turn_line, result_line, refused_line};

use crate::put;
use arrayvec::ArrayVec;
use ints::refusal::Refused;
use position::phase::GamePhase;

// A turn's is the longest: three numbers of at most five digits, a byte and a key in hex, four spaces and the end of the line.
pub type Line = ArrayVec<u8, 42>;

// `start` and the key.
#[tactic(auto, unfolding(crate::specs::Text::start_line))]
pub fn start_line(key: [u8; 10]) -> Line
    ensures text { result.items ≡ start_line key }
    ensures short { array_vec_len result ≤ 27 }
{
    let mut line = Line::new();
    put::put_word(&mut line, b"start ");
    put::put_hex(&mut line, key);
    line.push(b'\n');
    line
}

// A turn: its number from 1, the dice byte in hex, the end's number, the number of ends, and the key after switching.
#[tactic(auto, unfolding(crate::specs::Text::turn_line))]
pub fn turn_line(turn: usize, dice: u8, number: usize, count: usize, key: [u8; 10]) -> Line
    ensures text { result.items ≡ turn_line turn dice number count key }
    ensures short { array_vec_len result ≤ 42 }
{
    let mut line = Line::new();
    put::put_decimal(&mut line, turn);
    line.push(b' ');
    put::put_hex_byte(&mut line, dice);
    put_end(&mut line, number, count, key);
    line
}

// `result` and the number of result or phase.
#[tactic(auto, unfolding(crate::specs::Text::result_line))]
pub fn result_line(phase: GamePhase) -> Line
    ensures text { result.items ≡ result_line (phase_number phase) }
    ensures short { array_vec_len result ≤ 13 }
{
    let mut line = Line::new();
    put::put_word(&mut line, b"result ");
    put::put_decimal(&mut line, phase.number() as usize);
    line.push(b'\n');
    line
}

// A refusal's number, and the first byte of the record.
#[tactic(auto, unfolding(crate::specs::Text::refused_line, crate::specs::Text::place_words))]
pub fn refused_line(refused: Refused) -> Line
    ensures text { result.items ≡ refused_line (number refused.why) refused.carried }
    ensures short { array_vec_len result ≤ 23 }
{
    let mut line = Line::new();
    put::put_word(&mut line, b"refused ");
    put::put_decimal(&mut line, refused.why.number() as usize);
    put::put_word(&mut line, b" at ");
    put::put_decimal(&mut line, refused.carried);
    line.push(b'\n');
    line
}

// What a turn's line says of its end: its number, the number of ends, and the key after switching.
#[tactic(auto, unfolding(crate::specs::Text::end_words))]
fn put_end(line: &mut Line, number: usize, count: usize, key: [u8; 10])
    requires { array_vec_len line.old + 34 ≤ 42 }
    ensures text { line.new.items ≡ line.old.items ++ end_words number count key }
    ensures size { array_vec_len line.new ≤ array_vec_len line.old + 34 }
{
    line.push(b' ');
    put::put_decimal(line, number);
    line.push(b' ');
    put::put_decimal(line, count);
    line.push(b' ');
    put::put_hex(line, key);
    line.push(b'\n');
}
