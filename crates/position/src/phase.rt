// From position.rs: `game_state` and `game_phase`, result and phase in one answer.
ghost use Rattle.std.specs.Prelude.{◌≡◌};
ghost use Rattle.position.specs.Board.{checkers, xs, os};
ghost use Rattle.position.specs.Phase.{highest, lowest, phase_answer};
ghost use Rattle.position.specs.Answers.{phase_number, phase_told};

use crate::Checkers;
use ints::refusal::Refusal;

// How the game stands for x, each with document 01's number.
#[derive(Clone, Copy, Debug, PartialEq, Eq)]
pub enum GamePhase {
    Contact = 0,
    Race = 1,
    WinNormal = 2,
    WinGammon = 3,
    WinBg = 4,
    LoseNormal = 5,
    LoseGammon = 6,
    LoseBg = 7,
}

impl GamePhase {
    // The number of result or phase.
    pub fn number(self) -> u8
        ensures { result ≡ phase_number self }
    {
        self as u8
    }
}

// Result or phase of any 26 entries, or the refusal: of the entries, or of a board on which neither side has a checker.
pub fn game_phase(b: [i8; 26]) -> Result<GamePhase, Refusal>
    ensures { phase_told result ≡ phase_answer checkers b }
{
    let Checkers { x, o } = crate::check(b)?;
    if x == 0 {
        if o == 0 {
            return Err(Refusal::EmptyBoard);
        }
        if o < crate::NUM_OF_CHECKERS {
            return Ok(GamePhase::WinNormal);
        }
        if crate::checkers_below(&b, 7).o > 0 {
            return Ok(GamePhase::WinBg);
        }
        return Ok(GamePhase::WinGammon);
    }
    if o == 0 {
        if x < crate::NUM_OF_CHECKERS {
            return Ok(GamePhase::LoseNormal);
        }
        if crate::checkers_below(&b, 19).x < x {
            return Ok(GamePhase::LoseBg);
        }
        return Ok(GamePhase::LoseGammon);
    }
    if lowest_o(&b) < highest_x(&b) {
        return Ok(GamePhase::Contact);
    }
    Ok(GamePhase::Race)
}

// The highest entry that holds x, else 0.
fn highest_x(b: &[i8; 26]) -> usize
    ensures { result ≡ highest (xs b.now) 26 }
{
    for i in (0..26).rev() {
        if b[i] > 0 {
            return i;
        }
    }
    0
}

// The lowest entry that holds o, else 26.
fn lowest_o(b: &[i8; 26]) -> usize
    ensures { result ≡ lowest (os b.now) 0 26 }
{
    for i in 0..26 {
        if b[i] < 0 {
            return i;
        }
    }
    26
}
