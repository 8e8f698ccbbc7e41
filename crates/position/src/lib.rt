// From position.rs: the 26 entries of a board, their refusals, the side switch and a single step.
// A board is seen from x, the side to move: positive entries are x's checkers, negative ones o's.
#![tactic(auto)]

pub mod phase;

ghost use Rattle.std.specs.Prelude.{◌≡◌, ◌≤◌};
ghost use Rattle.ints.specs.Refusals.{refusal_in};
ghost use Rattle.ints.specs.Signed.{Small};
ghost use Rattle.ints.specs.Sums.{sum_to};
ghost use Rattle.position.specs.Board.{checkers, xs, os, switched};
ghost use Rattle.position.specs.Step.{clear_from, can_step, stepped};
ghost use Rattle.position.specs.Answers.{Started, Counted, board_told, switch_answer, step_answer};

use ints::refusal::Refusal;

pub const NUM_OF_CHECKERS: u32 = 15;

pub const X_BAR: usize = 25;

pub const O_BAR: usize = 0;

// How many checkers each side has.
#[derive(Clone, Copy, Debug, PartialEq, Eq)]
pub struct Checkers {
    pub x: u32,
    pub o: u32,
}

// Why a board is not accepted, and how many checkers each side has on it.
#[derive(Clone, Copy, Debug, PartialEq, Eq)]
pub struct Unaccepted {
    pub why: Refusal,
    pub all: Checkers,
}

impl From<Unaccepted> for Refusal {
    ghost from_gives = { λ unaccepted why. why ≡ unaccepted.why };

    fn from(unaccepted: Unaccepted) -> Refusal {
        unaccepted.why
    }
}

// Both sides' checkers, of any 26 entries, and the first refusal if there is one. Sums are whole numbers: none can wrap.
pub fn check(b: [i8; 26]) -> Result<Checkers, Unaccepted>
    ensures { Counted checkers b result }
{
    let all = checkers_below(&b, 26);
    if all.x > NUM_OF_CHECKERS {
        return Err(Unaccepted {
            why: Refusal::XOver15,
            all,
        });
    }
    if all.o > NUM_OF_CHECKERS {
        return Err(Unaccepted {
            why: Refusal::OOver15,
            all,
        });
    }
    if b[X_BAR] < 0 {
        return Err(Unaccepted {
            why: Refusal::XBarNegative,
            all,
        });
    }
    if b[O_BAR] > 0 {
        return Err(Unaccepted {
            why: Refusal::OBarPositive,
            all,
        });
    }
    Ok(all)
}

// Whether a play may be asked of a board, or a card started from it, or the first refusal: of the entries, of an empty board, of a finished
// one.
pub fn check_start(b: [i8; 26]) -> Result<(), Refusal>
    ensures { Started checkers b (refusal_in result) }
{
    let Checkers { x, o } = check(b)?;
    if x + o == 0 {
        return Err(Refusal::EmptyBoard);
    }
    if x == 0 {
        return Err(Refusal::Finished);
    }
    if o == 0 {
        return Err(Refusal::Finished);
    }
    Ok(())
}

// The board seen from the other side, or the refusal of the entries.
pub fn switch(b: [i8; 26]) -> Result<[i8; 26], Refusal>
    ensures { board_told result ≡ switch_answer checkers b }
{
    check(b)?;
    Ok(sides_switched(b))
}

// The board, unswitched, after one checker moves from a point by a die, or the refusal: of the entries, of the die, of the point, of the
// step. Finished and empty boards are taken.
pub fn try_move_single_checker(b: [i8; 26], from: usize, die: usize) -> Result<[i8; 26], Refusal>
    ensures { board_told result ≡ step_answer checkers b from die }
{
    check(b)?;
    if !dice::is_die(die) {
        return Err(Refusal::DieOutside1To6);
    }
    if from > X_BAR {
        return Err(Refusal::FromAbove25);
    }
    if can_move(&b, from, die) {
        return Ok(move_single_checker(b, from, die));
    }
    Err(Refusal::StepNotLegal)
}

// Both sides' checkers on the entries below n. One sum holds both, x's below 65536 and o's from there on: of two sums the compiler makes
// vector code for one only.
pub fn checkers_below(b: &[i8; 26], n: usize) -> Checkers
    requires { n ≤ 26 }
    ensures { (result.x ≡ sum_to (xs b.now) n) × (result.o ≡ sum_to (os b.now) n) }
{
    let mut both: u32 = 0;
    for e in &b[..n] {
        both += ints::pos_part(*e) + 65536 * ints::neg_part(*e);
    }
    Checkers {
        x: both % 65536,
        o: both / 65536,
    }
}

// Entry 25 - i of the new board is minus entry i of the old.
pub fn sides_switched(b: [i8; 26]) -> [i8; 26]
    requires { Small 126 b }
    ensures { result ≡ switched b }
{
    let mut r = [0i8; 26];
    for i in 0..26 {
        r[25 - i] = -b[i];
    }
    r
}

// Whether x has no checker on the points from lo to 24.
fn clear_from(b: &[i8; 26], lo: usize) -> bool
    requires { lo ≤ 25 }
    ensures { result ≡ clear_from b.now lo }
{
    for i in lo..X_BAR {
        if b[i] > 0 {
            return false;
        }
    }
    true
}

// Whether the step is legal, those from the bar too.
pub fn can_move(b: &[i8; 26], from: usize, die: usize) -> bool
    requires { (from ≤ 25) × (die ≤ 6) }
    ensures { result ≡ can_step b.now from die }
{
    if b[from] < 1 {
        return false;
    }
    if from != X_BAR {
        if b[X_BAR] > 0 {
            return false;
        }
    }
    if die < from {
        return b[from - die] >= -1;
    }
    if from == die {
        return clear_from(b, 7);
    }
    clear_from(b, from + 1)
}

// The board after a step, legal or not. The entries must leave room for one more.
pub fn move_single_checker(b: [i8; 26], from: usize, die: usize) -> [i8; 26]
    requires from_bound { from ≤ 25 }
    requires small { Small 124 b }
    ensures { result ≡ stepped b from die }
{
    let mut r = b;
    step_in_place(&mut r, from, die);
    r
}

// Makes the step on the lent board: a caller that steps a copy of its own copies once, where a returned board would be copied again.
pub fn step_in_place(b: &mut [i8; 26], from: usize, die: usize)
    requires from_bound { from ≤ 25 }
    requires small { Small 124 b.old }
    ensures { b.new ≡ stepped b.old from die }
{
    b[from] -= 1;
    if from > die {
        let to = from - die;
        if b[to] == -1 {
            b[to] = 1;
            b[O_BAR] -= 1;
        } else {
            b[to] += 1;
        }
    }
}
