// From bg_move.rs: the steps behind an end of a roll.
#![tactic(auto)]

mod double;
mod mixed;

ghost use Rattle.std.specs.Prelude.{◌≡◌, ◌<◌, ◌≤◌, length, take, IfSome};
ghost use Rattle.position.specs.Board.{checkers};
ghost use Rattle.rules.specs.Ends.{ends_of, among};
ghost use Rattle.moves.specs.Answers.{Playable, CanPlay};
ghost use Rattle.bg_move.specs.Steps.{lost, lost_next, point, told, steps_of};
ghost use Rattle.bg_move.specs.Answers.{steps_value, recovered_told, recovered_answer, step_at};

use ints::refusal::Refusal;

// One step of one checker: 25 is the bar, 0 is off.
#[repr(C)]
#[derive(Clone, Copy, Debug, PartialEq, Eq)]
pub struct Step {
    pub from: u8,
    pub to: u8,
}

// Up to four steps in their order; zeros in the places after them.
#[derive(Clone, Copy, Debug, PartialEq, Eq)]
pub struct Steps {
    pub count: u8,
    pub steps: [Step; 4],
}

// The steps from the old board to an end, which is told from the mover's side. Refusals 1 to 4, 6, 5, 7, then 12 where it is no end of the roll.
pub fn recover(old: [i8; 26], end: [i8; 26], die1: usize, die2: usize) -> Result<Steps, Refusal>
    ensures { recovered_told result ≡ recovered_answer checkers old die1 die2 end }
{
    moves::check_play(old, die1, die2)?;
    if is_end(old, die1, die2, end) {
        return Ok(steps_of(old, die1, die2, end));
    }
    Err(Refusal::NotAnEnd)
}

impl Step {
    // What stands in a place without a step.
    const NONE: Step = Step { from: 0, to: 0 };

    // The step from a point by a die; it lands on 0 where the checker is off.
    fn by(from: usize, die: usize) -> Step
        requires { from ≤ 25 }
        ensures { result ≡ told from die }
    {
        Step {
            from: from as u8,
            to: from.saturating_sub(die) as u8,
        }
    }
}

impl Steps {
    // These steps, at most four.
    fn of(steps: &[Step]) -> Steps
        requires { length steps.now ≤ 4 }
        ensures { result ≡ steps_value steps.now }
    {
        let mut places = [Step::NONE; 4];
        places[..steps.len()].copy_from_slice(steps);
        Steps {
            count: steps.len() as u8,
            steps: places,
        }
    }

    // The steps alone, of which recovery finds at most four.
    pub fn as_slice(&self) -> &[Step]
        requires { self.now.count ≤ 4 }
        ensures { result.now ≡ take self.now.count self.now.steps }
    {
        &self.steps[..self.count as usize]
    }

    // Step i; 0 to 0 past the fourth place.
    pub fn at(&self, i: usize) -> Step
        ensures { result ≡ step_at self.now i }
    {
        match self.steps.get(i) {
            Some(step) => *step,
            None => Step::NONE,
        }
    }
}

// Whether the board, told from the mover's side, is an end of the roll. Every end is an accepted board, and its sides can be switched.
fn is_end(b: [i8; 26], die1: usize, die2: usize, e: [i8; 26]) -> bool
    requires { Playable checkers b die1 die2 0 }
    ensures { result ≡ among e (ends_of b die1 die2) }
{
    if position::check(e).is_err() {
        return false;
    }
    end_number::end_number(b, die1, die2, position::sides_switched(e)).is_ok()
}

// The steps that lead from b to e.
fn steps_of(b: [i8; 26], die1: usize, die2: usize, e: [i8; 26]) -> Steps
    requires { CanPlay checkers b die1 die2 }
    ensures { result ≡ steps_value (steps_of b die1 die2 e) }
{
    if die1 == die2 {
        return double::new_double(b, e, die1);
    }
    mixed::new_mixed(b, e, die1.min(die2), die1.max(die2))
}

// The highest point below n that lost a checker of x from one board to another; 0 is o's bar, which x never leaves. With `lost_next` it
// is the Rust's `more_checkers`.
fn lost(b: &[i8; 26], e: &[i8; 26], n: usize) -> Option<usize>
    requires { n ≤ 26 }
    ensures is { result ≡ point (lost b.now e.now n) }
    ensures below { IfSome result (λ p. (0 < p) × (p < n)) }
{
    for i in (1..n).rev() {
        if ints::pos_part(b[i]) > ints::pos_part(e[i]) {
            return Some(i);
        }
    }
    None
}

// The point that lost a second checker, where `first` is the highest that lost one: the same, or the next below.
fn lost_next(b: &[i8; 26], e: &[i8; 26], first: usize) -> Option<usize>
    requires { (0 < first) × (first ≤ 25) }
    ensures is { result ≡ point (lost_next b.now e.now first) }
    ensures below { IfSome result (λ p. (0 < p) × (p ≤ first)) }
{
    if ints::pos_part(b[first]) > ints::pos_part(e[first]) + 1 {
        return Some(first);
    }
    lost(b, e, first)
}
