// From bg_move/mixed.rs: the steps of a mixed roll.
ghost use Rattle.std.specs.Prelude.{◌≡◌, ◌≤◌};
ghost use Rattle.ints.specs.Signed.{Small};
ghost use Rattle.bg_move.specs.Steps.{leads, leads_both, one_checker, two_checkers, mixed_steps};
ghost use Rattle.bg_move.specs.Answers.{steps_value};

use crate::{Step, Steps};

// The steps from b to e, for a smaller and a larger die: of no checker, of one or of two, by the points that lost one. The entries must
// leave room for two steps.
pub fn new_mixed(b: [i8; 26], e: [i8; 26], small: usize, big: usize) -> Steps
    requires small_bound { (small ≤ 6) × (big ≤ 6) }
    requires small { Small 122 b }
    ensures { result ≡ steps_value (mixed_steps b e small big) }
{
    let Some(first) = crate::lost(&b, &e, 26) else {
        return Steps::of(&[]);
    };
    match crate::lost_next(&b, &e, first) {
        None => one_checker(b, e, first, small, big),
        Some(second) => two_checkers(b, e, first, second, small, big),
    }
}

// One checker moved: twice, by the smaller die first if that leads to e; or once.
fn one_checker(b: [i8; 26], e: [i8; 26], from: usize, small: usize, big: usize) -> Steps
    requires from_bound { (from ≤ 25) × (small ≤ 6) × (big ≤ 6) }
    requires small { Small 122 b }
    ensures { result ≡ steps_value (one_checker b e from small big) }
{
    for (die1, die2) in [(small, big), (big, small)] {
        let stop = from.saturating_sub(die1);
        if can_move_both(b, from, die1, stop, die2, e) {
            return Steps::of(&[Step::by(from, die1), Step::by(stop, die2)]);
        }
    }
    for die in [small, big] {
        if leads(b, from, die, e) {
            return Steps::of(&[Step::by(from, die)]);
        }
    }
    Steps::of(&[])
}

// Two checkers moved: the first of the four combinations that leads to e.
fn two_checkers(
    b: [i8; 26],
    e: [i8; 26],
    from1: usize,
    from2: usize,
    small: usize,
    big: usize,
) -> Steps
    requires from1_bound { (from1 ≤ 25) × (from2 ≤ 25) × (small ≤ 6) × (big ≤ 6) }
    requires small { Small 122 b }
    ensures { result ≡ steps_value (two_checkers b e from1 from2 small big) }
{
    let combinations = [
        (from1, big, from2, small),
        (from1, small, from2, big),
        (from2, big, from1, small),
        (from2, small, from1, big),
    ];
    for (p, die1, q, die2) in combinations {
        if can_move_both(b, p, die1, q, die2, e) {
            return Steps::of(&[Step::by(p, die1), Step::by(q, die2)]);
        }
    }
    Steps::of(&[])
}

// Whether a legal step and then another lead to e.
fn can_move_both(
    b: [i8; 26],
    from1: usize,
    die1: usize,
    from2: usize,
    die2: usize,
    e: [i8; 26],
) -> bool
    requires from1_bound { (from1 ≤ 25) × (die1 ≤ 6) × (from2 ≤ 25) × (die2 ≤ 6) }
    requires small { Small 122 b }
    ensures { result ≡ leads_both b from1 die1 from2 die2 e }
{
    position::can_move(&b, from1, die1)
        && leads(
            position::move_single_checker(b, from1, die1),
            from2,
            die2,
            e,
        )
}

// Whether a legal step leads to e.
fn leads(b: [i8; 26], from: usize, die: usize, e: [i8; 26]) -> bool
    requires from_bound { (from ≤ 25) × (die ≤ 6) }
    requires small { Small 124 b }
    ensures { result ≡ leads b from die e }
{
    position::can_move(&b, from, die) && position::move_single_checker(b, from, die) == e
}
