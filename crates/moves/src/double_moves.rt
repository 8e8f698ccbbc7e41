// From double_moves.rs: the ends of a double.
ghost use Rattle.std.specs.Prelude.{◌≡◌, ◌+◌, ◌-◌, ◌*◌, ◌≤◌, ◌<◌, ◌^◌, length};
ghost use Rattle.ints.specs.Signed.{Small};
ghost use Rattle.position.specs.Board.{xs};
ghost use Rattle.position.specs.Step.{Good, stepped};
ghost use Rattle.rules.specs.Ends.{only, doubles, most};
ghost use Rattle.moves.specs.Bytes.{Took};
ghost use Rattle.moves.specs.Points.{Masked};
ghost use Rattle.moves.specs.Entering.{Entering};

use crate::order::{Each, LowToHigh};
use crate::points::Points;
use crate::window::Window;

// Passes the ends of a double, from number 0 on: enter up to four, then the most steps that can be made. With x's bar empty no copy of
// the board is made to enter on.
pub fn double_ends(b: &[i8; 26], die: usize, window: &mut Window) -> usize
    requires { Good b.now × Small 15 b.now × (0 < die) × (die ≤ 6) }
    ensures { Took (most die b.now 4) window.old 0 result window.new }
{
    if b[25] < 1 {
        return most_steps(b, die, 4, window);
    }
    let entry = after_entering(*b, die, 4);
    let c = entry.board;
    if c[25] > 0 {
        return window.put(&c, 0);
    }
    most_steps(&c, die, entry.left, window)
}

// A board after checkers entered, and how many steps are left.
#[derive(Drop)]
struct Entered {
    board: [i8; 26],
    left: usize,
}

// Enters checkers by the die while x has one on the bar, o does not block and steps are left.
fn after_entering(b: [i8; 26], die: usize, steps: usize) -> Entered
    requires good { Good b × Small 15 b }
    requires die_nonzero { (0 < die) × (die ≤ 6) × (steps ≤ 4) }
    ensures { Entering die b steps result.board result.left × (0 < xs result.board 25 → most die result.board result.left ≡ only result.board) }
{
    let mut board = b;
    for left in (1..=steps).rev() {
        if !position::can_move(&board, 25, die) {
            return Entered { board, left };
        }
        board = position::move_single_checker(board, 25, die);
    }
    Entered { board, left: 0 }
}

// Passes the ends of the most steps that can be made, at most `left`, with x's bar empty.
fn most_steps(b: &[i8; 26], die: usize, left: usize, window: &mut Window) -> usize
    requires { Good b.now × Small 30 b.now × (xs b.now 25 ≡ 0) × (0 < die) × (die ≤ 6) × (left ≤ 4) }
    ensures { Took (most die b.now left) window.old 0 result window.new }
{
    let points = Points::of(b);
    for k in (1..=left).rev() {
        let n = level(b, points, die, k, 24, window, 0);
        if n > 0 {
            return n;
        }
    }
    window.put(b, 0)
}

// Passes the ends of `left` steps, one or more, each from a point at or below the one before, the first at or below `top`.
#[cycle(level_next)]
fn level(
    b: &[i8; 26],
    points: Points,
    die: usize,
    left: usize,
    top: usize,
    window: &mut Window,
    start: usize,
) -> usize
    requires good { Good b.now × Masked b.now points.x points.free × Small (100 - 2 * left) b.now }
    requires x_bound { (0 < die) × (die ≤ 6) × (0 < left) × (left ≤ 4) × (top < 25) }
    requires b_bound { start + length (doubles die left top b.now) < 2 ^ 32 }
    ensures { Took (doubles die left top b.now) window.old start result window.new }
{
    let all = points.origins(die, top);
    if left == 1 {
        return window.steps::<LowToHigh>(b, die, all, start);
    }
    let mut n = start;
    for p in Each::<LowToHigh>::of(all) {
        n = next(b, points.after(b, p, die), die, left - 1, p, window, n);
    }
    n
}

// The same after a step from p, with `left` steps to go; points are those after that step.
#[cycle(level_next)]
fn next(
    b: &[i8; 26],
    points: Points,
    die: usize,
    left: usize,
    p: usize,
    window: &mut Window,
    start: usize,
) -> usize
    requires good { Good (stepped b.now p die) × Masked (stepped b.now p die) points.x points.free × Small (98 - 2 * left) b.now }
    requires x_bound { (0 < die) × (die ≤ 6) × (0 < left) × (left < 4) × (p < 25) }
    requires die_bound { start + length (doubles die left p (stepped b.now p die)) < 2 ^ 32 }
    ensures { Took (doubles die left p (stepped b.now p die)) window.old start result window.new }
{
    if left == 1 {
        return window.steps_after::<LowToHigh>(b, p, die, die, points.origins(die, p), start);
    }
    let mut c = *b;
    position::step_in_place(&mut c, p, die);
    level(&c, points, die, left, p, window, start)
}
