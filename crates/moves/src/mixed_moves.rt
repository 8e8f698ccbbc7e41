// From mixed_moves.rs: the ends of two different dice.
ghost use Rattle.std.specs.Prelude.{◌≡◌, true, not, ◌&&◌, ◌-◌, ◌≤◌, ◌<◌, ◌^◌, IfSome};
ghost use Rattle.ints.specs.Signed.{Small};
ghost use Rattle.ints.specs.Bits.{bit};
ghost use Rattle.ints.specs.Masks.{IsMask, those};
ghost use Rattle.position.specs.Board.{xs};
ghost use Rattle.position.specs.Step.{Good, can_step, stepped};
ghost use Rattle.rules.specs.Ends.{up, only, from_top, mixed};
ghost use Rattle.rules.specs.Omitted.{unless_omitted, low_once};
ghost use Rattle.moves.specs.Bytes.{steps, Took};
ghost use Rattle.moves.specs.Points.{holds_x, is_free, Masked};
ghost use Rattle.moves.specs.Seconds.{left_out, Omits, enter_but, one_die, after_entering};

use crate::order::{Each, HighToLow, LowToHigh};
use crate::points::Points;
use crate::window::Window;

// Two different dice, the smaller and the larger.
#[derive(Clone, Copy)]
pub struct Pair {
    pub small: usize,
    pub big: usize,
    ghost positive: { 0 < small },
    ghost ascending: { small < big },
    ghost at_most_6: { big ≤ 6 },
}

// Passes the ends of the smaller and the larger die, from number 0 on.
pub fn mixed_ends(b: &[i8; 26], dice: Pair, window: &mut Window) -> usize
    requires { Good b.now × Small 15 b.now }
    ensures { Took (mixed b.now dice.small dice.big) window.old 0 result window.new }
{
    if b[25] < 1 {
        return with_bar_empty(b, dice, window);
    }
    if b[25] < 2 {
        return with_one_on_bar(b, dice, window);
    }
    with_more_on_bar(b, dice, window)
}

// With x's bar empty: both dice, else the larger alone, else the smaller alone, else the board as it is.
fn with_bar_empty(b: &[i8; 26], dice: Pair, window: &mut Window) -> usize
    requires { Good b.now × Small 15 b.now × (xs b.now 25 ≡ 0) }
    ensures { Took (mixed b.now dice.small dice.big) window.old 0 result window.new }
{
    let points = Points::of(b);
    let half = small_first(b, points, dice, window);
    let both = big_first(b, points, dice, window, half);
    if both > 0 {
        return both;
    }
    one_die(b, points, dice, window)
}

// Passes the ends of one die, from number 0 on: the larger, else the smaller, else the board as it is.
fn one_die(b: &[i8; 26], points: Points, dice: Pair, window: &mut Window) -> usize
    requires { Good b.now × Small 15 b.now × Masked b.now points.x points.free }
    ensures { Took (one_die b.now dice.small dice.big) window.old 0 result window.new }
{
    let larger = window.steps::<LowToHigh>(b, dice.big, points.origins(dice.big, 24), 0);
    if larger > 0 {
        return larger;
    }
    let smaller = window.steps::<LowToHigh>(b, dice.small, points.origins(dice.small, 24), 0);
    if smaller > 0 {
        return smaller;
    }
    window.put(b, 0)
}

// Passes the ends in which the smaller die is played first: from 24 down, then the larger die from that point down.
fn small_first(b: &[i8; 26], points: Points, dice: Pair, window: &mut Window) -> usize
    requires { Good b.now × Small 15 b.now × Masked b.now points.x points.free }
    ensures { Took (from_top b.now dice.small dice.big) window.old 0 result window.new }
{
    let mut n = 0;
    for p in Each::<HighToLow>::of(points.origins(dice.small, 24)) {
        let seconds = points.after(b, p, dice.small).origins(dice.big, p);
        n = window.steps_after::<HighToLow>(b, p, dice.small, dice.big, seconds, n);
    }
    n
}

// Passes the ends in which the larger die is played first: low to high, then the smaller die low to high, strictly below, without the
// ends that were passed already.
fn big_first(b: &[i8; 26], points: Points, dice: Pair, window: &mut Window, start: usize) -> usize
    requires good { Good b.now × Small 15 b.now × Masked b.now points.x points.free }
    requires start_bound { start < 2 ^ 31 }
    ensures { Took (low_once b.now dice.big dice.small) window.old start result window.new }
{
    if points.x >> (dice.small + 1) == 0 {
        return start;
    }
    let mut n = start;
    for p in Each::<LowToHigh>::of(points.origins(dice.big, 24)) {
        n = window.steps_after::<LowToHigh>(
            b,
            p,
            dice.big,
            dice.small,
            seconds(b, points, dice, p),
            n,
        );
    }
    n
}

// The origins of the smaller die after the larger one was played from p: those below p, without the omitted one.
fn seconds(b: &[i8; 26], points: Points, dice: Pair, p: usize) -> u32
    requires good { Good b.now × Masked b.now points.x points.free × (can_step b.now p dice.big ≡ true) }
    requires p_bound { (0 < p) × (p < 25) }
    ensures { (steps (stepped b.now p dice.big) dice.small (those 25 0 (bit result)) ≡ up (p - 1) (unless_omitted b.now dice.big dice.small p (stepped b.now p dice.big))) × (result < 2 ^ 25) }
{
    let below = points.after(b, p, dice.big).origins(dice.small, p - 1);
    without(below, omitted(b, p, dice.big, dice.small))
}

// The point from which one checker would go on by the second die after p by the first, where the other order gives the same end.
fn omitted(b: &[i8; 26], p: usize, first: usize, second: usize) -> Option<usize>
    requires { (p ≤ 25) × (first < p → second < p) }
    ensures { IfSome result (λ q. q < 32) × Omits b.now first second p result }
{
    if p <= first {
        return None;
    }
    if b[p - first] < 0 {
        return None;
    }
    if b[p - second] < 0 {
        return None;
    }
    Some(p - first)
}

// The mask without the point p, if there is one.
fn without(m: u32, p: Option<usize>) -> u32
    requires { IfSome p (λ q. q < 32) }
    ensures { IsMask (λ i. bit m i && not (left_out p i)) result × (result ≤ m) }
{
    match p {
        None => m,
        Some(p) => m - (m & (1u32 << p)),
    }
}

// With one checker on the bar: enter with the larger die and go on with the smaller, then the other way round, without the ends that
// were passed already; else enter with the larger alone, else with the smaller alone, else the board as it is.
fn with_one_on_bar(b: &[i8; 26], dice: Pair, window: &mut Window) -> usize
    requires { Good b.now × Small 15 b.now × (xs b.now 25 ≡ 1) }
    ensures { Took (mixed b.now dice.small dice.big) window.old 0 result window.new }
{
    let points = Points::of(b);
    let larger = enter(b, points, dice.big, dice.small, None, window, 0);
    let both = enter(
        b,
        points,
        dice.small,
        dice.big,
        omitted(b, 25, dice.small, dice.big),
        window,
        larger,
    );
    if both > 0 {
        return both;
    }
    enter_once(b, dice, window)
}

// Enters with the first die, if that can be, and passes the ends of the second die, low to high, but for the omitted origin.
fn enter(
    b: &[i8; 26],
    points: Points,
    first: usize,
    second: usize,
    omit: Option<usize>,
    window: &mut Window,
    start: usize,
) -> usize
    requires good { Good b.now × Small 15 b.now × (xs b.now 25 ≡ 1) × IsMask (holds_x b.now) points.x × IsMask (is_free b.now) points.free }
    requires x_bound { (0 < first) × (first ≤ 6) × (0 < second) × (second ≤ 6) × IfSome omit (λ q. q < 32) × (start < 2 ^ 31) }
    ensures { Took (enter_but b.now first second omit) window.old start result window.new }
{
    if !position::can_move(b, 25, first) {
        return start;
    }
    let entered = points.with(25 - first);
    let seconds = without(entered.origins(second, 24), omit);
    window.steps_after::<LowToHigh>(b, 25, first, second, seconds, start)
}

// Enters with one die, the larger if it can be, and stops there; the board as it is where neither can.
fn enter_once(b: &[i8; 26], dice: Pair, window: &mut Window) -> usize
    requires { Small 15 b.now × (0 < xs b.now 25) }
    ensures { Took (one_die b.now dice.small dice.big) window.old 0 result window.new }
{
    if position::can_move(b, 25, dice.big) {
        return put_entered(b, dice.big, window);
    }
    put_entered(b, dice.small, window)
}

// With two or more on the bar there is one end: a checker entered with each die that can be.
fn with_more_on_bar(b: &[i8; 26], dice: Pair, window: &mut Window) -> usize
    requires { Good b.now × Small 15 b.now × (2 ≤ xs b.now 25) }
    ensures { Took (mixed b.now dice.small dice.big) window.old 0 result window.new }
{
    let c = entered(*b, dice.big);
    put_entered(&c, dice.small, window)
}

// Passes one end: the board after a checker enters with the die, or the board as it is where none can.
fn put_entered(b: &[i8; 26], die: usize, window: &mut Window) -> usize
    requires { (die ≤ 6) × Small 17 b.now }
    ensures { Took (only (after_entering b.now die)) window.old 0 result window.new }
{
    let c = entered(*b, die);
    window.put(&c, 0)
}

// The board after a checker enters with the die, or the board as it is where none can.
fn entered(b: [i8; 26], die: usize) -> [i8; 26]
    requires { (die ≤ 6) × Small 100 b }
    ensures { result ≡ after_entering b die }
{
    if position::can_move(&b, 25, die) {
        return position::move_single_checker(b, 25, die);
    }
    b
}
