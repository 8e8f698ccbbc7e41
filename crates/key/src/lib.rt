// From conversion.rs: the ten bytes of the Position ID key, written from a board and read back.
#![tactic(auto)]

ghost use Rattle.std.specs.Prelude.{◌≡◌, true, ℕ, ◌+◌, min, ◌≤◌, ◌<◌, get_or, drop, replicate};
ghost use Rattle.ints.specs.Bits.{Bytes, bits_of, merged, some};
ghost use Rattle.ints.specs.Sums.{values};
ghost use Rattle.position.specs.Board.{checkers, Accepted};
ghost use Rattle.position.specs.Answers.{board_told};
ghost use Rattle.key.specs.Key.{counts, key_of, lead, meets, board_from, key_told, key_answer, board_of_key_answer};
ghost use Rattle.key.specs.Side.{IsSide};

use ints::refusal::Refusal;
use std::array;

// One side's checkers on its own points 1 to 25, at those places, and the place of the first bit after its runs.
#[derive(Drop)]
struct Side {
    end: usize,
    counts: [u8; 26],
}

// The key of a board, or the refusal of the entries, 1 to 4.
pub fn encode(b: [i8; 26]) -> Result<[u8; 10], Refusal>
    ensures { key_told result ≡ key_answer checkers b }
{
    position::check(b)?;
    Ok(written(b))
}

// The board of a key, or the refusal of o's sixteenth checker, of x's, of both sides on one point, or of a bit set after the last end
// bit.
pub fn decode(k: [u8; 10]) -> Result<[i8; 26], Refusal>
    ensures { board_told result ≡ board_of_key_answer checkers k }
{
    let o = read_side(&k, 0).ok_or(Refusal::KeyOOver15)?;
    let x = read_side(&k, o.end).ok_or(Refusal::KeyXOver15)?;
    if shared(&x.counts, &o.counts) {
        return Err(Refusal::KeySharedPoint);
    }
    if set_from(&k, x.end) {
        return Err(Refusal::KeyBitAfterEnd);
    }
    Ok(board_from(&x.counts, &o.counts))
}

// The key of an accepted board.
fn written(b: [i8; 26]) -> [u8; 10]
    requires { Accepted checkers b }
    ensures { result ≡ key_of b }
{
    let mut key = [0u8; 10];
    let mut at = 0;
    for j in 0..50 {
        let n = count(&b, j);
        set_ones(&mut key, at, n);
        at += n + 1;
    }
    key
}

// The checkers of run j: o's on points 24 down to 0, then x's on points 1 to 25.
fn count(b: &[i8; 26], j: usize) -> usize
    requires { j < 50 }
    ensures { result ≡ get_or (counts b.now) j 0 }
{
    if j < 25 {
        return ints::neg_part(b[24 - j]) as usize;
    }
    ints::pos_part(b[j - 24]) as usize
}

// Sets n bits from bit `from` on.
fn set_ones(key: &mut [u8; 10], from: usize, n: usize)
    requires { (from + n ≤ 80) × Bytes key.old }
    ensures { (bits_of key.new ≡ merged (bits_of key.old) from (replicate n true)) × Bytes key.new }
{
    for k in from..from + n {
        ints::set_bit(key, k);
    }
}

// One side's 25 runs, the first of which begins at bit `from`, or `None` where a sixteenth checker is met: so many as are left make
// one, and end the reading.
fn read_side(key: &[u8; 10], from: usize) -> Option<Side>
    requires { from ≤ 40 }
    ensures { IsSide (bits_of key.now) from result }
{
    let mut counts = [0u8; 26];
    let mut at = from;
    let mut left = 16;
    for q in 1..26 {
        let n = ones_from(key, at, left);
        if n == left {
            return None;
        }
        counts[q] = n as u8;
        left -= n;
        at += n + 1;
    }
    Some(Side { end: at, counts })
}

// How many 1s stand from bit `from` on, counted up to `most`.
fn ones_from(key: &[u8; 10], from: usize, most: usize) -> usize
    requires { from + most ≤ 80 }
    ensures { result ≡ min most (lead (drop from (bits_of key.now))) }
{
    (from..from + most)
        .take_while(|k| ints::bit(key, *k))
        .count()
}

// Whether a bit is set from bit `from` on.
fn set_from(key: &[u8; 10], from: usize) -> bool
    requires { from ≤ 80 }
    ensures { result ≡ some (drop from (bits_of key.now)) }
{
    (from..80).any(|k| ints::bit(key, k))
}

// Whether both sides have a checker on one point. Each side's are given at its own points.
fn shared(x: &[u8; 26], o: &[u8; 26]) -> bool
    ensures { result ≡ some (values (meets x.now o.now) 0 26) }
{
    x.iter().zip(o.iter().rev()).any(|(x, o)| *x > 0 && *o > 0)
}

// The board on which each side has these checkers at its own points, at most fifteen on each.
fn board_from(x: &[u8; 26], o: &[u8; 26]) -> [i8; 26]
    requires { (p : ℕ) → (get_or x.now p 0 ≤ checkers) × (get_or o.now p 0 ≤ checkers) }
    ensures { result ≡ board_from x.now o.now }
{
    array::from_fn(|p| (x[p] as i8) - (o[25 - p] as i8))
}
