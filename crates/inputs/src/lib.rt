// From inputs.rs: the inputs of the two nets, each a small whole number as f32, filled into a lent slice or asked one by one by place.
// A lent slice is told by the bits of its f32s, so that a refusal is promised to leave every byte, those of a NaN too.
#![tactic(auto)]

#[cfg(test)]
mod tests;

ghost use Rattle.std.specs.Prelude.{◌≡◌, not, map, List, ℕ, ℤ, ◌+◌, ◌-◌, ◌*◌, ◌≤◌, ◌<◌, T, length, get_or};
ghost use Rattle.std.specs.Float.{binary32};
ghost use Rattle.std.specs.Float.Ieee.{is_nan, to_bits};
ghost use Rattle.std.proofs.Common.{lit≤};
ghost use Rattle.std.proofs.lemmas.List.Edits.{sets};
ghost use Rattle.ints.specs.Signed.{pos_part, neg_part};
ghost use Rattle.position.specs.Board.{checkers, Accepted, refusal_of};
ghost use Rattle.inputs.specs.Inputs.{whole, bits, four, inputs_of, contact_counts, race_counts, td_inputs};
ghost use Rattle.inputs.specs.Rows.{Row, Rows, contact-points, race-points};
ghost use Rattle.inputs.specs.Answers.{contact_size, race_size, filled_told, input_told, fill_answer, fill_lent, place_answer};

use ints::refusal::Refusal;

// One row of four for each number of checkers from -15 to 15: the side's own are positive, the other side's negative.
static TD_INPUTS: [[f32; 4]; 31] = [
    [0.0, 0.0, 0.0, 0.0],
    [0.0, 0.0, 0.0, 0.0],
    [0.0, 0.0, 0.0, 0.0],
    [0.0, 0.0, 0.0, 0.0],
    [0.0, 0.0, 0.0, 0.0],
    [0.0, 0.0, 0.0, 0.0],
    [0.0, 0.0, 0.0, 0.0],
    [0.0, 0.0, 0.0, 0.0],
    [0.0, 0.0, 0.0, 0.0],
    [0.0, 0.0, 0.0, 0.0],
    [0.0, 0.0, 0.0, 0.0],
    [0.0, 0.0, 0.0, 0.0],
    [0.0, 0.0, 0.0, 0.0],
    [0.0, 0.0, 0.0, 0.0],
    [0.0, 0.0, 0.0, 0.0],
    [0.0, 0.0, 0.0, 0.0],
    [1.0, 0.0, 0.0, 0.0],
    [0.0, 1.0, 0.0, 0.0],
    [0.0, 0.0, 1.0, 0.0],
    [0.0, 0.0, 1.0, 1.0],
    [0.0, 0.0, 1.0, 2.0],
    [0.0, 0.0, 1.0, 3.0],
    [0.0, 0.0, 1.0, 4.0],
    [0.0, 0.0, 1.0, 5.0],
    [0.0, 0.0, 1.0, 6.0],
    [0.0, 0.0, 1.0, 7.0],
    [0.0, 0.0, 1.0, 8.0],
    [0.0, 0.0, 1.0, 9.0],
    [0.0, 0.0, 1.0, 10.0],
    [0.0, 0.0, 1.0, 11.0],
    [0.0, 0.0, 1.0, 12.0],
];

// A net: how many inputs it has, and which points it sees.
pub trait Net {
    ghost SIZE: { ℕ };

    ghost counts: { List ℤ → List ℕ };

    const SIZE: usize;

    // The table's row of each point, in order of place. What is past the net's points is 0.
    fn rows(b: &[i8; 26]) -> [u8; 50]
        requires { Accepted checkers b.now }
        ensures { Rows result (counts b.now) };

    // The row of one point, by its place. A net of no points may be asked place 0, and answers the row of no checkers: a contract that no call
    // can meet is refused. A net that can tell one row without the others says so here, which is faster.
    fn row_at(b: &[i8; 26], k: usize) -> u8
        requires { Accepted checkers b.now × (k < length (counts b.now) - 1 + 1) }
        ensures { Row result (get_or (counts b.now) k 0) }
    {
        if k < (Self::SIZE - 2) / 4 {
            return Self::rows(b)[k];
        }
        row(0)
    }

    ghost four_each: { (b : List ℤ) → 2 + 4 * length (counts b) ≡ SIZE };

    ghost most: { SIZE ≤ 202 };
}

// The contact net: x's bar, x on 1 to 24, o on 0 to 24.
pub struct Contact;

impl Net for Contact {
    ghost SIZE = { contact_size };

    ghost counts = { contact_counts };

    ghost four_each = { contact-points };

    ghost most = { lit≤ tt };

    const SIZE: usize = 202;

    fn rows(b: &[i8; 26]) -> [u8; 50] {
        let mut rows = [0u8; 50];
        rows[0] = row(b[position::X_BAR]);
        for p in 1..25 {
            rows[p] = row(b[p]);
        }
        for p in 0..25 {
            rows[25 + p] = row(-b[p]);
        }
        rows
    }

    fn row_at(b: &[i8; 26], k: usize) -> u8 {
        if k == 0 {
            return row(b[position::X_BAR]);
        }
        if k < 25 {
            return row(b[k]);
        }
        row(-b[k - 25])
    }
}

// The race net: x on 1 to 23, o on 2 to 24.
pub struct Race;

impl Net for Race {
    ghost SIZE = { race_size };

    ghost counts = { race_counts };

    ghost four_each = { race-points };

    ghost most = { lit≤ tt };

    const SIZE: usize = 186;

    fn rows(b: &[i8; 26]) -> [u8; 50] {
        let mut rows = [0u8; 50];
        for p in 1..24 {
            rows[p - 1] = row(b[p]);
        }
        for p in 2..25 {
            rows[21 + p] = row(-b[p]);
        }
        rows
    }

    fn row_at(b: &[i8; 26], k: usize) -> u8 {
        if k < 23 {
            return row(b[k + 1]);
        }
        row(-b[k - 21])
    }
}

// Fills the slice with the bits of the net's inputs, or refuses and leaves it: the entries by 1 to 4, a slice that has not exactly as many
// values by 13. Finished and empty boards are taken. The board is lent, which spares a copy of it.
pub fn fill<N: Net>(b: &[i8; 26], out: &mut [u32]) -> Result<(), Refusal>
    ensures { (filled_told result ≡ fill_answer (refusal_of checkers b.now) N.SIZE (length out.old))
        × (out.new ≡ fill_lent (refusal_of checkers b.now) N.SIZE (inputs_of checkers b.now (N.counts b.now)) out.old) }
{
    let all = position::check(*b)?;
    if out.len() != N::SIZE {
        return Err(Refusal::InputsNotExact);
    }
    out[0] = off_bits(all.x);
    out[1] = off_bits(all.o);
    let rows = N::rows(b);
    for k in 0..(N::SIZE - 2) / 4 {
        put_four(out, 2 + 4 * k, td_bits(rows[k]));
    }
    Ok(())
}

// The net's input that has the place, or the refusal: of the entries, or 14 of a place past the last.
pub fn input<N: Net>(b: [i8; 26], place: usize) -> Result<f32, Refusal>
    ensures { input_told result ≡ place_answer (refusal_of checkers b) N.SIZE (inputs_of checkers b (N.counts b)) place }
{
    let all = position::check(b)?;
    if place >= N::SIZE {
        return Err(Refusal::NoSuchInput);
    }
    if place == 0 {
        return Ok(off(all.x));
    }
    if place == 1 {
        return Ok(off(all.o));
    }
    let row = N::row_at(&b, (place - 2) / 4);
    Ok(td_input(row, (place - 2) % 4))
}

// A side's checkers that are off, n being those on the board.
fn off(n: u32) -> f32
    requires { n ≤ checkers }
    ensures { result ≡ whole (checkers - n) }
{
    (position::NUM_OF_CHECKERS - n) as f32
}

// Their bits.
fn off_bits(n: u32) -> u32
    requires { n ≤ checkers }
    ensures { result ≡ bits (checkers - n) }
{
    bits_of(off(n))
}

// Writes the bits of four values from place i on.
fn put_four(out: &mut [u32], i: usize, four: [u32; 4])
    requires { i + 4 ≤ length out.old }
    ensures { out.new ≡ sets out.old i four }
{
    out[i] = four[0];
    out[i + 1] = four[1];
    out[i + 2] = four[2];
    out[i + 3] = four[3];
}

// The table's row of a number of own checkers, which is negative where the other side stands.
fn row(own: i8) -> u8
    requires { (pos_part own ≤ checkers) × (neg_part own ≤ checkers) }
    ensures { Row result (pos_part own) }
{
    (own + 15) as u8
}

// Value j of the four of a row.
fn td_input(row: u8, j: usize) -> f32
    requires { (row < 31) × (j < 4) }
    ensures { result ≡ whole (get_or (four (row - 15)) j 0) }
{
    let four = td_inputs(row);
    four[j]
}

// The four values of a row.
fn td_inputs(row: u8) -> [f32; 4]
    requires { row < 31 }
    ensures { result ≡ map whole (four (row - 15)) }
{
    td_table()[row as usize]
}

// Their bits.
fn td_bits(row: u8) -> [u32; 4]
    requires { row < 31 }
    ensures { result ≡ map bits (four (row - 15)) }
{
    let four = td_inputs(row);
    [
        bits_of(four[0]),
        bits_of(four[1]),
        bits_of(four[2]),
        bits_of(four[3]),
    ]
}

// The bits of a value that is a number, as lent memory holds them.
pub fn bits_of(value: f32) -> u32
    requires { T (not (is_nan value)) }
    ensures { result ≡ to_bits binary32 value }
{
    f32::to_bits(value)
}

// The table, which is read where it stands.
fn td_table() -> &'static [[f32; 4]; 31]
    ensures { result.now ≡ td_inputs }
{
    &TD_INPUTS
}
