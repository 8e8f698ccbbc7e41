// Compares what the crate `dice` answers with the stored answers of the Rust's dice.rs, and writes how many differ.
//
// The file dice.bin has 799 answers: the 21 rolls and the 441 pairs, four bytes each, low byte first; then one byte each,
// for every two dice from 0 to 8 the dice byte, 0 where they are refused, and for every byte whether it is that of a roll.
#![tactic(auto)]

ghost use Rattle.std.specs.Prelude.{◌<◌};

use dice::Dice;
use std::fs::File;
use std::io;
use stored::{Tally, Unreplayed};

// 21 + 441 answers of four bytes and 81 + 256 of one.
const BYTES: usize = 2185;

// More than that, so that a longer file is told apart.
const ROOM: usize = 4096;

fn main(rt: HostRuntime) -> io::Result<()> {
    stored::report(&rt, "dice.bin", "answers", "2185 bytes", replay)
}

// Replays the file's answers.
fn replay(file: &mut File) -> Result<Tally, Unreplayed> {
    let mut answers = [0; ROOM];
    if stored::read_full(file, &mut answers)? != BYTES {
        return Err(Unreplayed::Misshapen);
    }
    let differ = (0..799).filter(|k| differs(&answers, *k)).count();
    Ok(Tally {
        replayed: 799,
        differ: differ as u64,
    })
}

// Whether stored answer k is not the crate's.
fn differs(answers: &[u8], k: usize) -> bool
    requires { k < 799 }
{
    stored_answer(answers, k) != u64::from(answer(k))
}

// Stored answer k: four bytes each below 462, and one each from there on.
fn stored_answer(answers: &[u8], k: usize) -> u64
    requires { k < 799 }
{
    if k < 462 {
        return stored::four(answers, 4 * k);
    }
    u64::from(stored::byte(answers, 4 * 462 + (k - 462)))
}

// What the crate answers at k.
fn answer(k: usize) -> u32
    requires { k < 799 }
{
    if k < 21 {
        return dice::roll(k);
    }
    if k < 462 {
        return dice::pair(k - 21);
    }
    if k < 543 {
        let byte = dice::dice_byte((k - 462) / 9, (k - 462) % 9);
        return u32::from(byte.unwrap_or(0));
    }
    u32::from(Dice::try_from((k - 543) as u8).is_ok())
}
