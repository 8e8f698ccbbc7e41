// Compares the steps that are recovered from boards, ends and rolls with the stored ones of the Rust, and writes how many differ.
//
// The file recovery.bin has one record of 64 bytes an answer: 26 of the board, 26 of the end before switching, the two dice, the
// refusal's number, the number of steps, and eight of the steps, each a from and a to, with zeros after them. It asks the function
// that gives them by value, below the one that writes them into a lent row.
#![tactic(auto)]

use bg_move::Steps;
use ints::refusal::Refusal;
use std::io;

const RECORD: usize = 64;

fn main(rt: HostRuntime) -> io::Result<()> {
    stored::replay(&rt, "recovery.bin", "answers", differs)
}

// Whether the refusal or the steps are not the stored ones.
fn differs(record: &[u8; RECORD]) -> bool {
    let old = stored::board(record, 0);
    let end = stored::board(record, 26);
    let found = bg_move::recover(old, end, usize::from(record[52]), usize::from(record[53]));
    answer(found) != stored::bytes(record, 54)
}

// What is stored of an answer: the refusal's number, the number of steps, and each step's from and to.
fn answer(found: Result<Steps, Refusal>) -> [u8; 10] {
    match found {
        Ok(steps) => {
            let [a, b, c, d] = steps.steps;
            [
                0,
                steps.count,
                a.from,
                a.to,
                b.from,
                b.to,
                c.from,
                c.to,
                d.from,
                d.to,
            ]
        }
        Err(refusal) => [refusal.number(), 0, 0, 0, 0, 0, 0, 0, 0, 0],
    }
}
