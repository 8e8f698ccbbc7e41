// Compares what the C interface answers of single boards with the stored answers of the Rust, and writes how many differ.
//
// The file position.bin has one record of 77 bytes an answer, numbers low byte first: the entry (0 check, 1 switch, 2 step, 3 result),
// from and die in eight bytes each, 26 of the board, 26 of the out parameter afterwards (85 each where it stays as it was), and the
// answer in eight.
#![tactic(auto)]

use std::io;

const RECORD: usize = 77;

fn main(rt: HostRuntime) -> io::Result<()> {
    stored::replay(&rt, "position.bin", "answers", differs)
}

// Whether the answer, or a byte of the out parameter, is not the stored one.
fn differs(record: &[u8; RECORD]) -> bool {
    let board = stored::board(record, 17);
    let mut out = [85; 26];
    let answer = answer(
        Entry::from(record[0]),
        &board,
        stored::eight(record, 1),
        stored::eight(record, 9),
        &mut out,
    );
    answer != stored::eight(record, 69) || out != stored::board(record, 43)
}

// What the entry answers.
fn answer(entry: Entry, board: &[i8; 26], from: u64, die: u64, out: &mut [i8; 26]) -> u64 {
    match entry {
        Entry::Check => munchalep::munchalep_check(board),
        Entry::Switch => munchalep::munchalep_switch(board, out),
        Entry::Step => munchalep::munchalep_step(board, from as usize, die as usize, out),
        Entry::Result => munchalep::munchalep_result(board),
    }
}

#[derive(Clone, Copy, Debug, PartialEq, Eq)]
enum Entry {
    Check,
    Switch,
    Step,
    Result,
}

// The entry of a record's first byte.
impl From<u8> for Entry {
    fn from(byte: u8) -> Entry {
        match byte {
            0 => Entry::Check,
            1 => Entry::Switch,
            2 => Entry::Step,
            _ => Entry::Result,
        }
    }
}
