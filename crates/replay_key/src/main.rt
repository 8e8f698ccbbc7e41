// Compares what the C interface writes and reads of keys with stored answers, and writes how many differ.
//
// The file key.bin has one record of 45 bytes an answer: the kind, 26 bytes of a board, ten of a key, and the answer in eight, low
// byte first. Kind 0 writes the key of the board, kind 1 reads the board of the key. What is written or read stands in the record as
// the out parameter holds it afterwards: 85 in each byte where it stays as it was.
#![tactic(auto)]

use std::io;

const RECORD: usize = 45;

fn main(rt: HostRuntime) -> io::Result<()> {
    stored::replay(&rt, "key.bin", "answers", differs)
}

// Whether the answer, or a byte of the out parameter, is not the stored one.
fn differs(record: &[u8; RECORD]) -> bool {
    let board = stored::board(record, 1);
    let key: [u8; 10] = stored::bytes(record, 27);
    let answer = stored::eight(record, 37);
    match Kind::from(record[0]) {
        Kind::Write => {
            let mut out = [85; 10];
            munchalep::munchalep_key(&board, &mut out) != answer || out != key
        }
        Kind::Read => {
            let mut out = [85; 26];
            munchalep::munchalep_board_of_key(&key, &mut out) != answer || out != board
        }
    }
}

#[derive(Clone, Copy, Debug, PartialEq, Eq)]
enum Kind {
    Write,
    Read,
}

// The kind of a record's first byte.
impl From<u8> for Kind {
    fn from(byte: u8) -> Kind {
        match byte {
            0 => Kind::Write,
            _ => Kind::Read,
        }
    }
}
