// Compares what the C interface answers of boards and rolls with the stored answers of the Rust, and writes how many differ.
//
// The file moves.bin has one record of 100 bytes a board and roll, numbers low byte first: 26 of the board, the dice in eight bytes
// each, the answer of count in eight, the checksum of the whole list in eight (0 where it is refused), an end number in eight, the
// answer of end in eight, and 26 of its out parameter afterwards (85 each where it stays as it was).
#![tactic(auto)]

ghost use Rattle.std.specs.Prelude.{◌<◌};

use std::io;

const RECORD: usize = 100;

// Bytes for the most ends that a roll can have: 26 for each of 17,550.
const ROOM: usize = 456300;

fn main(rt: HostRuntime) -> io::Result<()> {
    let mut list = [0; ROOM];
    stored::replay(
        &rt,
        "moves.bin",
        "boards and rolls",
        |record: &[u8; RECORD]| { differs(record, &mut list) },
    )
}

// Whether an answer, the list or a byte of the out parameter is not the stored one.
fn differs(record: &[u8; RECORD], list: &mut [u8]) -> bool {
    let board = stored::board(record, 0);
    let die1 = stored::eight(record, 26) as usize;
    let die2 = stored::eight(record, 34) as usize;
    let ends = stored::eight(record, 42);
    let number = stored::eight(record, 58) as usize;
    let mut out = [85; 26];
    munchalep::munchalep_count(&board, die1, die2) != ends
        || munchalep::munchalep_list(&board, die1, die2, list) != ends
        || checksum(list, ends) != stored::eight(record, 50)
        || munchalep::munchalep_end(&board, die1, die2, number, &mut out)
            != stored::eight(record, 66)
        || out != stored::board(record, 74)
}

// The checksum of a list, whose answer says how many ends it has; 0 where it was refused.
fn checksum(list: &[u8], answer: u64) -> u64 {
    if answer % 256 != 0 {
        return 0;
    }
    let bytes = answer / 256 * 26;
    let mut sum = 1;
    for byte in list.iter().take(bytes as usize) {
        sum = next_sum(sum, *byte);
    }
    sum
}

// The checksum with one byte more.
fn next_sum(sum: u64, byte: u8) -> u64
    requires { sum < 4294967291 }
    ensures { result < 4294967291 }
{
    (sum * 16777619 + u64::from(byte)) % 4294967291
}
