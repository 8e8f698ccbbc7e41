// Pieces of text put at a line's end.
ghost use Rattle.std.specs.Prelude.{◌≡◌, ◌++◌, ◌+◌, ◌≤◌, ◌<◌, length};
ghost use Rattle.arrayvec.specs.ArrayVec.{array_vec_len};
ghost use Rattle.card_text.specs.Text.{hex_digit, hex_byte, hex, digits, decimal};

use crate::lines::Line;

// A word.
pub fn put_word(line: &mut Line, word: &[u8])
    requires { array_vec_len line.old + length word.now ≤ 42 }
    ensures { line.new.items ≡ line.old.items ++ word.now }
{
    line.try_extend_from_slice(word).unwrap();
}

// The bytes of a key in hex.
#[tactic(auto, using(crate::proofs::Writing::hex_steps))]
pub fn put_hex(line: &mut Line, key: [u8; 10])
    requires { array_vec_len line.old + 20 ≤ 42 }
    ensures text { line.new.items ≡ line.old.items ++ hex key }
    ensures size { array_vec_len line.new ≡ array_vec_len line.old + 20 }
{
    for byte in key {
        put_hex_byte(line, byte);
    }
}

// A byte in hex.
pub fn put_hex_byte(line: &mut Line, byte: u8)
    requires { array_vec_len line.old + 2 ≤ 42 }
    ensures { line.new.items ≡ line.old.items ++ hex_byte byte }
{
    line.push(hex_digit(byte / 16));
    line.push(hex_digit(byte % 16));
}

// A digit in hex, A to F in capitals.
fn hex_digit(digit: u8) -> u8
    requires { digit < 16 }
    ensures { result ≡ hex_digit digit }
{
    if digit < 10 {
        return b'0' + digit;
    }
    b'A' + (digit - 10)
}

// A decimal number below 100,000.
pub fn put_decimal(line: &mut Line, n: usize)
    requires { array_vec_len line.old + 5 ≤ 42 }
    ensures text { line.new.items ≡ line.old.items ++ decimal n }
    ensures size { array_vec_len line.new ≤ array_vec_len line.old + 5 }
{
    put_digits(line, n, 5);
}

// A decimal number in at most so many digits, the last ones where it has more.
#[tactic(auto, using(crate::proofs::Writing::digit_steps))]
fn put_digits(line: &mut Line, n: usize, places: usize)
    requires { array_vec_len line.old + places ≤ 42 }
    ensures text { line.new.items ≡ line.old.items ++ digits places n }
    ensures size { array_vec_len line.new ≤ array_vec_len line.old + places }
{
    if places == 0 {
        return;
    }
    if n < 10 {
        line.push(b'0' + n as u8);
        return;
    }
    put_digits(line, n / 10, places - 1);
    line.push(b'0' + (n % 10) as u8);
}
