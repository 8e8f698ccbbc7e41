// Compares what the C interface answers of the nets' inputs with the stored answers of the Rust, and writes how many differ.
//
// The file inputs.bin has one record of 232 bytes an answer: the net (0 contact, 1 race), how many floats are lent, 26 of the board,
// the refusal's number, and 203 of the lent floats afterwards, each as the whole number that it equals: 85 where it stays as it was,
// and after the last. Each input is then asked by its place, and has to be the float that stands there. Floats are compared by their
// bits.
#![tactic(auto)]

use ints::refusal::Refusal;
use std::io;

const RECORD: usize = 232;

// Floats that a record has room for: one more than the contact net has.
const FLOATS: usize = 203;

// What a float that stays holds: the bits of a NaN, which no input has.
const STAYS: u32 = 0x7FA5_5A55;

fn main(rt: HostRuntime) -> io::Result<()> {
    stored::replay(&rt, "inputs.bin", "answers", |record: &[u8; RECORD]| {
        !Stored::from(*record).holds()
    })
}

// A stored answer.
#[derive(Clone, Copy, Debug, PartialEq, Eq)]
struct Stored {
    net: Net,
    length: usize,
    board: [i8; 26],
    refusal: u64,
    floats: [u32; FLOATS],
}

impl From<[u8; RECORD]> for Stored {
    fn from(record: [u8; RECORD]) -> Stored {
        let values: [u8; FLOATS] = stored::bytes(&record, 29);
        let mut floats = [0; FLOATS];
        for i in 0..FLOATS {
            floats[i] = bits(values[i]);
        }
        Stored {
            net: Net::from(record[0]),
            length: usize::from(record[1]),
            board: stored::board(&record, 2),
            refusal: u64::from(record[28]),
            floats,
        }
    }
}

impl Stored {
    // Whether each answer, and each lent float, is the stored one. A slice of a wrong length says nothing of the inputs.
    fn holds(&self) -> bool {
        self.is_filled()
            && (self.refusal == u64::from(Refusal::InputsNotExact.number()) || self.places_hold())
    }

    // Whether the floats are lent and filled as stored.
    fn is_filled(&self) -> bool {
        if self.length > FLOATS {
            return false;
        }
        let mut floats = [STAYS; FLOATS];
        self.net.fill(&self.board, &mut floats[..self.length]) == self.refusal
            && floats == self.floats
    }

    // Whether each input by its place is the stored one, and none is given after the last.
    fn places_hold(&self) -> bool {
        self.floats
            .iter()
            .enumerate()
            .all(|(place, float)| self.place_holds(place, *float))
    }

    fn place_holds(&self, place: usize, float: u32) -> bool {
        let mut out = STAYS;
        self.net.ask(&self.board, place, &mut out) == self.refusal_at(place) && out == float
    }

    // The refusal of an input by its place: that of the record, or 14 after the last.
    fn refusal_at(&self, place: usize) -> u64 {
        if self.refusal == 0 && self.length <= place {
            return u64::from(Refusal::NoSuchInput.number());
        }
        self.refusal
    }
}

#[derive(Clone, Copy, Debug, PartialEq, Eq)]
enum Net {
    Contact,
    Race,
}

// The net of a record's first byte.
impl From<u8> for Net {
    fn from(byte: u8) -> Net {
        match byte {
            0 => Net::Contact,
            _ => Net::Race,
        }
    }
}

impl Net {
    // Lends the floats to the net's entry.
    fn fill(self, board: &[i8; 26], floats: &mut [u32]) -> u64 {
        match self {
            Net::Contact => munchalep::munchalep_contact_inputs(board, floats),
            Net::Race => munchalep::munchalep_race_inputs(board, floats),
        }
    }

    // Asks the net's entry for the input that has a place.
    fn ask(self, board: &[i8; 26], place: usize, out: &mut u32) -> u64 {
        match self {
            Net::Contact => munchalep::munchalep_contact_input(board, place, out),
            Net::Race => munchalep::munchalep_race_input(board, place, out),
        }
    }
}

// The bits of a stored float.
fn bits(byte: u8) -> u32 {
    if byte == 85 {
        return STAYS;
    }
    f32::from(byte).to_bits()
}
