// Compares what the C interface answers of game cards with stored answers, and writes how many cards differ.
//
// The file cards.bin has one record a card, of 89 bytes and the card, numbers low byte first: the card's length in two bytes, the
// refusal's number of reading it, the value in two bytes (the number of turns, or where the refused record begins), three times a
// position's number in two bytes and 26 of the out parameter after it was asked (85 each where it stays as it was), and the card. Of
// a card that is read, the start record is then written anew from position 0, and the last turn's from the last two positions.
#![tactic(auto)]

ghost use Rattle.std.specs.Prelude.{◌<◌, ◌≤◌, ◌++◌, take};

use ints::refusal::Refusal;
use std::io;
use std::io::Read;
use stored::{Record, Unreplayed};

const HEAD: usize = 89;

// The longest card that is stored.
const ROOM: usize = 5100;

// The bytes of a card's start record.
const START: usize = 12;

// The bytes of a turn's.
const TURN: usize = 5;

fn main(rt: HostRuntime) -> io::Result<()> {
    let mut buffer = [0; ROOM];
    stored::replay(&rt, "cards.bin", "cards", |stored: &Stored| {
        !stored.holds() || stored.is_read() && !stored.is_written(&mut buffer)
    })
}

// A stored card, with what was answered of it in the head.
#[derive(Drop)]
struct Stored {
    head: [u8; HEAD],
    room: [u8; ROOM],
    length: usize,
    ghost fits: { length ≤ 5100 },
}

impl Record for Stored {
    ghost bytes_of = { λ one. one.head ++ take one.length one.room };

    type Shape = &'static str;

    fn shape() -> &'static str {
        "less than a million whole records, with cards of at most 5100 bytes"
    }

    fn read<R: Read>(reader: &mut R) -> Result<Option<Stored>, Unreplayed> {
        let Some(head) = <[u8; HEAD]>::read(reader)? else {
            return Ok(None);
        };
        let length = stored::two(&head, 0) as usize;
        if length > ROOM {
            return Err(Unreplayed::Misshapen);
        }
        let mut room = [0; ROOM];
        if stored::read_full(reader, &mut room[..length])? != length {
            return Err(Unreplayed::Misshapen);
        }
        Ok(Some(Stored { head, room, length }))
    }
}

impl Stored {
    fn card(&self) -> &[u8] {
        &self.room[..self.length]
    }

    // Whether the card is read, by the stored answer.
    fn is_read(&self) -> bool {
        self.head[2] == 0
    }

    // The number of turns, or where the refused record begins.
    fn value(&self) -> u64
        ensures { result < 65536 }
    {
        stored::two(&self.head, 3)
    }

    // Whether reading the card and asking its positions answer as stored.
    fn holds(&self) -> bool {
        munchalep::game_card::munchalep_card_read(self.card()) == self.read_answer()
            && self.position_holds(5)
            && self.position_holds(33)
            && self.position_holds(61)
    }

    // Whether the position whose number stands at byte `at` of the head is answered as stored.
    fn position_holds(&self, at: usize) -> bool
        requires { at ≤ 61 }
    {
        let k = stored::two(&self.head, at);
        let mut out = [85; 26];
        let answer = munchalep::game_card::munchalep_card_position(
            self.card(),
            k as usize,
            &mut out,
        );
        answer == self.position_answer(k) && out == stored::board(&self.head, at + 2)
    }

    // The stored answer of reading.
    fn read_answer(&self) -> u64 {
        u64::from(self.head[2]) + 256 * self.value()
    }

    // The answer of position `k`, as it follows from the stored one of reading.
    fn position_answer(&self, k: u64) -> u64 {
        if !self.is_read() {
            return self.read_answer();
        }
        if k > self.value() {
            return u64::from(Refusal::NoSuchPosition.number());
        }
        0
    }

    // Whether the records of the start and of the last turn are written as the card has them, from its positions.
    fn is_written(&self, buffer: &mut [u8]) -> bool {
        let card = self.card();
        let turns = self.value() as usize;
        let start = position(card, 0);
        if munchalep::game_card::munchalep_card_begin(&start, buffer) != 256 * START as u64 {
            return false;
        }
        if turns > 0 && !is_added(card, turns, buffer) {
            return false;
        }
        buffer.starts_with(card)
    }
}

// Whether the last turn is added after the ones before it, which are copied.
fn is_added(card: &[u8], turns: usize, buffer: &mut [u8]) -> bool {
    if card.len() < START + TURN || buffer.len() < card.len() {
        return false;
    }
    let length = card.len() - TURN;
    buffer[START..length].copy_from_slice(&card[START..length]);
    let dice = usize::from(card[length + 2]);
    let last = position(card, turns);
    let answer = munchalep::game_card::munchalep_card_add(
        buffer,
        length,
        dice % 16,
        dice / 16,
        &last,
    );
    answer % 256 == 0 && answer / 256 == card.len() as u64
}

// A position of a card that is read.
fn position(card: &[u8], k: usize) -> [i8; 26] {
    let mut out = [0; 26];
    munchalep::game_card::munchalep_card_position(card, k, &mut out);
    out
}
