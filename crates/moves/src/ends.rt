// Ends passed to a window: each is counted, and written where it has a slot.
ghost use Rattle.std.specs.Prelude.{◌≡◌, true, false, List, [], ◌∷◌, ℕ, ◌+◌, ◌-◌, ◌/◌, ◌≤◌, ◌<◌, ◌^◌, length, set};
ghost use Rattle.std.proofs.lemmas.List.Edits.{sets};
ghost use Rattle.ints.specs.Signed.{Small};
ghost use Rattle.ints.specs.Twos.{twos};
ghost use Rattle.ints.specs.Lent.{store, written};
ghost use Rattle.position.specs.Step.{stepped};
ghost use Rattle.moves.specs.Bytes.{image, steps, Stored, Took};

use crate::order::{Each, Order};
use crate::window::Window;

impl<'a> Window<'a> {
    // Passes the one end b, whose number is start.
    pub fn put(&mut self, b: &[i8; 26], start: usize) -> usize
        requires small { Small 126 b.now }
        requires start_bound { start + 1 < 2 ^ 32 }
        ensures { Took (b.now ∷ []) self.old start result self.new }
    {
        self.put_board(b, start);
        start + 1
    }

    // Passes the ends after a step from each point of the mask, in an order. The memory is lent to a window of its own, whose fields
    // stay in registers over the loop.
    pub fn steps<O: Order>(&mut self, b: &[i8; 26], die: usize, m: u32, start: usize) -> usize
        requires small { Small 120 b.now }
        requires die_nonzero { (0 < die) × (m < 2 ^ 25) × (start + length (O.points m) < 2 ^ 32) }
        ensures { Took (steps b.now die (O.points m)) self.old start result self.new }
    {
        let out = &mut *self.out;
        let mut window = Window::new(out, self.from);
        let s = switched_bytes(b);
        let mut n = start;
        for p in Each::<O>::of(m) {
            window.put_step(b, &s, p, die, n);
            n += 1;
        }
        n
    }

    // Passes the ends of a second step from the points of the mask, in an order, after a first step from p. The board after the first is
    // made only where one of them falls in the window.
    pub fn steps_after<O: Order>(
        &mut self,
        b: &[i8; 26],
        p: usize,
        first: usize,
        die: usize,
        m: u32,
        start: usize,
    ) -> usize
        requires small { Small 118 b.now }
        requires p_bound { (p ≤ 25) × (0 < die) × (m < 2 ^ 25) × (start + length (O.points m) < 2 ^ 32) }
        ensures { Took (steps (stepped b.now p first) die (O.points m)) self.old start result self.new }
    {
        let end = start + u32::count_ones(m) as usize;
        if self.outside(start, end) {
            return end;
        }
        let c = position::move_single_checker(*b, p, first);
        self.steps::<O>(&c, die, m, start)
    }

    // Whether none of the numbers from `start` up to `end` has a slot, so that nothing is to be written.
    fn outside(&self, start: usize, end: usize) -> bool
        ensures { result ≡ true → (es : List (List ℕ)) → end ≡ start + length es → written 26 self.now.out.now self.now.from start es ≡ self.now.out.now }
    {
        if end <= self.from {
            return true;
        }
        if start < self.from {
            return false;
        }
        self.slots <= start - self.from
    }

    // Whether the end with number n has a slot.
    fn holds(&self, n: usize) -> bool
        ensures { (result ≡ true → (self.now.from ≤ n) × (n - self.now.from < length self.now.out.now / 26)) × (result ≡ false → (e : List ℕ) → store 26 self.now.out.now self.now.from n e ≡ self.now.out.now) }
    {
        if n < self.from {
            return false;
        }
        n - self.from < self.slots
    }

    // Writes the end b, whose number is n, if it has a slot.
    fn put_board(&mut self, b: &[i8; 26], n: usize)
        requires { Small 126 b.now }
        ensures { Stored (image b.now) self.old n self.new }
    {
        if self.holds(n) {
            let s = switched_bytes(b);
            copy(&s, self.out, (n - self.from) * 26);
        }
    }

    // Writes the end after a step from p, whose number is n, if it has a slot; s holds the bytes of the board before the step.
    fn put_step(&mut self, b: &[i8; 26], s: &[u8; 26], p: usize, die: usize, n: usize)
        requires small { Small 120 b.now }
        requires b_len { (p ≤ 25) × (0 < die) × (s.now ≡ image b.now) }
        ensures { Stored (image (stepped b.now p die)) self.old n self.new }
    {
        if self.holds(n) {
            write_step(b, s, p, die, self.out, (n - self.from) * 26);
        }
    }
}

// Writes the end after a step from p, from `at` on: the bytes of the board before the step, and then those of the two or three entries
// that the step changes.
fn write_step(b: &[i8; 26], s: &[u8; 26], p: usize, die: usize, out: &mut [u8], at: usize)
    requires small { Small 120 b.now }
    requires b_len { (p ≤ 25) × (0 < die) × (s.now ≡ image b.now) × (at + 26 ≤ length out.old) }
    ensures { out.new ≡ sets out.old at (image (stepped b.now p die)) }
{
    copy(s, out, at);
    set_entry(out, at, p, 1 - b[p]);
    if die < p {
        let to = p - die;
        if b[to] == -1 {
            set_entry(out, at, to, -1);
            set_entry(out, at, 0, 1 - b[0]);
        } else {
            set_entry(out, at, to, -1 - b[to]);
        }
    }
}

// Writes the byte of e where the switched entry of p stands, in the 26 bytes from `at` on.
fn set_entry(out: &mut [u8], at: usize, p: usize, e: i8)
    requires { (p ≤ 25) × (at + 26 ≤ length out.old) }
    ensures { out.new ≡ set out.old (at + 25 - p) (twos e) }
{
    out[at + 25 - p] = ints::byte_of(e);
}

// Writes 26 bytes from `at` on. The bytes of s then stay in registers over the steps from a board, as they do not by `copy_from_slice`.
fn copy(s: &[u8; 26], out: &mut [u8], at: usize)
    requires { at + 26 ≤ length out.old }
    ensures { out.new ≡ sets out.old at s.now }
{
    for (i, byte) in s.iter().enumerate() {
        out[at + i] = *byte;
    }
}

// The bytes of a board with sides switched.
fn switched_bytes(b: &[i8; 26]) -> [u8; 26]
    requires { Small 126 b.now }
    ensures { result ≡ image b.now }
{
    let mut s = [0u8; 26];
    for (i, e) in b.iter().enumerate() {
        s[25 - i] = ints::byte_of(-*e);
    }
    s
}
