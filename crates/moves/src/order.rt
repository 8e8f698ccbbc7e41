// The points of a mask one after the other, low to high or high to low.
ghost use Rattle.std.specs.Prelude.{◌≡◌, List, [], ℕ, ◌-◌, ◌<◌, ◌^◌, length, count_ones, MatchOption};
ghost use Rattle.std.specs.Iterator.{at_most};
ghost use Rattle.ints.specs.Bits.{bit};
ghost use Rattle.ints.specs.Masks.{those, those_down};
ghost use Rattle.ints.proofs.Masks.{those-zero, down-zero, ones-those, ones-down};
ghost use Rattle.moves.specs.Order.{Next};

use std::marker::PhantomData;

// An order of the points: the list of a mask's points in it, and which of them is the first.
pub trait Order {
    ghost points: { ℕ → List ℕ };

    fn first(m: u32) -> usize
        requires { (0 < m) × (m < 2 ^ 25) }
        ensures { Next points m result (m - 2 ^ result) };

    ghost none: { points 0 ≡ [] };

    ghost all: { (m : ℕ) → m < 2 ^ 25 → count_ones m ≡ length (points m) };
}

pub struct LowToHigh;

impl Order for LowToHigh {
    ghost points = { λ m. those 25 0 (bit m) };

    ghost none = { those-zero 25 };

    ghost all = { ones-those 25 };

    fn first(m: u32) -> usize {
        u32::trailing_zeros(m) as usize
    }
}

pub struct HighToLow;

impl Order for HighToLow {
    ghost points = { λ m. those_down 25 (bit m) };

    ghost none = { down-zero 25 };

    ghost all = { ones-down 25 };

    fn first(m: u32) -> usize {
        (31 - u32::leading_zeros(m)) as usize
    }
}

// The points of a mask that are left, in an order.
#[derive(Drop)]
pub struct Each<O> {
    pub rest: u32,
    order: PhantomData<O>,
    ghost points_only: { rest < 2 ^ 25 },
}

impl<O: Order> Each<O> {
    // All points of the mask m.
    pub fn of(m: u32) -> Each<O>
        requires { m < 2 ^ 25 }
        ensures { result.rest ≡ m }
    {
        Each {
            rest: m,
            order: PhantomData,
        }
    }
}

impl<O: Order> Iterator for Each<O> {
    type Item = usize;

    ghost next_gives = { λ s r t. MatchOption r (O.points s.rest ≡ []) (λ p. Next O.points s.rest p t.rest) };

    ghost remaining = { λ s. at_most s.rest };

    fn next(&mut self) -> Option<usize> {
        if self.rest == 0 {
            return None;
        }
        let p = O::first(self.rest);
        self.rest -= 1u32 << p;
        Some(p)
    }
}
