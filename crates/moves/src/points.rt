// The points from which a die can be played, as masks: point i is bit i, and neither bar is a point.
ghost use Rattle.std.specs.Prelude.{◌≡◌, cond, ◌<◌, ◌^◌, eqb};
ghost use Rattle.std.specs.Int.Bits.{bit_or, bit_xor};
ghost use Rattle.ints.specs.Signed.{pos_part};
ghost use Rattle.ints.specs.Masks.{IsMask};
ghost use Rattle.moves.specs.Points.{holds_x, is_free, off_mask, origins_mask, after_mask};

// The points of a board where x has a checker, and those that o does not block.
#[derive(Clone, Copy)]
pub struct Points {
    pub x: u32,
    pub free: u32,
    ghost x_points: { x < 2 ^ 25 },
    ghost free_points: { free < 2 ^ 25 },
}

impl Points {
    // Those of the board b.
    pub fn of(b: &[i8; 26]) -> Points
        ensures { (IsMask (holds_x b.now) result.x) × IsMask (is_free b.now) result.free }
    {
        let mut x = 0u32;
        let mut free = 0u32;
        for p in (1..25).rev() {
            x = x * 2 + u32::from(b[p] > 0);
            free = free * 2 + u32::from(b[p] >= -1);
        }
        Points {
            x: x * 2,
            free: free * 2,
        }
    }

    // The points up to `top` from which the die can be played.
    pub fn origins(self, die: usize, top: usize) -> u32
        requires { (die < 7) × (top < 25) }
        ensures { (result ≡ origins_mask self.x self.free die top) × (result < 2 ^ 25) }
    {
        ((self.x & (self.free << die)) | off(self.x, die)) & ((1u32 << (top + 1)) - 1)
    }

    // Those after a step from the point p of the board b, of which these are the points.
    pub fn after(self, b: &[i8; 26], p: usize, die: usize) -> Points
        requires { p < 25 }
        ensures { (result.x ≡ after_mask b.now self.x p die) × (result.free ≡ self.free) }
    {
        let rest = self.without_last(b[p], p);
        if die < p {
            return rest.with(p - die);
        }
        rest
    }

    // Those with a checker of x on p too.
    pub fn with(self, p: usize) -> Points
        requires { p < 25 }
        ensures { (result.x ≡ bit_or self.x (2 ^ p)) × (result.free ≡ self.free) }
    {
        Points {
            x: self.x | (1u32 << p),
            free: self.free,
        }
    }

    // Those where a checker of x leaves p, which holds e: the last one there empties it.
    fn without_last(self, e: i8, p: usize) -> Points
        requires { p < 25 }
        ensures { (result.x ≡ cond (eqb (pos_part e) 1) (bit_xor self.x (2 ^ p)) self.x) × (result.free ≡ self.free) }
    {
        if e == 1 {
            return Points {
                x: self.x ^ (1u32 << p),
                free: self.free,
            };
        }
        self
    }
}

// The one point from which the die bears off.
fn off(x: u32, die: usize) -> u32
    requires { (x < 2 ^ 25) × (die < 7) }
    ensures { (result ≡ off_mask x die) × (result < 2 ^ 25) }
{
    if x >> 7 != 0 {
        return 0;
    }
    if x >> die != 0 {
        return x & (1u32 << die);
    }
    if x == 0 {
        return 0;
    }
    1u32 << (31 - u32::leading_zeros(x))
}
