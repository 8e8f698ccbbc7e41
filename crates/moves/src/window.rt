// Lent memory, seen through a window.
ghost use Rattle.std.specs.Prelude.{◌≡◌, ◌/◌, length};

// Room for `slots` ends, 26 bytes an end: the end with number n has the slot n - from, where there is one.
#[derive(Drop)]
pub struct Window<'a> {
    pub out: &'a mut [u8],
    pub from: usize,
    pub slots: usize,
    ghost whole: { slots ≡ length out.now / 26 },
}

impl<'a> Window<'a> {
    // The window over `out` that begins at the end with number `from`.
    pub fn new(out: &'a mut [u8], from: usize) -> Window<'a>
        ensures { (result.out.ghost_name ≡ out.entry.ghost_name) × (result.out.now ≡ out.old) × (result.from ≡ from) }
    {
        let slots = out.len() / 26;
        Window { out, from, slots }
    }
}
