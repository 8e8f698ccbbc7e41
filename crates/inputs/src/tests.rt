// What no clause says: that a net may say its rows alone, and leave it to the trait to take one of them, and may have no points.
ghost use Rattle.std.specs.Prelude.{refl, [], ◌∷◌};
ghost use Rattle.std.proofs.Common.{lit≤};
ghost use Rattle.position.specs.Board.{xs, os};

use super::*;

// Both bars, x's first.
struct Bars;

impl Net for Bars {
    ghost SIZE = { 10 };

    ghost counts = { λ b. xs b 25 ∷ os b 0 ∷ [] };

    ghost four_each = { λ b. refl };

    ghost most = { lit≤ tt };

    const SIZE: usize = 10;

    fn rows(b: &[i8; 26]) -> [u8; 50] {
        let mut rows = [0u8; 50];
        rows[0] = row(b[position::X_BAR]);
        rows[1] = row(-b[position::O_BAR]);
        rows
    }
}

// No points: the checkers that are off alone.
struct Off;

impl Net for Off {
    ghost SIZE = { 2 };

    ghost counts = { λ b. [] };

    ghost four_each = { λ b. refl };

    ghost most = { lit≤ tt };

    const SIZE: usize = 2;

    fn rows(_b: &[i8; 26]) -> [u8; 50] {
        [0u8; 50]
    }
}

#[test]
fn a_net_of_rows_alone_is_filled_and_asked(rt: HostRuntime) {
    let mut b = [0i8; 26];
    b[position::X_BAR] = 2;
    b[position::O_BAR] = -5;
    let wanted = [13.0, 10.0, 0.0, 1.0, 0.0, 0.0, 0.0, 0.0, 1.0, 2.0];
    let mut filled = [0u32; 10];
    assert_eq!(rt; fill::<Bars>(&b, &mut filled), Ok(()));
    for place in 0..10 {
        assert_eq!(rt;
            filled[place],
            f32::to_bits(wanted[place]),
            "filled at {place}"
        );
        assert_eq!(rt;
            input::<Bars>(b, place),
            Ok(wanted[place]),
            "asked at {place}"
        );
    }
    assert_eq!(rt; input::<Bars>(b, 10), Err(Refusal::NoSuchInput));
}

#[test]
fn a_net_of_no_points_has_the_row_of_none(rt: HostRuntime) {
    let b = [0i8; 26];
    assert_eq!(rt; input::<Off>(b, 1), Ok(15.0));
    assert_eq!(rt; input::<Off>(b, 2), Err(Refusal::NoSuchInput));
    assert_eq!(rt; Off::row_at(&b, 0), 15);
}
