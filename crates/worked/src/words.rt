//! Words of settings and knots, worked through.
ghost use Rattle.std.specs.Prelude.{◌≡◌, [], ◌∷◌};
ghost use Rattle.worked.specs.Worked.{Worked};

use kinds::{Kind, Knot, Setting};

fn tension() -> u64
    ensures { result ≡ 0x020000003FC00000 }
{
    Setting::Tension(1.5).pack()
}

fn knot() -> u64
    ensures { result ≡ 0x005AFFFE000003E8 }
{
    let knot = Knot {
        angle: 90,
        offset: -2,
        time: 1_000,
    };
    knot.pack()
}

fn lowest_knot() -> u64
    ensures { result ≡ 0x0000800000000000 }
{
    let knot = Knot {
        angle: 0,
        offset: -32_768,
        time: 0,
    };
    knot.pack()
}

/// The words of tension 1.5, knot (90, −2, 1,000) and knot (0, −32,768, 0), and with them all worked examples.
pub fn packing_examples() -> [u64; 3]
    ensures words { result ≡ 0x020000003FC00000 ∷ 0x005AFFFE000003E8 ∷ 0x0000800000000000 ∷ [] }
    ensures worked { Worked }
{
    [tension(), knot(), lowest_knot()]
}
