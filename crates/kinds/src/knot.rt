//! A knot of the traverse curve.
ghost use Rattle.std.specs.Prelude.{◌≡◌};
ghost use Rattle.kinds.specs.Knots.{IsHeldKnot, knot_word, knot_of, zero_knot};
ghost use Rattle.std.proofs.Common.{rules};

use crate::kind::Kind;

/// The guide stands at `offset` when the spindle has turned by `angle`, at `time`.
#[derive(Clone, Copy, Debug, Default, PartialEq, Eq)]
pub struct Knot {
    pub angle: u16,
    pub offset: i16,
    pub time: u32,
}

impl Kind for Knot {
    ghost held = { IsHeldKnot };

    ghost packing = { knot_word };

    ghost unpacking = { knot_of };

    ghost blank = { zero_knot };

    ghost back = { Prim.search rules };

    fn pack(self) -> u64 {
        let offset = self.offset.cast_unsigned();
        ((self.angle as u64) << 48) + ((offset as u64) << 32) + self.time as u64
    }

    fn unpack(word: u64) -> Knot {
        Knot {
            angle: (word >> 48) as u16,
            offset: (((word >> 32) % (1 << 16)) as u16).cast_signed(),
            time: (word % (1 << 32)) as u32,
        }
    }

    fn blank() -> Knot {
        Knot::default()
    }
}
