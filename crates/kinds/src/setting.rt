//! A setting of the drive.
ghost use Rattle.std.specs.Prelude.{◌≡◌};
ghost use Rattle.kinds.specs.Settings.{IsHeldSetting, setting_word, setting_of};
ghost use Rattle.kinds.specs.declared.setting.Setting.TheVariants.{Off};
ghost use Rattle.kinds.specs.SettingsLemmas.{setting_back};

use crate::kind::Kind;
use std::num::{f32_from_bits_with_nan, f32_to_bits_with_nan};

// No comparison: a derived one would tell a float that is not a number from itself.
/// Off, a speed, a tension or a count. A float that is not a number is one value, whatever its bits were.
#[derive(Clone, Copy, Debug, Default)]
pub enum Setting {
    #[default]
    Off,
    Speed(f32),
    Tension(f32),
    Count(u32),
}

impl Kind for Setting {
    ghost held = { IsHeldSetting };

    ghost packing = { setting_word };

    ghost unpacking = { setting_of };

    ghost blank = { Off };

    ghost back = { setting_back };

    // the cases by number, since the format of a word has them so
    fn pack(self) -> u64 {
        match self {
            Setting::Off => 0,
            Setting::Speed(x) => (1 << 56) + f32_to_bits_with_nan(x) as u64,
            Setting::Tension(x) => (2 << 56) + f32_to_bits_with_nan(x) as u64,
            Setting::Count(n) => (3 << 56) + n as u64,
        }
    }

    // the cases by number, as in `pack`
    fn unpack(word: u64) -> Setting {
        let low = (word % (1 << 32)) as u32;
        match (word >> 56) as u8 {
            1 => Setting::Speed(f32_from_bits_with_nan(low)),
            2 => Setting::Tension(f32_from_bits_with_nan(low)),
            3 => Setting::Count(low),
            _ => Setting::Off,
        }
    }

    fn blank() -> Setting {
        Setting::default()
    }
}
