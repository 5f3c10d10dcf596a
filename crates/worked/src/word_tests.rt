//! Words against values, as vectors.
use kinds::{Kind, Knot, Setting};
use std::num::f32_from_bits_with_nan;

// A setting and its word.
fn settings() -> [(Setting, u64); 16] {
    [
        (Setting::Off, 0),
        (Setting::Speed(0.0), 0x0100_0000_0000_0000),
        (Setting::Speed(-0.0), 0x0100_0000_8000_0000),
        (Setting::Speed(1.0), 0x0100_0000_3F80_0000),
        (Setting::Speed(-320.0), 0x0100_0000_C3A0_0000),
        (Setting::Speed(1.0 / 0.0), 0x0100_0000_7F80_0000),
        (Setting::Speed(-1.0 / 0.0), 0x0100_0000_FF80_0000),
        (Setting::Speed(0.0 / 0.0), 0x0100_0000_7FC0_0000),
        // the smallest and the largest subnormal, the smallest normal and the largest float
        (
            Setting::Tension(f32_from_bits_with_nan(1)),
            0x0200_0000_0000_0001,
        ),
        (
            Setting::Tension(f32_from_bits_with_nan(0x007F_FFFF)),
            0x0200_0000_007F_FFFF,
        ),
        (
            Setting::Tension(f32_from_bits_with_nan(0x0080_0000)),
            0x0200_0000_0080_0000,
        ),
        (
            Setting::Tension(f32_from_bits_with_nan(0x7F7F_FFFF)),
            0x0200_0000_7F7F_FFFF,
        ),
        (Setting::Tension(1.5), 0x0200_0000_3FC0_0000),
        (Setting::Count(0), 0x0300_0000_0000_0000),
        (Setting::Count(7), 0x0300_0000_0000_0007),
        (Setting::Count(4_294_967_295), 0x0300_0000_FFFF_FFFF),
    ]
}

// Any word, and the word of the setting that it unpacks to.
fn setting_words() -> [(u64, u64); 16] {
    [
        // each NaN pattern is the one NaN: quiet and signalling, either sign, any payload
        (0x0100_0000_7F80_0001, 0x0100_0000_7FC0_0000),
        (0x0100_0000_FF80_0001, 0x0100_0000_7FC0_0000),
        (0x0200_0000_7FFF_FFFF, 0x0200_0000_7FC0_0000),
        (0x0200_0000_FFFF_FFFF, 0x0200_0000_7FC0_0000),
        (0x0200_0000_FFC0_0000, 0x0200_0000_7FC0_0000),
        // rubbish in the ignored bits
        (0x00FF_FFFF_FFFF_FFFF, 0),
        (0x01AB_CDEF_3F80_0000, 0x0100_0000_3F80_0000),
        (0x02FF_FFFF_3FC0_0000, 0x0200_0000_3FC0_0000),
        (0x0300_0001_0000_0007, 0x0300_0000_0000_0007),
        (0x0380_0000_FFFF_FFFF, 0x0300_0000_FFFF_FFFF),
        // off keeps no low bits
        (0x0000_0000_0000_0001, 0),
        // a case above 3 is off
        (0x0400_0000_0000_0000, 0),
        (0x0500_0000_3F80_0000, 0),
        (0x8100_0000_3F80_0000, 0),
        (0xFF00_0000_0000_0007, 0),
        (0xFFFF_FFFF_FFFF_FFFF, 0),
    ]
}

// A knot and its word.
fn knots() -> [(Knot, u64); 8] {
    [
        (knot(0, 0, 0), 0),
        (knot(90, -2, 1_000), 0x005A_FFFE_0000_03E8),
        (knot(0, -32_768, 0), 0x0000_8000_0000_0000),
        (knot(0, 32_767, 0), 0x0000_7FFF_0000_0000),
        (knot(0, -1, 0), 0x0000_FFFF_0000_0000),
        (knot(65_535, 0, 0), 0xFFFF_0000_0000_0000),
        (knot(0, 0, 4_294_967_295), 0x0000_0000_FFFF_FFFF),
        (knot(65_535, -1, 4_294_967_295), 0xFFFF_FFFF_FFFF_FFFF),
    ]
}

fn knot(angle: u16, offset: i16, time: u32) -> Knot {
    Knot {
        angle,
        offset,
        time,
    }
}

#[test]
fn settings_pack(rt: HostRuntime) {
    for (setting, word) in settings() {
        assert_eq!(rt; setting.pack(), word);
        assert_eq!(rt; Setting::unpack(word).pack(), word);
    }
}

#[test]
fn any_word_is_a_setting(rt: HostRuntime) {
    for (word, canonical) in setting_words() {
        assert_eq!(rt; Setting::unpack(word).pack(), canonical);
    }
}

#[test]
fn knots_pack(rt: HostRuntime) {
    for (knot, word) in knots() {
        assert_eq!(rt; knot.pack(), word);
        assert_eq!(rt; Knot::unpack(word), knot);
    }
}

#[test]
fn blanks(rt: HostRuntime) {
    assert_eq!(rt; Setting::blank().pack(), 0);
    assert_eq!(rt; Knot::blank().pack(), 0);
}
