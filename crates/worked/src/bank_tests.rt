//! The same questions put to record and packed banks of both kinds.
use bank::{Bank, Lock, MOST_SEQUENCE, Record};
use kinds::{Kind, Knot, Setting};
use packed_bank::PackedBank;
use record_bank::RecordBank;
use std::process::Abort;
use upkeep::{clear, copy_values};

fn lock(owner: u8, sequence: u64) -> Lock {
    Lock { owner, sequence }
}

fn has_lock<B: Bank>(rt: &impl Abort, bank: &B, item: usize, owner: u8, sequence: u64) {
    assert_eq!(rt; bank.read_lock(item), lock(owner, sequence));
}

// Locks, over a bank of two items that are free.
fn locks<B: Bank>(rt: &impl Abort, bank: &mut B) {
    assert!(rt; bank.write_lock(1, lock(16, MOST_SEQUENCE)));
    has_lock(rt, bank, 1, 16, MOST_SEQUENCE);
    has_lock(rt, bank, 0, 0, 0);
    assert!(rt; !bank.write_lock(1, lock(17, 0)));
    assert!(rt; !bank.write_lock(1, lock(0, MOST_SEQUENCE + 1)));
    assert!(rt; !bank.write_lock(2, lock(1, 1)));
    has_lock(rt, bank, 1, 16, MOST_SEQUENCE);
    assert!(rt; !bank.swap_lock(1, lock(15, MOST_SEQUENCE), lock(1, 1)));
    assert!(rt; !bank.swap_lock(1, lock(16, 0), lock(1, 1)));
    assert!(rt; !bank.swap_lock(1, lock(16, MOST_SEQUENCE), lock(17, 1)));
    assert!(rt; bank.swap_lock(1, lock(16, MOST_SEQUENCE), lock(3, 9)));
    has_lock(rt, bank, 1, 3, 9);
    has_lock(rt, bank, 2, 0, 0);
}

// Counts, over a bank of two items whose counts are 0.
fn counts<B: Bank>(rt: &impl Abort, bank: &mut B) {
    assert!(rt; bank.all_zero(&[0, 1, 2, 99]));
    assert!(rt; !bank.swap_count(0, 1, 2));
    assert!(rt; !bank.swap_count(0, 0, 17));
    assert!(rt; !bank.swap_count(2, 0, 1));
    assert!(rt; bank.swap_count(0, 0, 16));
    assert_eq!(rt; bank.read_count(0), 16);
    assert_eq!(rt; bank.read_count(1), 0);
    assert_eq!(rt; bank.read_count(2), 0);
    assert!(rt; !bank.all_zero(&[1, 0]));
    assert!(rt; !bank.all_zero(&[1, 1, 1, 1, 1, 1, 1, 0]));
    assert!(rt; bank.all_zero(&[1, 1, 1, 1, 1, 1, 1, 1, 0]));
    assert!(rt; bank.all_zero(&[]));
    assert!(rt; bank.swap_count(0, 16, 0));
}

// Values, over a bank of two items.
fn values<B: Bank>(rt: &impl Abort, bank: &mut B, word: u64) {
    assert_eq!(rt; bank.items(), 2);
    assert!(rt; bank.write_value(1, <B::Value>::unpack(word)));
    assert!(rt; !bank.write_value(2, <B::Value>::unpack(word)));
    assert_eq!(rt; bank.read_value(1).pack(), word);
    assert_eq!(rt; bank.read_value(0).pack(), 0);
    assert_eq!(rt; bank.read_value(2).pack(), 0);
}

fn all<B: Bank>(rt: &impl Abort, bank: &mut B, word: u64) {
    locks(rt, bank);
    counts(rt, bank);
    values(rt, bank, word);
    clear(bank);
    has_lock(rt, bank, 1, 0, 0);
    assert_eq!(rt; bank.read_value(1).pack(), word);
}

#[test]
fn records_of_settings(rt: HostRuntime) {
    let mut records = [Record::new(Setting::Off); 2];
    all(
        &rt,
        &mut RecordBank::new(&mut records),
        0x0300_0000_0000_0007,
    );
}

#[test]
fn records_of_knots(rt: HostRuntime) {
    let mut records = [Record::new(Knot::blank()); 2];
    all(
        &rt,
        &mut RecordBank::new(&mut records),
        0x005A_FFFE_0000_03E8,
    );
}

#[test]
fn packed_settings(rt: HostRuntime) {
    let mut words = [0; 6];
    all(
        &rt,
        &mut PackedBank::<Setting>::new(&mut words),
        0x0200_0000_3FC0_0000,
    );
}

#[test]
fn packed_knots(rt: HostRuntime) {
    let mut words = [0; 6];
    all(
        &rt,
        &mut PackedBank::<Knot>::new(&mut words),
        0x0000_8000_0000_0000,
    );
}

#[test]
fn packed_words(rt: HostRuntime) {
    let mut words = [u64::MAX; 6];
    {
        let mut bank = PackedBank::<Knot>::new(&mut words);
        assert_eq!(rt; bank.read_count(1), 255);
        has_lock(&rt, &bank, 1, 255, MOST_SEQUENCE);
        assert!(rt; bank.swap_count(1, 255, 2));
        assert!(rt; bank.write_lock(0, lock(5, 6)));
    }
    assert_eq!(rt; words[0], 0x0500_0000_0000_0006);
    assert_eq!(rt; words[1], u64::MAX);
    assert_eq!(rt; words[3], u64::MAX);
    assert_eq!(rt; words[4], 0x0200_0000_0000_0000);
    assert_eq!(rt; words[5], u64::MAX);
}

fn items_over(words: &mut [u64]) -> usize {
    PackedBank::<Knot>::new(words).items()
}

#[test]
fn packed_sizes(rt: HostRuntime) {
    assert_eq!(rt; items_over(&mut [0; 192]), 64);
    assert_eq!(rt; items_over(&mut [0; 195]), 0);
    assert_eq!(rt; items_over(&mut [0; 191]), 0);
    assert_eq!(rt; items_over(&mut [0; 3]), 1);
    assert_eq!(rt; items_over(&mut [0; 0]), 0);
}

#[test]
fn records_to_words(rt: HostRuntime) {
    let mut records = [
        Record::new(Setting::Count(1)),
        Record::new(Setting::Count(2)),
        Record::new(Setting::Count(3)),
    ];
    let mut words = [0x0100_0000_0000_0001; 6];
    {
        let from = RecordBank::new(&mut records);
        let mut to = PackedBank::<Setting>::new(&mut words);
        copy_values(&from, &mut to);
        has_lock(&rt, &to, 1, 1, 1);
    }
    assert_eq!(rt; words[2], 0x0300_0000_0000_0001);
    assert_eq!(rt; words[5], 0x0300_0000_0000_0002);
}
