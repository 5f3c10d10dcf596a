//! The three places where a port of the algorithm slips, over both banks and both kinds.
use crate::desk::Desk;
use bank::{Bank, Record};
use kinds::{Kind, Knot, Setting};
use packed_bank::PackedBank;
use record_bank::RecordBank;
use std::process::Abort;
use store::Answer;
use table::Entry;

// An item in both sets is unlocked with the write set's number: process 2, which read item 0 before process 1 read and
// wrote it, is aborted by it.
fn unlocks_with_the_writes_number<B: Bank + Drop>(
    rt: &impl Abort,
    desk: &mut Desk<'_, B>,
    word: u64,
) {
    assert_eq!(rt; desk.set_up(2, 9), Ok(()));
    let _ = desk.begin(2);
    let _ = desk.read(2, 0);
    assert_eq!(rt; desk.steps(2, 4), Ok(Answer::Value(0)));
    assert_eq!(rt; desk.write(2, 1, word), Ok(Answer::Done));
    let _ = desk.begin(1);
    let _ = desk.read(1, 0);
    assert_eq!(rt; desk.steps(1, 4), Ok(Answer::Value(0)));
    assert_eq!(rt; desk.write(1, 0, word), Ok(Answer::Done));
    assert_eq!(rt; desk.commit(2), Ok(Answer::Going));
    assert_eq!(rt; desk.steps(2, 2), Ok(Answer::Going));
    assert_eq!(rt; desk.commit(1), Ok(Answer::Going));
    assert_eq!(rt; desk.steps(1, 8), Ok(Answer::Committed));
    assert_eq!(rt; desk.steps(2, 5), Ok(Answer::Aborted(Some(0))));
}

// A reader is counted in before it reads the lock: a writer that locks in between waits at its commit.
fn counts_in_before_the_lock<B: Bank + Drop>(rt: &impl Abort, desk: &mut Desk<'_, B>, word: u64) {
    assert_eq!(rt; desk.set_up(2, 9), Ok(()));
    let _ = desk.begin(1);
    let _ = desk.read(1, 0);
    assert_eq!(rt; desk.steps(1, 2), Ok(Answer::Going));
    let _ = desk.begin(2);
    assert_eq!(rt; desk.write(2, 0, word), Ok(Answer::Done));
    assert_eq!(rt; desk.commit(2), Ok(Answer::Going));
    assert_eq!(rt; desk.steps(2, 3), Ok(Answer::Going));
    assert_eq!(rt; desk.steps(2, 1), Ok(Answer::Waiting));
    assert_eq!(rt; desk.steps(1, 3), Ok(Answer::Value(0)));
    assert_eq!(rt; desk.steps(2, 1), Ok(Answer::Waiting));
    assert_eq!(rt; desk.commit(1), Ok(Answer::Going));
    assert_eq!(rt; desk.steps(1, 3), Ok(Answer::Committed));
    assert_eq!(rt; desk.steps(2, 1), Ok(Answer::Going));
    assert_eq!(rt; desk.steps(2, 2), Ok(Answer::Committed));
}

// Reads are counted out before items are locked: two writers that read what the other writes don't wait for each other.
fn counts_out_before_locking<B: Bank + Drop>(rt: &impl Abort, desk: &mut Desk<'_, B>, word: u64) {
    assert_eq!(rt; desk.set_up(2, 9), Ok(()));
    let _ = desk.begin(1);
    let _ = desk.read(1, 0);
    let _ = desk.steps(1, 4);
    assert_eq!(rt; desk.write(1, 1, word), Ok(Answer::Done));
    let _ = desk.begin(2);
    let _ = desk.read(2, 1);
    let _ = desk.steps(2, 4);
    assert_eq!(rt; desk.write(2, 0, word), Ok(Answer::Done));
    assert_eq!(rt; desk.commit(1), Ok(Answer::Going));
    assert_eq!(rt; desk.commit(2), Ok(Answer::Going));
    assert_eq!(rt; desk.steps(1, 2), Ok(Answer::Going));
    assert_eq!(rt; desk.steps(2, 2), Ok(Answer::Going));
    assert_eq!(rt; desk.steps(1, 3), Ok(Answer::Going));
    assert_eq!(rt; desk.steps(2, 4), Ok(Answer::Waiting));
    assert_eq!(rt; desk.steps(1, 3), Ok(Answer::Going));
    assert_eq!(rt; desk.steps(1, 4), Ok(Answer::Committed));
    assert_eq!(rt; desk.steps(2, 9), Ok(Answer::Aborted(Some(1))));
}

// Each of the three in a history of its own, over two items that are blank.
fn all<B: Bank + Drop>(rt: &impl Abort, bank: B, entries: &mut [Entry<B::Value>], word: u64) {
    let mut desk = Desk::new(bank, entries);
    counts_out_before_locking(rt, &mut desk, word);
    let mut desk = blank(desk);
    unlocks_with_the_writes_number(rt, &mut desk, word);
    let mut desk = blank(desk);
    counts_in_before_the_lock(rt, &mut desk, word);
}

// The same desk with items that are blank again.
fn blank<B: Bank + Drop>(desk: Desk<'_, B>) -> Desk<'_, B> {
    let Desk {
        store,
        mut bank,
        table,
    } = desk;
    for item in 0..bank.items() {
        bank.write_value(item, <B::Value>::blank());
    }
    Desk { store, bank, table }
}

#[test]
fn slips_over_records(rt: HostRuntime) {
    all(
        &rt,
        RecordBank::new(&mut [Record::new(Setting::Off); 2]),
        &mut [Entry::blank(); 32],
        0x0300_0000_0000_0007,
    );
    all(
        &rt,
        RecordBank::new(&mut [Record::new(Knot::blank()); 2]),
        &mut [Entry::blank(); 32],
        0x005A_FFFE_0000_03E8,
    );
}

#[test]
fn slips_over_packed_words(rt: HostRuntime) {
    all(
        &rt,
        PackedBank::<Setting>::new(&mut [0; 6]),
        &mut [Entry::blank(); 32],
        0x0200_0000_3FC0_0000,
    );
    all(
        &rt,
        PackedBank::<Knot>::new(&mut [0; 6]),
        &mut [Entry::blank(); 32],
        0x0000_8000_0000_0000,
    );
}
