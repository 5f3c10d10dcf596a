//! Each refusal at its edge, over both banks and both kinds.
use crate::desk::Desk;
use bank::{Bank, MOST_SEQUENCE, Record};
use kinds::{Kind, Knot, Setting};
use packed_bank::PackedBank;
use record_bank::RecordBank;
use std::process::Abort;
use store::{Answer, Refusal};
use table::{Entry, Table};

// Over four items and two processes: refusals 2 to 6 and 9, in their order, with the last item.
fn in_order<B: Bank + Drop>(rt: &impl Abort, desk: &mut Desk<'_, B>, word: u64) {
    assert_eq!(rt; desk.begin(1), Err(Refusal::NoProcess));
    assert_eq!(rt; desk.set_up(2, 3), Ok(()));
    for process in [0, 3, 17, usize::MAX] {
        assert_eq!(rt; desk.begin(process), Err(Refusal::NoProcess));
        assert_eq!(rt; desk.read(process, 99), Err(Refusal::NoProcess));
        assert_eq!(rt; desk.steps(process, 1), Err(Refusal::NoProcess));
    }
    assert_eq!(rt; desk.read(2, 99), Err(Refusal::NotOpen));
    assert_eq!(rt; desk.write(2, 0, word), Err(Refusal::NotOpen));
    assert_eq!(rt; desk.commit(2), Err(Refusal::NotOpen));
    assert_eq!(rt; desk.abort(2), Err(Refusal::NotOpen));
    assert_eq!(rt; desk.steps(2, 1), Err(Refusal::NotOpen));
    assert_eq!(rt; desk.begin(2), Ok(Answer::Done));
    assert_eq!(rt; desk.begin(2), Err(Refusal::AlreadyOpen));
    assert_eq!(rt; desk.steps(2, 1), Err(Refusal::NotUnderWay));
    assert_eq!(rt; desk.read(2, 4), Err(Refusal::NoItem));
    assert_eq!(rt; desk.write(2, 4, word), Err(Refusal::NoItem));
    assert_eq!(rt; desk.read(2, usize::MAX), Err(Refusal::NoItem));
    assert_eq!(rt; desk.read(2, 3), Ok(Answer::Going));
    assert_eq!(rt; desk.read(2, 99), Err(Refusal::UnderWay));
    assert_eq!(rt; desk.write(2, 0, word), Err(Refusal::UnderWay));
    assert_eq!(rt; desk.commit(2), Err(Refusal::UnderWay));
    assert_eq!(rt; desk.abort(2), Err(Refusal::UnderWay));
    assert_eq!(rt; desk.steps(2, 4), Ok(Answer::Value(0)));
    assert_eq!(rt; desk.write(2, 3, word), Ok(Answer::Done));
    assert_eq!(rt; desk.read(2, 3), Ok(Answer::Value(word)));
}

// Refusals 1 and 11 of set-up, and a life of one; the desk has four items and entries for two processes.
fn at_set_up<B: Bank + Drop>(rt: &impl Abort, desk: &mut Desk<'_, B>) {
    assert_eq!(rt; desk.set_up(0, 1), Err(Refusal::OutsideLimits));
    assert_eq!(rt; desk.set_up(17, 1), Err(Refusal::OutsideLimits));
    assert_eq!(rt; desk.set_up(1, 0), Err(Refusal::OutsideLimits));
    assert_eq!(rt;
        desk.set_up(1, MOST_SEQUENCE + 1),
        Err(Refusal::OutsideLimits)
    );
    assert_eq!(rt; desk.set_up(16, 1), Err(Refusal::ShortTable));
    assert_eq!(rt; desk.set_up(3, 1), Err(Refusal::ShortTable));
    assert_eq!(rt; desk.set_up(2, MOST_SEQUENCE), Ok(()));
    assert_eq!(rt; desk.set_up(1, 1), Ok(()));
    assert_eq!(rt; desk.begin(1), Ok(Answer::Done));
    assert_eq!(rt; desk.abort(1), Ok(Answer::Going));
    assert_eq!(rt; desk.steps(1, 1), Ok(Answer::Aborted(None)));
    assert_eq!(rt; desk.begin(1), Err(Refusal::LifeUsed));
}

// Refusal 7: process 1 has read the lock of item 0 while process 2 had it.
fn remembered<B: Bank + Drop>(rt: &impl Abort, desk: &mut Desk<'_, B>, word: u64) {
    assert_eq!(rt; desk.set_up(2, 9), Ok(()));
    assert_eq!(rt; desk.begin(2), Ok(Answer::Done));
    assert_eq!(rt; desk.write(2, 0, word), Ok(Answer::Done));
    assert_eq!(rt; desk.commit(2), Ok(Answer::Going));
    assert_eq!(rt; desk.steps(2, 4), Ok(Answer::Going));
    assert_eq!(rt; desk.begin(1), Ok(Answer::Done));
    assert_eq!(rt; desk.read(1, 0), Ok(Answer::Going));
    assert_eq!(rt; desk.steps(1, 3), Ok(Answer::Going));
    assert_eq!(rt; desk.steps(2, 2), Ok(Answer::Committed));
    assert_eq!(rt; desk.begin(2), Err(Refusal::Remembered));
    assert_eq!(rt; desk.steps(1, 1), Ok(Answer::Going));
    assert_eq!(rt; desk.begin(2), Err(Refusal::Remembered));
    assert_eq!(rt; desk.steps(1, 1), Ok(Answer::Value(word)));
    assert_eq!(rt; desk.begin(2), Ok(Answer::Done));
}

// Refusal 10 of both sets, over 64 items, and 9 at item 64.
fn sets_full<B: Bank + Drop>(rt: &impl Abort, desk: &mut Desk<'_, B>, word: u64) {
    assert_eq!(rt; desk.set_up(1, 9), Ok(()));
    assert_eq!(rt; desk.begin(1), Ok(Answer::Done));
    for item in 56..64usize {
        assert_eq!(rt; desk.write(1, item, word), Ok(Answer::Done));
    }
    assert_eq!(rt; desk.write(1, 0, word), Err(Refusal::SetFull));
    assert_eq!(rt; desk.write(1, 64, word), Err(Refusal::NoItem));
    assert_eq!(rt; desk.write(1, 63, 0), Ok(Answer::Done));
    for item in 0..8usize {
        assert_eq!(rt; desk.read(1, item), Ok(Answer::Going));
        assert_eq!(rt; desk.steps(1, 4), Ok(Answer::Value(0)));
    }
    assert_eq!(rt; desk.read(1, 8), Err(Refusal::SetFull));
    assert_eq!(rt; desk.read(1, 64), Err(Refusal::NoItem));
    assert_eq!(rt; desk.read(1, 7), Ok(Answer::Value(0)));
    assert_eq!(rt; desk.read(1, 62), Ok(Answer::Value(word)));
}

// All of them, over a bank of four items and a bank of 64, with entries for two processes and for one.
fn all<A: Bank + Drop, B: Bank<Value = A::Value> + Drop>(
    rt: &impl Abort,
    four: A,
    most: B,
    entries: &mut [Entry<A::Value>],
    word: u64,
) {
    {
        let mut desk = Desk::new(four, entries);
        in_order(rt, &mut desk, word);
        at_set_up(rt, &mut desk);
        remembered(rt, &mut desk, word);
    }
    let mut desk = Desk::new(most, entries);
    sets_full(rt, &mut desk, word);
}

// A bank of no item, and one of more than 64, are refused.
fn outside<B: Bank + Drop>(rt: &impl Abort, bank: B, entries: &mut [Entry<B::Value>]) {
    let mut desk = Desk::new(bank, entries);
    assert_eq!(rt; desk.set_up(1, 1), Err(Refusal::OutsideLimits));
    assert_eq!(rt; desk.begin(1), Err(Refusal::NoProcess));
}

// A table too short for the processes of set-up is refused before all else; the entries are 46, and 31 and 15 of them are lent.
fn short_table<B: Bank + Drop>(rt: &impl Abort, bank: B, entries: &mut [Entry<B::Value>]) {
    assert!(rt; entries.len() >= 31);
    let (most, last) = entries.split_at_mut(31);
    let (store, bank) = {
        let mut desk = Desk::new(bank, most);
        assert_eq!(rt; desk.set_up(2, 1), Err(Refusal::ShortTable));
        assert_eq!(rt; desk.set_up(1, 1), Ok(()));
        (desk.store, desk.bank)
    };
    let mut desk = Desk {
        store,
        bank,
        table: Table::new(last),
    };
    assert_eq!(rt; desk.begin(0), Err(Refusal::ShortTable));
    assert_eq!(rt; desk.begin(1), Err(Refusal::ShortTable));
    assert_eq!(rt; desk.steps(1, 1), Err(Refusal::ShortTable));
    assert_eq!(rt; desk.set_up(1, 1), Err(Refusal::ShortTable));
}

#[test]
fn refusals_over_records_of_settings(rt: HostRuntime) {
    let off = Record::new(Setting::Off);
    let mut entries = [Entry::<Setting>::blank(); 46];
    all(
        &rt,
        RecordBank::new(&mut [off; 4]),
        RecordBank::new(&mut [off; 64]),
        &mut entries,
        0x0300_0000_0000_0007,
    );
    outside(&rt, RecordBank::new(&mut [off; 65]), &mut entries);
    short_table(&rt, RecordBank::new(&mut [off; 1]), &mut entries);
}

#[test]
fn refusals_over_records_of_knots(rt: HostRuntime) {
    let zero = Record::new(Knot::blank());
    let mut entries = [Entry::<Knot>::blank(); 46];
    all(
        &rt,
        RecordBank::new(&mut [zero; 4]),
        RecordBank::new(&mut [zero; 64]),
        &mut entries,
        0x005A_FFFE_0000_03E8,
    );
    outside(&rt, RecordBank::new(&mut [zero; 0]), &mut entries);
    short_table(&rt, RecordBank::new(&mut [zero; 64]), &mut entries);
}

#[test]
fn refusals_over_packed_settings(rt: HostRuntime) {
    let mut entries = [Entry::<Setting>::blank(); 46];
    all(
        &rt,
        PackedBank::<Setting>::new(&mut [0; 12]),
        PackedBank::<Setting>::new(&mut [0; 192]),
        &mut entries,
        0x0200_0000_3FC0_0000,
    );
    outside(&rt, PackedBank::<Setting>::new(&mut [0; 195]), &mut entries);
    short_table(&rt, PackedBank::<Setting>::new(&mut [0; 3]), &mut entries);
}

#[test]
fn refusals_over_packed_knots(rt: HostRuntime) {
    let mut entries = [Entry::<Knot>::blank(); 46];
    all(
        &rt,
        PackedBank::<Knot>::new(&mut [0; 12]),
        PackedBank::<Knot>::new(&mut [0; 192]),
        &mut entries,
        0x0000_8000_0000_0000,
    );
    outside(&rt, PackedBank::<Knot>::new(&mut [0; 0]), &mut entries);
    short_table(&rt, PackedBank::<Knot>::new(&mut [0; 192]), &mut entries);
}
