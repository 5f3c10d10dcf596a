//! A list of calls performed.
use bank::Record;
use history::perform;
use kinds::Setting;
use record_bank::RecordBank;
use store::{Answer, Call, Refusal, Store};
use table::{Entry, Table};

#[test]
fn performs_a_list_of_calls(rt: HostRuntime) {
    let (mut records, mut entries) = ([Record::new(Setting::Off); 2], [Entry::blank(); 32]);
    let mut bank = RecordBank::new(&mut records);
    let mut table = Table::new(&mut entries);
    let mut store = Store::new();
    let write = Call::Write {
        process: 1,
        item: 0,
        value: Setting::Count(7),
    };
    let step = Call::Step { process: 1 };
    let calls = [
        Call::Begin { process: 1 },
        write,
        Call::TryCommit { process: 1 },
        step,
        step,
        step,
        step,
        step,
        step,
    ];
    let done = perform(rt.alloc(), &mut store, &mut bank, &mut table, 2, 9, &calls);
    let done = done.expect(&rt, "memory");
    let last = match &done {
        Ok(answers) => answers.as_slice().last().copied(),
        Err(_) => None,
    };
    assert!(rt; matches!(last, Some(Ok(Answer::Committed))));
    let refused = perform(rt.alloc(), &mut store, &mut bank, &mut table, 17, 9, &calls);
    let refused = refused.expect(&rt, "memory");
    assert!(rt; matches!(refused, Err(Refusal::OutsideLimits)));
}
