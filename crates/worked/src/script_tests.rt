//! A script played on the drive of the programs.
use bench::play_settings;

#[test]
fn plays_a_script(rt: HostRuntime) {
    let script = "b 1\nw 1 0 7\nr 1 0\nr 1 4\nx\n";
    let out = play_settings(rt.alloc(), script.as_bytes()).expect(&rt, "memory");
    assert_eq!(rt;
        out.as_str(),
        "1 ok\n2 ok\n3 value 7\n4 refused 9\n5 refused 12\n"
    );
}
