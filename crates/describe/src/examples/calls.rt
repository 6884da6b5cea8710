// Lines that are calls, and lines that are not.
use crate::calls::call;
use run::call::Call;
use schedulers::chooser::Chooser;

#[test]
fn a_call_is_read_from_its_words(rt: HostRuntime) {
    assert_eq!(rt;
        call("take 65535 4294967295"),
        Some(Call::Take {
            change: 65535,
            wait: 4294967295
        })
    );
    assert_eq!(rt; call("step earliest"), Some(Call::Step(Chooser::Earliest)));
    assert_eq!(rt; call(" step  latest "), Some(Call::Step(Chooser::Latest)));
    assert_eq!(rt;
        call("step sampled 7"),
        Some(Call::Step(Chooser::Sampled(7)))
    );
    assert_eq!(rt; call("offers"), Some(Call::Offers));
    assert_eq!(rt; call("standing"), Some(Call::Standing));
}

#[test]
fn other_lines_are_no_calls(rt: HostRuntime) {
    let lines = [
        "",
        " ",
        "take",
        "take 0",
        "take 0 4 1",
        "take 65536 4",
        "take 0 4294967296",
        "take -1 4",
        "take +1 4",
        "take\t0 4",
        "step",
        "step sampled",
        "step sampled 4294967296",
        "step earliest 1",
        "Offers",
        "offers standing",
        "offers 1 2 3",
    ];
    for line in lines {
        assert_eq!(rt; call(line), None);
    }
}
