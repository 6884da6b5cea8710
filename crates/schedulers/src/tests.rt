// Published vectors of the hash, and examples of the three schedulers.
mod vectors;

use crate::first_last::{Earliest, Latest};
use crate::hash::hash;
use crate::sampled::{Sampled, next};
use crate::scheduler::Scheduler;
use crate::tests::vectors::VECTORS;
use runs::{Offer, State};

#[test]
fn the_published_vectors_match(rt: HostRuntime) {
    for (bytes, h) in &VECTORS {
        assert_eq!(rt; hash(bytes), *h);
    }
}

#[test]
fn identifiers_hash_with_stage_and_region(rt: HostRuntime) {
    let at = State::opening(2);
    // Each hash, and the number after it, was worked out by the rules, apart from this code.
    let cases = [
        (0, 204258327, 199535242),
        (1, 2006175416, 1665516215),
        (3, 2855398242, 3243438937),
    ];
    for (identifier, h, after) in cases {
        assert_eq!(rt; Sampled { identifier }.hash_of(&at), h);
        assert_eq!(rt; next(h), after);
    }
}

#[test]
fn ties_go_to_the_first_offer(rt: HostRuntime) {
    let at = State::opening(1);
    let offers = [
        Offer {
            change: 0,
            lowest: 4,
            highest: 6,
        },
        Offer {
            change: 1,
            lowest: 2,
            highest: 9,
        },
        Offer {
            change: 2,
            lowest: 2,
            highest: 9,
        },
    ];
    assert_eq!(rt; Earliest.choose(&at, &offers), (1, 2));
    assert_eq!(rt; Latest.choose(&at, &offers), (1, 9));
    assert_eq!(rt; Earliest.choose(&at, &[]), (0, 0));
}
