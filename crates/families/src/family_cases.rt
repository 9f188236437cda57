// The families over which the two matchers are compared. Names 0 and 63 stand in each.
use crate::family::{Family, Terms};
use std::io;

pub(crate) fn all(rt: &impl Print) -> io::Result<()> {
    pairs().run(rt)?;
    gaps("gaps, kind 0", 0).run(rt)?;
    gaps("gaps, kind 1", 1).run(rt)?;
    three_places().run(rt)?;
    bench("A, kind 0", 0).run(rt)?;
    bench("A, kind 1", 1).run(rt)?;
    bench("A, kind 2", 2).run(rt)
}

// C: a, b and pair.
fn pairs() -> Family<'static> {
    Family {
        label: "C",
        vocabulary: b"\x01\x03\x00\x00\x00\x00\x00\x03\x00\x00",
        patterns: Terms {
            kind: 0,
            alphabet: b"\xff\x00\x80\x00\xbf\x00\x00\x00\x01\x00\x02\x00\x02\x01\x02\x02\x02\x03",
            most: 4,
        },
        situations: Terms {
            kind: 0,
            alphabet: b"\x00\x00\x01\x00\x02\x03",
            most: 5,
        },
    }
}

// a 0, c 1 and left 4 of kind 0, with place 0 of kind 0 and place 7 of kind 1; b 2, d 3 and right 5 of kind 1,
// with place 1 of kind 1 and place 4 of kind 0.
fn gaps(label: &'static str, kind: u8) -> Family<'static> {
    Family {
        label,
        vocabulary: b"\x02\x06\x00\x00\x00\x00\x01\x00\x01\x00\x00\x81\x00\x01\x01\x12\x01\x00",
        patterns: Terms {
            kind,
            alphabet: b"\xff\x00\x80\x00\xbf\x00\x00\x00\x01\x00\x02\x00\x03\x00\x04\x00\x04\x01\x04\x80\x04\x81\x05\x00\x05\x02\x05\x10\x05\x12",
            most: 4,
        },
        situations: Terms {
            kind,
            alphabet: b"\x00\x00\x01\x00\x02\x00\x03\x00\x04\x81\x05\x12",
            most: 5,
        },
    }
}

// a 0, b 1, and word 2 with places 0, 3 and 6, all of one kind.
fn three_places() -> Family<'static> {
    Family {
        label: "three places",
        vocabulary: b"\x01\x03\x00\x00\x00\x00\x00\x49\x00\x00\x00",
        patterns: Terms {
            kind: 0,
            alphabet: b"\xff\x00\x80\x00\xbf\x00\x00\x00\x01\x00\x02\x00\x02\x01\x02\x08\x02\x09\x02\x40\x02\x41\x02\x48\x02\x49",
            most: 4,
        },
        situations: Terms {
            kind: 0,
            alphabet: b"\x00\x00\x01\x00\x02\x49",
            most: 4,
        },
    }
}

fn bench(label: &'static str, kind: u8) -> Family<'static> {
    Family {
        label,
        vocabulary: b"\x03\x06\x00\x03\x01\x02\x01\x00\x01\x00\x02\x00\x02\x00\x00\x00",
        patterns: Terms {
            kind,
            alphabet: b"\xff\x00\x80\x00\xbf\x00\x00\x00\x00\x01\x00\x02\x00\x03\x01\x00\x02\x00\x03\x00\x04\x00\x05\x00",
            most: 3,
        },
        situations: Terms {
            kind,
            alphabet: b"\x00\x03\x01\x00\x02\x00\x03\x00\x04\x00\x05\x00",
            most: 3,
        },
    }
}
