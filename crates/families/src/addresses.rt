// A second matcher, by addresses: the places that lead down from the root to where a term begins. Each
// word of the pattern must stand in the situation at its own address, and the parts at the addresses of
// one name must be the same. Every address is sought from the root on. It takes an accepted pattern and
// a complete situation of its kind, in which at most eight words stand above one another.
ghost use Rattle.std.specs.Prelude.{◌-◌, length};
ghost use Rattle.std.specs.Iterator.{at_most};

// The way down to a term: its address, with 1 for the root and three bits for each place. Of each word above
// it `left` has the written places that are still to come, eight bits a word.
#[derive(Clone, Copy)]
struct Way {
    address: u64,
    left: u64,
}

impl Way {
    // The lowest place to come of the innermost word that has one; address 0 where none has.
    fn onward(self) -> Way {
        if self.left == 0 {
            return Way {
                address: 0,
                left: 0,
            };
        }
        let lowest = self.left.trailing_zeros() % 64;
        let up = lowest / 8;
        Way {
            address: (self.address >> (3 * up + 3) << 3) | u64::from(lowest % 8),
            left: (self.left & (self.left - 1)) >> (8 * up),
        }
    }

    // The first written place of the word that stands here.
    fn below(self, places: u8) -> Way {
        let inner = Way {
            address: self.address << 3,
            left: (self.left << 8) | u64::from(places),
        };
        inner.onward()
    }
}

// Where a term begins: its offset, its first byte and its address.
#[derive(Clone, Copy)]
struct Spot {
    at: usize,
    token: u8,
    address: u64,
}

// The spots of a term from its root on, one behind the other.
#[derive(Drop)]
struct Spots<'a> {
    term: &'a [u8],
    at: usize,
    way: Way,
}

impl<'a> Spots<'a> {
    fn of(term: &'a [u8]) -> Spots<'a> {
        let root = Way {
            address: 1,
            left: 0,
        };
        Spots {
            term,
            at: 1,
            way: root,
        }
    }
}

impl<'a> Iterator for Spots<'a> {
    type Item = Spot;

    ghost remaining = { λ s. at_most (length s.term.now - s.at) };

    fn next(&mut self) -> Option<Spot> {
        let token = *self.term.get(self.at)?;
        let spot = Spot {
            at: self.at,
            token,
            address: self.way.address,
        };
        if token < 128 {
            let places = self.term.get(self.at + 1).copied().unwrap_or(255);
            self.way = self.way.below(places);
            self.at += 2;
        } else {
            self.way = self.way.onward();
            self.at += 1;
        }
        Some(spot)
    }
}

// The first spot of a name in a pattern.
fn first(p: &[u8], name: u8) -> Option<Spot> {
    Spots::of(p).find(|spot| spot.token == name)
}

// The offset and the bytes of a situation's part at an address: it ends at the next spot that is not below it.
fn part(s: &[u8], address: u64) -> Option<(usize, &[u8])> {
    let mut spots = Spots::of(s);
    let from = spots.find(|spot| spot.address == address)?.at;
    let behind = spots.find(|spot| spot.address / 8 < address);
    let to = behind.map_or(s.len(), |spot| spot.at);
    Some((from, s.get(from..to)?))
}

// Whether the word at a spot of the pattern stands in the situation at its address, or the name there has the
// part of its first occurrence.
fn agrees(p: &[u8], s: &[u8], spot: Spot) -> bool {
    let Some((_, here)) = part(s, spot.address) else {
        return false;
    };
    if spot.token < 128 {
        return here.first() == Some(&spot.token);
    }
    let original = first(p, spot.token).and_then(|spot| part(s, spot.address));
    original.is_some_and(|(_, bytes)| bytes == here)
}

// Whether the situation fits the pattern.
pub(crate) fn fits(p: &[u8], s: &[u8]) -> bool {
    Spots::of(p).all(|spot| agrees(p, s, spot))
}

// The offset and the length that a yes puts into match's table for a name: both 0 for one that does not stand in
// the pattern.
pub(crate) fn span(p: &[u8], s: &[u8], name: u8) -> (usize, usize) {
    let part = first(p, name).and_then(|spot| part(s, spot.address));
    part.map_or((0, 0), |(at, bytes)| (at, bytes.len()))
}
