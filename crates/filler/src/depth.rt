// How deep the result of fill can be.
ghost use Rattle.filler.specs.Ready.{MostLevels};

// No value has more levels than this, which is at least 1.
pub(crate) fn most_levels(depths: &[u8; 64]) -> usize
    ensures { MostLevels depths.now result }
{
    let mut most: u8 = 1;
    for levels in depths {
        most = most.max(*levels);
    }
    usize::from(most)
}
