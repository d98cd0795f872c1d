// Pairs compare by version, then by moves.
use crate::model::order::is_below;
use fragment::pair::Pair;

const VERSIONS: [u32; 6] = [0, 1, 65535, 65536, 4294967294, 4294967295];

const MOVES: [u16; 4] = [0, 1, 65534, 65535];

// A pair in the model's terms, which are numbers alone.
fn plain(pair: Pair) -> (u64, u64) {
    (u64::from(pair.version), u64::from(pair.moves))
}

// The first pair of the edges that the test finds.
fn find_pair<F: Fn(Pair) -> bool>(test: F) -> Option<Pair>
    requires { F.IsAlwaysCallable test }
{
    VERSIONS.into_iter().find_map(|version| {
        let mut pairs = MOVES.into_iter().map(|moves| Pair { version, moves });
        pairs.find(|pair| test(*pair))
    })
}

// The first pair that compares with this one otherwise than the rules have it.
fn disputed_beside(left: Pair) -> Option<Pair> {
    find_pair(|right| left.beats(&right) != is_below(plain(right), plain(left)))
}

// The first two pairs that compare otherwise than the rules have it.
fn disputed_pairs() -> Option<(Pair, Pair)> {
    let left = find_pair(|left| disputed_beside(left).is_some())?;
    Some((left, disputed_beside(left)?))
}

#[test]
fn pairs_compared(rt: HostRuntime) {
    assert_eq!(rt; disputed_pairs(), None, "version and moves of two pairs");
}
