// Every server holds the one part of a stripe that the rules put there.
use crate::model::place::{only_part_on, server_of};
use crate::terms::stripe_of;
use geometry::part::Part;
use geometry::placement::PlacedStripe;

const STRIPES: [u64; 24] = [
    0, 1, 2, 3, 4, 5, 6, 7, 8, 255, 256, 65535, 65536, 0x12345678, 2147483647, 2147483648,
    4294967288, 4294967289, 4294967290, 4294967291, 4294967292, 4294967293, 4294967294, 4294967295,
];

// A part in the model's terms, which are numbers alone.
fn plain(part: Part) -> u16 {
    match part {
        Part::Parity => 0,
        Part::Data(index) => u16::from(index) + 1,
    }
}

// Whether each server has the part that it should, one that the row lacks none, and each part is
// looked for where it lies.
fn parts_agree(placed: PlacedStripe) -> bool {
    let PlacedStripe { row, key } = placed;
    let (servers, client, stripe) = (row.servers(), key.client(), key.stripe());
    placed.parity_server() == server_of(servers, client, stripe, 0)
        && (0..=255).all(|number| {
            let part = only_part_on(servers, client, stripe, number);
            part.is_some() == (number < servers)
                && placed.part_on(number).map(plain) == part
                && placed.data_server(number)
                    == server_of(servers, client, stripe, u16::from(number) + 1)
        })
}

// The first row, client and stripe with a part elsewhere than the rules have it.
// Loops, since three iterators within one another are no plainer.
fn misplaced() -> Option<(u64, u64, u64)> {
    for stripe in STRIPES {
        for client in 0..8 {
            for servers in 3..=8 {
                if !stripe_of(servers, client, stripe).is_some_and(parts_agree) {
                    return Some((servers, client, stripe));
                }
            }
        }
    }
    None
}

#[test]
fn parts_placed(rt: HostRuntime) {
    assert_eq!(rt; misplaced(), None, "row, client and stripe");
}
