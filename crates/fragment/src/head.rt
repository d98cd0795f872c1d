// The head of a data fragment: layout, row length, client and index, a byte each, then the stripe
// number in four bytes, low byte first, and 24 zeros.
ghost use Rattle.std.specs.Prelude.{◌≡◌, length};
ghost use Rattle.geometry.specs.Keys.{number_of};
ghost use Rattle.geometry.specs.Sizes.{head_length};
ghost use Rattle.fragment.specs.Heads.{head_bytes, names_stripe, head_fits, read_head};

use crate::cause::Cause;
use crate::layout::Layout;
use crate::name::FragmentName;
use geometry::bytes::all_zero;
use geometry::key::Key;
use geometry::placement::PlacedStripe;

// Whether the rest of a head, after its first four bytes, names the key's stripe and is zero after
// that.
fn names_stripe(rest: &[u8], key: Key) -> bool
    requires { length rest.now ≡ 28 }
    ensures { result ≡ names_stripe (number_of key) rest.now }
{
    let (_, zeros) = rest.split_at(4);
    u32::from_le_bytes([rest[0], rest[1], rest[2], rest[3]]) == key.stripe() && all_zero(zeros)
}

// Whether a head with this client, index and rest is that of the named fragment.
fn fits(client: u8, at: u8, rest: &[u8], name: FragmentName) -> bool
    requires { length rest.now ≡ 28 }
    ensures { result ≡ head_fits name.stripe.row.servers (number_of name.stripe.key) name.index client at rest.now }
{
    let PlacedStripe { row, key } = name.stripe;
    client == key.client()
        && at == name.index
        && name.index < row.data_fragments()
        && names_stripe(rest, key)
}

// The layout of a fragment whose head is that of the named one, or the first cause why it is not.
pub(crate) fn read_head(head: &[u8], name: FragmentName) -> Result<Layout, Cause>
    requires { length head.now ≡ head_length }
    ensures { result ≡ read_head name.stripe.row.servers (number_of name.stripe.key) name.index head.now }
{
    match head {
        // The form is fixed (docs/DECISIONS.md): these parts of the slice, with cases on the layout.
        [layout, n, client, at, rest @ ..] => {
            let layout = match layout {
                1 => Layout::One,
                2 => Layout::Two,
                _ => return Err(Cause::BadLayout),
            };
            if *n != name.stripe.row.servers() {
                return Err(Cause::BadRow);
            }
            if fits(*client, *at, rest, name) {
                Ok(layout)
            } else {
                Err(Cause::BadHead)
            }
        }
        _ => unreachable(),
    }
}

// Writes the head of the named fragment, in layout 2.
pub(crate) fn write_head(head: &mut [u8], name: FragmentName)
    requires { length head.old ≡ head_length }
    ensures { head.new ≡ head_bytes name.stripe.row.servers (number_of name.stripe.key) name.index }
{
    let PlacedStripe { row, key } = name.stripe;
    let layout = u8::from(Layout::Two);
    let n = row.servers();
    let client = key.client();
    let index = name.index;
    let [a, b, c, d] = key.stripe().to_le_bytes();
    head.copy_from_slice(&[
        layout, n, client, index, a, b, c, d, 0, 0, 0, 0, 0, 0, 0, 0, 0, 0, 0, 0, 0, 0, 0, 0, 0, 0,
        0, 0, 0, 0, 0, 0,
    ]);
}
