// The laws of ordered maps, for every kind of element.
ghost use Rattle.std.specs.Prelude.{◌≡◌, true};
ghost use Rattle.ordered.specs.Laws.{PutFinds, WithoutFinds, PutCounts, WithoutCounts, OrderStays, LeastIsLeast, LeastIsNone, OneList};

use crate::keyed::Keyed;

pub fn maps_stand<E: Keyed>() -> bool
    ensures stands { result ≡ true }
    ensures put_finds { PutFinds E.Keyed.number }
    ensures without_finds { WithoutFinds E.Keyed.number }
    ensures put_counts { PutCounts E.Keyed.number }
    ensures without_counts { WithoutCounts E.Keyed.number }
    ensures order_stays { OrderStays E.Keyed.number }
    ensures least { LeastIsLeast E.Keyed.number }
    ensures none { LeastIsNone E.Keyed.number }
    ensures one_list { OneList E.Keyed.number }
{
    true
}
