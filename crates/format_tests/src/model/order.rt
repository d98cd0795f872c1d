// Which keys and pairs there are, and how they compare.

// The key of these two numbers, if there is such a client and such a stripe.
pub(crate) fn key(client: u64, stripe: u64) -> Option<(u64, u64)> {
    (client <= 7 && stripe <= 4294967295).then_some((client, stripe))
}

// Whether the first of two pairs of numbers is below the second: by their first number, then by
// their second. Written out, since the code under test compares by derives.
pub(crate) fn is_below(left: (u64, u64), right: (u64, u64)) -> bool {
    if left.0 == right.0 {
        left.1 < right.1
    } else {
        left.0 < right.0
    }
}
