// Writes to whole records of an area.
ghost use Rattle.std.specs.Prelude.{◌≡◌, ◌+◌, ◌*◌, ◌<◌, ◌≤◌, ◌++◌, length, drop, replicate};
ghost use Rattle.log_server.specs.Records.{record_length, held_record};
ghost use Rattle.log_server.specs.Calls.{with_record, without_record};

use crate::record::{RECORD_LENGTH, write_record};
use geometry::key::Key;
use geometry::sizes::Fragment;

// Writes record `i` of the area.
pub(crate) fn put_record(area: &mut [u8], i: usize, key: Key, fragment: &Fragment)
    requires { record_length * (i + 1) ≤ length area.old }
    ensures { area.new ≡ with_record area.old i (held_record key.client key.stripe fragment.now) }
{
    let start = RECORD_LENGTH * i;
    write_record(&mut area[start..start + RECORD_LENGTH], key, fragment);
}

// Moves the records after record `i`, of the first `held`, down by one, and zeroes the last.
pub(crate) fn close_gap(area: &mut [u8], i: usize, held: usize)
    requires within { i < held }
    requires room { record_length * held ≤ length area.old }
    ensures { area.new ≡ without_record area.old i held }
{
    let gap = RECORD_LENGTH * i;
    let last = RECORD_LENGTH * (held - 1);
    area.copy_within(gap + RECORD_LENGTH..last + RECORD_LENGTH, gap);
    area[last..last + RECORD_LENGTH].fill(0);
}

// Zeroes the first `n` records.
pub(crate) fn clear(area: &mut [u8], n: usize)
    requires { record_length * n ≤ length area.old }
    ensures { area.new ≡ replicate (record_length * n) 0 ++ drop (record_length * n) area.old }
{
    area[0..RECORD_LENGTH * n].fill(0);
}
