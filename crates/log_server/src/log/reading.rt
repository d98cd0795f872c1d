// Opening bytes, and reading them.
#![tactic(auto, using(crate::proofs::Meanings::area_counts))]

ghost use Rattle.std.specs.Prelude.{◌≡◌, ◌*◌, ◌<◌, ◌==◌, IfSome};
ghost use Rattle.geometry.specs.Keys.{number_of, number_in};
ghost use Rattle.server.specs.Meaning.{holds, free, key_from, fetched, held_answer};
ghost use Rattle.log_server.specs.Area.{area_pieces, pieces_in};
ghost use Rattle.log_server.specs.Walks.{place_of};
ghost use Rattle.log_server.specs.Examples.{Examples};
ghost use Rattle.log_server.specs.Laws.{AreaLaws};
ghost use Rattle.log_server.specs.Records.{record_length};
ghost use Rattle.log_server.specs.Servers.{bytes_in, meaning_in};

use crate::log::LogServer;
use crate::record::{LEAD_LENGTH, RECORD_LENGTH};
use crate::walk::{find, held_in_order, nearest, record_at};
use geometry::key::Key;
use geometry::sizes::Fragment;
use ordered::fault::MapFault;

const MOST_RECORDS: usize = 0xffff_ffff;

impl<'a> LogServer<'a> {
    // The server that the area's bytes mean. Bytes that are not in order make a server with no
    // places, which never writes to them. In the worst case each key is compared with each other
    // one; where the keys rise from record to record, with the greatest so far alone.
    pub fn open(area: &'a mut [u8]) -> LogServer<'a>
        ensures bytes { bytes_in result ≡ area.old }
        ensures same { result.bytes.ghost_name ≡ area.entry.ghost_name }
        ensures laws { AreaLaws }
    {
        let whole = (area.len() / RECORD_LENGTH).min(MOST_RECORDS);
        let (capacity, held) = held_in_order(&area[..RECORD_LENGTH * whole]).map_or(
            (0, 0),
            |held| (whole, held),
        );
        LogServer {
            bytes: area,
            capacity,
            held,
        }
    }

    // How many bytes this many places take.
    pub fn length_for(places: u32) -> usize
        ensures length { result ≡ record_length * places }
        ensures examples { Examples }
    {
        RECORD_LENGTH * places as usize
    }

    // The records that are held.
    fn held_records(&self) -> &[u8]
        ensures { pieces_in result.now ≡ area_pieces (bytes_in self.now) }
    {
        &self.bytes[..RECORD_LENGTH * self.held]
    }

    // The record that holds this key.
    pub(crate) fn place(&self, key: Key) -> Option<usize>
        ensures is { result ≡ place_of (area_pieces (bytes_in self.now)) (number_of key) }
        ensures within { IfSome result (λ i. i < self.now.held) }
    {
        find(self.held_records(), u64::from(key))
    }

    pub(crate) fn has(&self, key: Key) -> bool
        ensures { result ≡ holds (meaning_in self.now) (number_of key) }
    {
        self.place(key).is_some()
    }

    pub(crate) fn is_full(&self) -> bool
        ensures { result ≡ (free (meaning_in self.now) == 0) }
    {
        self.held == self.capacity
    }

    // Copies the fragment under this key.
    pub(crate) fn copy_out(&self, key: Key, out: &mut Fragment) -> Result<(), MapFault>
        ensures answer { result ≡ held_answer (meaning_in self.now) (number_of key) }
        ensures copied { out.new ≡ fetched (meaning_in self.now) (number_of key) out.old }
    {
        let i = self.place(key).ok_or(MapFault::Absent)?;
        let record = record_at(self.bytes, i);
        out.copy_from_slice(&record[LEAD_LENGTH..RECORD_LENGTH]);
        Ok(())
    }

    // The least key held that is not below this one.
    pub(crate) fn first_from(&self, key: Key) -> Option<Key>
        ensures { number_in result ≡ key_from (meaning_in self.now) (number_of key) }
    {
        let number = nearest(self.held_records(), u64::from(key))?;
        Key::try_from(number).ok()
    }
}
