// An area for a log server.
use crate::compare::maps_agree;
use crate::model::area::{RECORD, write};
use crate::model::map::{MOST_PLACES, Map};
use crate::noise::Noise;
use crate::run::Wrong;
use crate::served::Served;
use log_server::log::LogServer;

const LONGEST: usize = RECORD * (MOST_PLACES + 1);

// The area is the first `length` bytes.
#[derive(Clone, Copy)]
pub(crate) struct LogArea {
    all: [u8; LONGEST],
    length: usize,
}

impl LogArea {
    // The records of the map, and bytes with no pattern after them.
    pub(crate) fn of(map: &Map, tail: usize) -> LogArea {
        let mut all = Noise::new(2).bytes();
        write(map, &mut all);
        let length = RECORD.saturating_mul(map.places).saturating_add(tail);
        LogArea { all, length }
    }

    pub(crate) fn bytes(&self) -> &[u8] {
        &self.all[..self.length.min(LONGEST)]
    }

    pub(crate) fn bytes_mut(&mut self) -> &mut [u8] {
        &mut self.all[..self.length.min(LONGEST)]
    }

    // The area with another byte at this place.
    pub(crate) fn with(&self, place: usize, byte: u8) -> LogArea {
        let mut area = *self;
        if let Some(old) = area.all.get_mut(place) {
            *old = byte;
        }
        area
    }

    // The area with one record written over another.
    pub(crate) fn with_record(&self, to: usize, from: usize) -> LogArea {
        let mut area = *self;
        let start = RECORD.saturating_mul(to);
        let source = self.all.iter().skip(RECORD.saturating_mul(from));
        for (byte, new) in area.all.iter_mut().skip(start).take(RECORD).zip(source) {
            *byte = *new;
        }
        area
    }

    // Once its server is let go: the bytes must be those of the area as it was with the map's records
    // written over them, and mean the map when they are opened again.
    pub(crate) fn check_left(&mut self, map: &mut Map, old: &LogArea) -> Result<(), Wrong> {
        let mut expected = *old;
        write(map, expected.bytes_mut());
        if self.bytes() != expected.bytes() {
            return Err(Wrong::Bytes);
        }
        let server = LogServer::open(self.bytes_mut());
        if !maps_agree(&mut Served { server }, map) {
            return Err(Wrong::Reopened);
        }
        Ok(())
    }
}
