// Areas altered byte by byte before they are opened, and areas that break the rules about keys and
// order.
use crate::call::Call;
use crate::log_area::LogArea;
use crate::model::Name;
use crate::model::area::{RECORD, read};
use crate::model::map::Map;
use crate::noise::Noise;
use crate::run::{Run, Wrong};
use crate::served::Served;
use log_server::log::LogServer;

// Keys of which one altered byte makes others of them. Under the first the fragment is zero: with its
// state altered to 0 the record is free.
const NAMES: [Name; 4] = [
    Name {
        client: 0,
        stripe: 0,
    },
    Name {
        client: 2,
        stripe: 7,
    },
    Name {
        client: 2,
        stripe: 263,
    },
    Name {
        client: 3,
        stripe: 7,
    },
];

const OTHER: Name = Name {
    client: 7,
    stripe: 4294967295,
};

fn area_of(held: &[Name], places: usize) -> LogArea {
    let mut map = Map::new(places);
    let mut noise = Noise::new(3);
    for name in held {
        let bytes = if name.stripe == 0 {
            [0; 512]
        } else {
            noise.bytes()
        };
        let _ = map.store(*name, &bytes);
    }
    LogArea::of(&map, 9)
}

// Opens an area, makes calls on it, and says whether it was in order. What it holds must be what its
// bytes hold by the rules; one that breaks them must have no places and keep its bytes.
fn open(area: &LogArea) -> Result<bool, Wrong> {
    let map = read(area.bytes());
    let mut run = Run::new(map.unwrap_or(Map::new(0)), 4);
    let mut after = *area;
    let mut asked = Served {
        server: LogServer::open(after.bytes_mut()),
    };
    run.compare(&mut asked)?;
    run.make(&mut asked, &Call::Store(OTHER, [1; 512]))?;
    run.make(&mut asked, &Call::Delete(NAMES[1]))?;
    if map.is_none() {
        run.make(&mut asked, &Call::Wipe)?;
    }
    after.check_left(&mut run.map, area)?;
    Ok(map.is_some())
}

// What a byte of a head is altered to: some bits turned alone, and the values at the edges of a state
// and of a client.
fn altered(byte: u8) -> [u8; 8] {
    [byte ^ 1, byte ^ 2, byte ^ 4, byte ^ 128, 0, 1, 7, 8]
}

// How many altered areas were in order, and how many were not.
#[derive(Clone, Copy, Default)]
struct Opened {
    in_order: u32,
    others: u32,
}

impl Opened {
    fn note(&mut self, is_in_order: bool) {
        let count = if is_in_order {
            &mut self.in_order
        } else {
            &mut self.others
        };
        *count = count.saturating_add(1);
    }

    fn has_both(&self) -> bool {
        self.in_order > 0 && self.others > 0
    }
}

// Opens the area with all the bytes of its heads altered, and a sample of the others. The first place
// of which something is wrong, if there is one.
fn open_altered(good: &LogArea) -> Result<Opened, (usize, Wrong)> {
    let mut opened = Opened::default();
    for (place, byte) in good.bytes().iter().enumerate() {
        if place % RECORD < 8 {
            for value in altered(*byte) {
                opened.note(open(&good.with(place, value)).map_err(|wrong| (place, wrong))?);
            }
        } else if place % 67 == 0 || place % RECORD == RECORD - 1 {
            opened.note(open(&good.with(place, *byte ^ 1)).map_err(|wrong| (place, wrong))?);
        }
    }
    Ok(opened)
}

// Areas in order: the names held, and how many places.
fn areas() -> [LogArea; 4] {
    let [zero, first, second, third] = NAMES;
    [
        area_of(&[], 2),
        area_of(&[first], 2),
        area_of(&[zero, third], 3),
        area_of(&[first, second, third, zero], 5),
    ]
}

#[test]
fn damaged_areas(rt: HostRuntime) {
    for good in areas() {
        assert_eq!(rt; open(&good), Ok(true), "an area in order");
        let has_both = open_altered(&good).map(|opened| opened.has_both());
        assert_eq!(rt; has_both, Ok(true), "in order and not, with a byte altered");
    }
    let good = area_of(&NAMES, 5);
    for (record, from) in [(1, 0), (3, 0), (0, 3), (2, 4), (0, 4)] {
        assert_eq!(rt;
            open(&good.with_record(record, from)),
            Ok(false),
            "record {record} as {from}"
        );
    }
}
