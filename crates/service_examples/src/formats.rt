// Placement, parity, pairs and fragments by the examples.
use crate::script::key;
use rack_model::codec::{Wanted, read, written};
use rack_model::fault::Flaw;
use rack_model::key::{BlockId, Key};
use rack_model::parity::add_into;
use rack_model::placement::{data_server, parity_server};
use rack_model::slot::{Delta, Kind, NO_CONTENT, Pair, Slot};

const WANTED: Wanted = Wanted {
    servers: 5,
    key: Key {
        client: 3,
        stripe: 0x12345678,
    },
    index: 2,
};

// Slots of data fragment 2, a write and a trim.
fn slots() -> [Slot; 8] {
    let pair = Pair {
        version: 0x01020304,
        moves: 0x0506,
    };
    let block = BlockId {
        file: 0x0708,
        block: 0x090a,
    };
    let kind = Kind::Write;
    let delta = Delta { kind, block, pair };
    let content = [7; 128];
    let mut all = [Slot { delta, content }; 8];
    let kind = Kind::Trim;
    let delta = Delta { kind, block, pair };
    all[7] = Slot {
        delta,
        content: NO_CONTENT,
    };
    all
}

#[test]
fn fragment_bytes(rt: HostRuntime) {
    let bytes = written(WANTED, &slots());
    let head = [2, 5, 3, 2, 0x78, 0x56, 0x34, 0x12, 0, 0, 0, 0];
    assert!(rt; bytes[..12] == head[..], "head");
    let write = [1, 0, 8, 7, 10, 9, 6, 5, 4, 3, 2, 1, 0, 0];
    assert!(rt; bytes[32..46] == write[..], "write");
    let trim = [2, 0, 8, 7, 10, 9, 6, 5, 4, 3, 2, 1, 0, 0];
    assert!(rt; bytes[192..206] == trim[..], "trim");
    assert!(rt; bytes[64..192] == [7; 128][..], "content");
    assert!(rt; bytes[352..] == [0; 160][..], "empty");
    let [.., write, trim] = slots();
    assert!(rt;
        read(&bytes, WANTED) == Ok([Some(write), Some(trim), None]),
        "read back"
    );
}

// A write in layout 1 has two bytes of version and no moves, and there are no trims.
#[test]
fn layout_1(rt: HostRuntime) {
    let mut bytes = written(WANTED, &slots());
    bytes[0] = 1;
    assert!(rt;
        read(&bytes, WANTED) == Err(Flaw::Slot),
        "versions beyond byte 7"
    );
    for byte in bytes[192..352].iter_mut() {
        *byte = 0;
    }
    for byte in bytes[40..44].iter_mut() {
        *byte = 0;
    }
    let mut write = slots()[0];
    write.delta.pair = Pair {
        version: 0x0506,
        moves: 0,
    };
    assert!(rt;
        read(&bytes, WANTED) == Ok([Some(write), None, None]),
        "one write"
    );
    bytes[32] = 2;
    assert!(rt; read(&bytes, WANTED) == Err(Flaw::Slot), "a trim");
}

#[test]
fn examples_of_formats(rt: HostRuntime) {
    let small = key(1, 0);
    assert_eq!(rt; parity_server(3, small), 1);
    assert_eq!(rt; data_server(3, small, 0), 2);
    assert_eq!(rt; data_server(3, small, 1), 0);
    let large = key(7, 4294967295);
    assert_eq!(rt; parity_server(8, large), 6);
    assert_eq!(rt; data_server(8, large, 6), 5);
    let mut sum = [0x3c; 512];
    add_into(&mut sum, &[0xa5; 512]);
    add_into(&mut sum, &[0x0f; 512]);
    assert!(rt; sum == [0x96; 512], "parity");
    let later = Pair {
        version: 6,
        moves: 0,
    };
    assert!(rt;
        later
            > Pair {
                version: 5,
                moves: 9
            },
        "pairs"
    );
}
