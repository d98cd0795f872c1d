// What the model has, against lists read out of something else.
use rack_model::codec::Bytes;
use rack_model::key::{BlockId, Key};
use rack_model::server::Server;
use service_model::table::{Entry, Table};

// Whether the server holds these fragments and no other. No key stands twice in the list.
pub fn server_holds_only(server: &Server, fragments: &[(Key, Bytes)]) -> bool {
    let mut agrees = server.held.len() == fragments.len();
    for (key, bytes) in fragments {
        agrees = agrees && server.held.get(key).copied() == Some(*bytes);
    }
    agrees
}

fn is_same(left: Entry, right: Entry) -> bool {
    left.kind == right.kind && left.pair == right.pair && left.spot == right.spot
}

// Whether the table has these entries and no other. No block stands twice in the list.
pub fn table_has_only(table: &Table, entries: &[(BlockId, Entry)]) -> bool {
    let mut agrees = table.entries.len() == entries.len();
    for (block, entry) in entries {
        let found = table.entry(*block);
        agrees = agrees && found.is_some_and(|one| is_same(one, *entry));
    }
    agrees
}
