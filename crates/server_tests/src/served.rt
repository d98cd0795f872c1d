// A fragment server, asked in the model's terms.
use crate::call::{Answer, Asked, Call};
use crate::model::{Done, Name};
use geometry::key::Key;
use geometry::sizes::FRAGMENT_LENGTH;
use ordered::fault::MapFault;
use server::fragment_server::FragmentServer;
use server::stored::StoredFragment;

#[derive(Drop)]
pub(crate) struct Served<S> {
    pub server: S,
}

// A place for a shelf. What it holds does not matter.
pub(crate) fn blank() -> StoredFragment {
    StoredFragment::new(Key::new(0, 0).unwrap(), &[170; FRAGMENT_LENGTH])
}

pub(crate) fn key_of(name: Name) -> Option<Key> {
    Key::new(u64::from(name.client), u64::from(name.stripe))
}

pub(crate) fn name_of(key: Key) -> Name {
    Name {
        client: key.client(),
        stripe: key.stripe(),
    }
}

pub(crate) fn plain(answer: Result<(), MapFault>) -> Done {
    answer.map_err(u8::from)
}

impl<S: FragmentServer> Asked for Served<S> {
    fn ask(&mut self, call: &Call) -> Option<Answer> {
        let server = &mut self.server;
        Some(match call {
            Call::Store(name, bytes) => {
                Answer::Changed(plain(server.store(key_of(*name)?, bytes)))
            }
            Call::Fetch(name, before) => {
                let mut buffer = *before;
                let answer = server.fetch(key_of(*name)?, &mut buffer);
                Answer::Fetched(plain(answer), buffer)
            }
            Call::Delete(name) => Answer::Changed(plain(server.delete(key_of(*name)?))),
            Call::Wipe => {
                server.wipe();
                Answer::Wiped
            }
            Call::Holds(name) => Answer::Holds(server.holds(key_of(*name)?)),
            Call::From(name) => Answer::From(server.from(key_of(*name)?).map(name_of)),
            Call::Capacity => Answer::Count(u64::from(server.capacity())),
            Call::Free => Answer::Count(u64::from(server.free())),
        })
    }
}
