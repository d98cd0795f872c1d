// Calls of a server as values, and two servers asked the same.
ghost use Rattle.std.specs.Prelude.{◌≡◌, true, Decides};
ghost use Rattle.server.specs.Calls.{answer_to, after_call, answers_to, after_calls};

use crate::fragment_server::FragmentServer;
use geometry::key::Key;
use geometry::sizes::{FRAGMENT_LENGTH, Fragment};
use ordered::fault::MapFault;

#[derive(Clone, Copy)]
pub enum ServerCall {
    Store(Key, Fragment),
    Fetch(Key),
    Delete(Key),
    Wipe,
    Holds(Key),
    From(Key),
    Capacity,
    Free,
}

// What a fetch into zeros answers and leaves there.
// No `Result` of bytes: it would not tell what a refused fetch leaves.
#[derive(Clone, Copy, PartialEq)]
pub struct Fetched {
    pub answer: Result<(), MapFault>,
    pub bytes: Fragment,
}

// A key that was found goes by its number, since that is all that a clause says of it.
#[derive(Clone, Copy, PartialEq)]
pub enum ServerAnswer {
    Changed(Result<(), MapFault>),
    Fetched(Fetched),
    Wiped,
    Holds(bool),
    From(Option<u64>),
    Count(u32),
}

// Makes one call. Calls are values, since contracts speak of lists of them.
pub fn ask<S: FragmentServer>(server: &mut S, call: &ServerCall) -> ServerAnswer
    ensures answer { result ≡ answer_to (S.FragmentServer.meaning server.old) call.now }
    ensures after { S.FragmentServer.meaning server.new ≡ after_call (S.FragmentServer.meaning server.old) call.now }
    ensures coherent { S.FragmentServer.coherent server.old → S.FragmentServer.coherent server.new }
{
    match call {
        ServerCall::Store(key, bytes) => ServerAnswer::Changed(server.store(*key, bytes)),
        ServerCall::Fetch(key) => {
            let mut bytes = [0; FRAGMENT_LENGTH];
            let answer = server.fetch(*key, &mut bytes);
            ServerAnswer::Fetched(Fetched { answer, bytes })
        }
        ServerCall::Delete(key) => ServerAnswer::Changed(server.delete(*key)),
        ServerCall::Wipe => {
            server.wipe();
            ServerAnswer::Wiped
        }
        ServerCall::Holds(key) => ServerAnswer::Holds(server.holds(*key)),
        ServerCall::From(key) => ServerAnswer::From(server.from(*key).map(u64::from)),
        ServerCall::Capacity => ServerAnswer::Count(server.capacity()),
        ServerCall::Free => ServerAnswer::Count(server.free()),
    }
}

// Makes one call on both servers, and says whether they answered the same.
fn agree_on<A: FragmentServer, B: FragmentServer>(a: &mut A, b: &mut B, call: &ServerCall) -> bool
    ensures answer { Decides result (answer_to (A.FragmentServer.meaning a.old) call.now ≡ answer_to (B.FragmentServer.meaning b.old) call.now) }
    ensures first { A.FragmentServer.meaning a.new ≡ after_call (A.FragmentServer.meaning a.old) call.now }
    ensures second { B.FragmentServer.meaning b.new ≡ after_call (B.FragmentServer.meaning b.old) call.now }
    ensures coherent { (A.FragmentServer.coherent a.old → A.FragmentServer.coherent a.new) × (B.FragmentServer.coherent b.old → B.FragmentServer.coherent b.new) }
{
    ask(a, call) == ask(b, call)
}

// Makes each call on both servers in turn, and says whether every answer was the same. Servers
// that mean the same cannot be told apart.
pub fn agree<A: FragmentServer, B: FragmentServer>(
    a: &mut A,
    b: &mut B,
    calls: &[ServerCall],
) -> bool
    ensures answers { Decides result (answers_to (A.FragmentServer.meaning a.old) calls.now ≡ answers_to (B.FragmentServer.meaning b.old) calls.now) }
    ensures first { A.FragmentServer.meaning a.new ≡ after_calls (A.FragmentServer.meaning a.old) calls.now }
    ensures second { B.FragmentServer.meaning b.new ≡ after_calls (B.FragmentServer.meaning b.old) calls.now }
    ensures alike { A.FragmentServer.meaning a.old ≡ B.FragmentServer.meaning b.old → (result ≡ true) × (A.FragmentServer.meaning a.new ≡ B.FragmentServer.meaning b.new) }
    ensures coherent { (A.FragmentServer.coherent a.old → A.FragmentServer.coherent a.new) × (B.FragmentServer.coherent b.old → B.FragmentServer.coherent b.new) }
{
    // No fold: its closure would change both servers, which no proof follows there.
    let mut same = true;
    for call in calls {
        same = same & agree_on(a, b, call);
    }
    same
}
