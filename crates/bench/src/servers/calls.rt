// The calls that are timed, one for each key, on any fragment server. A refusal ends them.
use geometry::key::Key;
use geometry::sizes::Fragment;
use ordered::fault::MapFault;
use server::fragment_server::FragmentServer;

pub(crate) fn store_all<S: FragmentServer>(
    server: &mut S,
    keys: &[Key],
    fragments: &[Fragment],
) -> Result<(), MapFault> {
    for (key, fragment) in keys.iter().zip(fragments) {
        server.store(*key, fragment)?;
    }
    Ok(())
}

pub(crate) fn fetch_all<S: FragmentServer>(
    server: &mut S,
    keys: &[Key],
    out: &mut [Fragment],
) -> Result<(), MapFault> {
    for (key, fragment) in keys.iter().zip(out.iter_mut()) {
        server.fetch(*key, fragment)?;
    }
    Ok(())
}

// Fetches one key over and over.
pub(crate) fn fetch_one<S: FragmentServer>(
    server: &mut S,
    key: Key,
    out: &mut [Fragment],
) -> Result<(), MapFault> {
    for fragment in out.iter_mut() {
        server.fetch(key, fragment)?;
    }
    Ok(())
}

pub(crate) fn delete_all<S: FragmentServer>(server: &mut S, keys: &[Key]) -> Result<(), MapFault> {
    for key in keys {
        server.delete(*key)?;
    }
    Ok(())
}
