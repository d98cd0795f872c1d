// Pull and rebuild: a server goes out, and comes back.
use crate::call::Answer;
use crate::row::Change;
use crate::stop::{Stop, refused};
use crate::world::World;
use rack_model::fault::{Cause, Place};
use rack_model::key::Key;
use std::alloc::AllocError;

impl World {
    // The place that names the server out.
    fn out_place(&self) -> Place {
        self.service.out.map_or(Place::Nowhere, Place::Server)
    }

    pub(crate) fn pull(&mut self, server: u8) -> Result<Answer, Stop> {
        self.must_be_warm()?;
        self.must_have_server(server)?;
        if self.service.out.is_some() {
            return Err(refused(Cause::Out, self.out_place()));
        }
        self.service.out = Some(server);
        Ok(Answer::Done)
    }

    // Of fragments that are missing the smallest server's first is named.
    fn all_must_stand(&self, keys: &[Key]) -> Result<(), Stop> {
        for server in self.in_use()?.iter() {
            for key in keys {
                self.must_stand(&[*server], *key)?;
            }
        }
        Ok(())
    }

    fn rebuild_changes(&self, server: u8, keys: &[Key]) -> Result<Vec<Change>, AllocError> {
        let mut changes = Vec::new(self.heap);
        changes.push(Change::Wipe { server })?;
        for key in keys {
            let key = *key;
            let bytes = self.row.put_together(server, key);
            changes.push(Change::Store { server, key, bytes })?;
        }
        Ok(changes)
    }

    pub(crate) fn rebuild(&mut self, server: u8, budget: u64) -> Result<Answer, Stop> {
        self.must_be_warm()?;
        self.must_have_server(server)?;
        if self.service.out != Some(server) {
            return Err(refused(Cause::Out, self.out_place()));
        }
        let sealed = self.sealed()?;
        let count = sealed.len() as u64;
        let capacity = self.row.server(server).map_or(0, |one| one.capacity);
        if u64::from(capacity) < count {
            return Err(refused(Cause::Full, Place::Server(server)));
        }
        self.all_must_stand(&sealed)?;
        let changes = self.rebuild_changes(server, &sealed)?;
        self.make_all(&changes, budget)?;
        self.service.out = None;
        Ok(Answer::Rebuilt(count))
    }
}
