// Reading a stripe's fragments, each once.
ghost use Rattle.std.specs.Prelude.{◌≡◌, ℕ, IfOk};
ghost use Rattle.std.specs.Result.{result_err};
ghost use Rattle.geometry.specs.Keys.{number_of};
ghost use Rattle.rack.specs.Restarting.{fragment_among};
ghost use Rattle.row.specs.Rows.{StaysCoherent};
ghost use Rattle.row_fragments.specs.Fetches.{lack_in};
ghost use Rattle.row_fragments.specs.Lacking.{first_lacking};
ghost use Rattle.row_fragments.specs.Servers.{servers_in};
ghost use Rattle.row_fragments.specs.Stripes.{fragment_on};

use crate::fetch::fetch;
use crate::lacks::Lacks;
use crate::server_set::ServerSet;
use crate::stripe_fragments::StripeFragments;
use geometry::key::Key;
use geometry::sizes::{FRAGMENT_LENGTH, Fragment, MOST_SERVERS};
use parity::xor_into;
use row::row::ServerRow;

impl StripeFragments {
    // The fragments under this key on these servers, or the lowest of them that lacks it.
    pub fn read<R: ServerRow>(
        row: &mut R,
        holders: ServerSet,
        key: Key,
    ) -> Result<StripeFragments, Lacks>
        ensures fragments { IfOk result (λ stripe. (s : ℕ) → fragment_on stripe s ≡ fragment_among (R.ServerRow.meanings row.old) (servers_in holders) (number_of key) s) }
        ensures lacks { result_err result ≡ lack_in (first_lacking (R.ServerRow.meanings row.old) (number_of key) (servers_in holders)) key }
        ensures after { R.ServerRow.meanings row.new ≡ R.ServerRow.meanings row.old }
        ensures coherent { StaysCoherent (R.ServerRow.coherent row.old) (R.ServerRow.coherent row.new) }
    {
        let mut held = [[0; FRAGMENT_LENGTH]; MOST_SERVERS as usize];
        let mut together = [0; FRAGMENT_LENGTH];
        for (server, member) in holders.members.iter().enumerate() {
            if *member {
                let fragment = fetch(row, server as u8, key)?;
                xor_into(&mut together, &fragment);
                held[server] = fragment;
            }
        }
        Ok(StripeFragments {
            holders,
            held,
            together,
        })
    }

    // The fragment that belongs on this server.
    pub fn on(&self, server: u8) -> &Fragment
        ensures { result.now ≡ fragment_on self.now server }
    {
        if self.holders.contains(server) {
            &self.held[server as usize]
        } else {
            &self.together
        }
    }
}
