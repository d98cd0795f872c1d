// What holds of every server's meaning. The laws are in specs/Laws.antt; this function carries
// them, so that the crate stands only with their proofs.
ghost use Rattle.std.specs.Prelude.{◌≡◌, true};
ghost use Rattle.server.specs.Laws.{HeldHasBytes, StoreFinds, DeleteFinds, WipeFinds, RefusedStays, PlacesStay, FreeCounts, FromIsLeast, FromIsNone, SoundStays, OneMeaning};

pub fn meanings_stand() -> bool
    ensures answer { result ≡ true }
    ensures bytes { HeldHasBytes }
    ensures store { StoreFinds }
    ensures delete { DeleteFinds }
    ensures wipe { WipeFinds }
    ensures refused { RefusedStays }
    ensures places { PlacesStay }
    ensures free { FreeCounts }
    ensures least { FromIsLeast }
    ensures none { FromIsNone }
    ensures sound { SoundStays }
    ensures one { OneMeaning }
{
    true
}
