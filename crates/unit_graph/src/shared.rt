//! What workers share or give back is `Send` and `Sync`.
use crate::links::Out;
use crate::places::NodePlaces;
use crate::sources::UnitAt;
use crate::tables::KeptTables;
use dw_base::assert_send_sync;

fn all_are_send_and_sync<'a>() {
    assert_send_sync::<UnitAt<'a>>();
    assert_send_sync::<NodePlaces>();
    assert_send_sync::<Out>();
    assert_send_sync::<KeptTables>();
}
