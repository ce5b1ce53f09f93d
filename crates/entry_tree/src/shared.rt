//! What workers share or give back is `Send` and `Sync`.
use crate::entry::Entry;
use crate::fault::WalkFault;
use crate::roots::RootInfo;
use crate::unit::{Unit, UnitFault, UnitList};
use crate::walk::Walk;
use dw_base::assert_send_sync;

fn all_are_send_and_sync<'w, 'a: 'w>() {
    assert_send_sync::<Unit>();
    assert_send_sync::<UnitList>();
    assert_send_sync::<UnitFault>();
    assert_send_sync::<RootInfo>();
    assert_send_sync::<WalkFault>();
    assert_send_sync::<Entry<'w, 'a>>();
    assert_send_sync::<Walk<'w, 'a>>();
}
