//! What workers share or give back is `Send` and `Sync`.
use crate::entries::{FuncEntries, FuncEntry, UnitEntries};
use c_types::TypeFault;
use dw_base::assert_send_sync;

fn all_are_send_and_sync<'a>() {
    assert_send_sync::<FuncEntry<'a>>();
    assert_send_sync::<FuncEntries<'a>>();
    assert_send_sync::<UnitEntries<'a>>();
    assert_send_sync::<Result<UnitEntries<'a>, TypeFault>>();
}
