//! What workers share or give back is `Send` and `Sync`.
use crate::fault::BtfFault;
use crate::table::{Table, TableOut};
use dw_base::assert_send_sync;

fn all_are_send_and_sync<'a>() {
    assert_send_sync::<BtfFault>();
    assert_send_sync::<Table<'a>>();
    assert_send_sync::<TableOut<'a>>();
}
