//! What workers share or give back is `Send` and `Sync`.
use crate::fault::ShowFault;
use dw_base::assert_send_sync;

fn all_are_send_and_sync() {
    assert_send_sync::<ShowFault>();
}
