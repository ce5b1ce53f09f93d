//! What workers share or give back is `Send` and `Sync`.
use crate::fault::{Failed, LoadFault, OutFault};
use crate::files::{Files, HeldFile, Stop, Stops};
use crate::gate::OpenGate;
use dw_base::assert_send_sync;

fn all_are_send_and_sync() {
    assert_send_sync::<OpenGate>();
    assert_send_sync::<(Failed, LoadFault, OutFault)>();
    assert_send_sync::<HeldFile>();
    assert_send_sync::<Files>();
    assert_send_sync::<(Stop, Stops)>();
}
