//! What workers share or give back is `Send` and `Sync`.
use crate::fault::FormFault;
use crate::given::{FormCtx, FormValue, Given};
use dw_base::assert_send_sync;

fn all_are_send_and_sync<'a>() {
    assert_send_sync::<FormCtx<'a>>();
    assert_send_sync::<FormValue<'a>>();
    assert_send_sync::<Given<'a>>();
    assert_send_sync::<FormFault>();
}
