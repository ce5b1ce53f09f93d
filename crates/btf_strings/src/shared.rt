//! What workers share or give back is `Send` and `Sync`.
use crate::fault::StringsFault;
use crate::strings::Strings;
use dw_base::assert_send_sync;

fn all_are_send_and_sync<'a>() {
    assert_send_sync::<StringsFault>();
    assert_send_sync::<Strings<'a>>();
}
