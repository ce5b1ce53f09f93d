//! What workers share or give back is `Send` and `Sync`.
use crate::fault::TypeFault;
use crate::source::{SourceType, SourceTypes, Target, Targets, UnitTypes};
use dw_base::assert_send_sync;

fn all_are_send_and_sync<'a>() {
    assert_send_sync::<Target>();
    assert_send_sync::<Targets>();
    assert_send_sync::<SourceType<'a>>();
    assert_send_sync::<SourceTypes<'a>>();
    assert_send_sync::<UnitTypes<'a>>();
    assert_send_sync::<TypeFault>();
    assert_send_sync::<Result<UnitTypes<'a>, TypeFault>>();
}
