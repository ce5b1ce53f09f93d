//! What workers share or give back is `Send` and `Sync`.
use crate::abbrevs::Abbrevs;
use crate::fault::AbbrevFault;
use crate::row::Abbrev;
use crate::runs::FixedRun;
use crate::size::Width;
use crate::spec::Spec;
use dw_base::assert_send_sync;

fn all_are_send_and_sync<'t>() {
    assert_send_sync::<Abbrevs>();
    assert_send_sync::<Abbrev<'t>>();
    assert_send_sync::<Spec>();
    assert_send_sync::<Width>();
    assert_send_sync::<FixedRun>();
    assert_send_sync::<AbbrevFault>();
}
