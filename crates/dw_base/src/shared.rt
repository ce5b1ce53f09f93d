//! What workers share or give back is `Send` and `Sync`.
use crate::leb128::LebFault;
use crate::listed::Bytes;
use crate::names::Name;
use crate::numbers::Order;
use crate::places::{Limits, Place, Section};
use crate::text_ends::TextEnds;
use crate::text_section::TextSection;

/// Compiles exactly for a type whose values workers may share and give back.
pub fn assert_send_sync<T: Send + Sync>() {}

fn all_are_send_and_sync<'a>() {
    assert_send_sync::<Bytes>();
    assert_send_sync::<Name<'a>>();
    assert_send_sync::<&'a Name<'a>>();
    assert_send_sync::<TextEnds<'a>>();
    assert_send_sync::<&'a TextEnds<'a>>();
    assert_send_sync::<TextSection<'a>>();
    assert_send_sync::<&'a TextSection<'a>>();
    assert_send_sync::<Order>();
    assert_send_sync::<LebFault>();
    assert_send_sync::<(Limits, Place, Section)>();
}
