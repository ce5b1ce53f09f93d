//! What workers share or give back is `Send` and `Sync`.
use crate::graph::PackedGraph;
use crate::nodes::PackedNodes;
use dw_base::assert_send_sync;

fn all_are_send_and_sync<'a>() {
    assert_send_sync::<PackedNodes<'a>>();
    assert_send_sync::<PackedGraph<'a>>();
    assert_send_sync::<&'a PackedGraph<'a>>();
}
