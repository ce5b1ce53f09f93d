//! Laws of the coarsest partition and of joins. Each function does nothing: its contract is the law.
ghost use Rattle.class_refine.specs.Laws.{PlainCoarsestExists, ForwardIndexExists, CoarsestExists};
ghost use Rattle.class_refine.specs.Laws.{PlainJoinAgrees, JoinAgrees};

/// Each graph has a coarsest agreeing partition under each index, each list of nodes a coarsest
/// plain agreement, and each graph an index of its open forwards.
pub fn coarsest_exists()
    ensures agreeing { CoarsestExists }
    ensures plain { PlainCoarsestExists }
    ensures index { ForwardIndexExists }
{}

/// Two agreeing partitions have a join that agrees: both refine it, and it refines each partition
/// that both refine. It is so of plain agreements too.
pub fn join_agrees()
    ensures agreeing { JoinAgrees }
    ensures plain { PlainJoinAgrees }
{}
