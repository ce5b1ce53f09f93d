//! Where the entries of nodes begin: looking for the node at an offset of a file, in a list by file
//! and offset.
ghost use Rattle.std.specs.Prelude.{◌≡◌, ◌≤◌, ℕ, length, OnOk, IfSome, true, false, Some};
ghost use Rattle.std.specs.List.Sorted.{IsPartitionPoint};
ghost use Rattle.unit_graph.specs.declared.places.NodePlace.{NodePlace};
ghost use Rattle.unit_graph.specs.Numbers.{row_is_at, row_is_up_to, number_in, IsInOrder};

use std::alloc::AllocError;
use std::marker::Model;

/// The place of a node: where its entry begins, and the number of the node.
#[derive(Clone, Copy)]
pub struct NodePlace {
    /// The file.
    pub file: u32,
    /// The number of the node.
    pub number: u32,
    /// The offset of its entry in `.debug_info`.
    pub at: u64,
}

impl NodePlace {
    /// Whether this is an offset of a file.
    #[inline(always)]
    fn is_at(&self, file: u32, to: u64) -> bool
        ensures { result ≡ row_is_at (file, to) self.now }
    {
        self.file == file && self.at == to
    }

    /// Whether this is an offset of a file or before it.
    #[inline(always)]
    fn is_up_to(&self, file: u32, to: u64) -> bool
        ensures { result ≡ row_is_up_to (file, to) self.now }
    {
        self.file < file || self.file == file && self.at <= to
    }
}

/// Puts the places in order. Those of units that follow one another are.
fn order_rows(rows: &mut Vec<NodePlace>) -> Result<(), AllocError>
    ensures order { OnOk result (IsInOrder rows.new.items) }
    ensures numbers { OnOk result ((p : ℕ × ℕ) → number_in p rows.new.items ≡
        number_in p rows.old.items) }
{
    rows.sort_by_key(|row| (row.file, row.at))?;
    Ok(())
}

/// The number of the row before an end, if it is the last at an offset of a file.
fn number_before(rows: &[NodePlace], end: usize, file: u32, to: u64) -> Option<u32>
    requires order { IsInOrder rows.now }
    requires within { end ≤ length rows.now }
    ensures found { IfSome result (λ n. number_in (file, to) rows.now ≡ Some n) }
    ensures exact { IsPartitionPoint (λ r. row_is_up_to (file, to) r ≡ true) (λ r.
        row_is_up_to (file, to) r ≡ false) rows.now end → result ≡ number_in (file, to) rows.now }
{
    if end == 0 {
        return None;
    }
    let row = rows[end - 1];
    if !row.is_at(file, to) {
        return None;
    }
    if end < rows.len() && rows[end].is_at(file, to) {
        return None;
    }
    Some(row.number)
}

/// The number of the last row at an offset of a file.
fn find_in_all(rows: &[NodePlace], file: u32, to: u64) -> Option<u32>
    requires { IsInOrder rows.now }
    ensures { result ≡ number_in (file, to) rows.now }
{
    let end = rows.partition_point(|row| row.is_up_to(file, to));
    number_before(rows, end, file, to)
}

/// The places of nodes, in which they are looked for. Contracts see it as the rows, in order by
/// file and offset.
#[derive(Drop)]
pub struct NodePlaces {
    rows: Vec<NodePlace>,
}

impl Model for NodePlaces {
    ghost use Rattle.std.specs.Prelude.{List};
    ghost use Rattle.unit_graph.specs.declared.places.NodePlace.{NodePlace};
    ghost use Rattle.unit_graph.specs.Numbers.{IsInOrder};

    ghost Value = { List NodePlace };

    ghost view = { λ p. p.rows.items };

    ghost invariant = { λ p. IsInOrder p.rows.items };
}

impl NodePlaces {
    ghost use Rattle.std.specs.Prelude.{◌≡◌, ℕ, IfOk};
    ghost use Rattle.unit_graph.specs.Numbers.{number_in};

    /// Takes rows in any order. Works in proportion to the rows where they are in order, as those
    /// of units that follow one another are, else in proportion to the rows times the logarithm of
    /// their number.
    pub fn new(rows: Vec<NodePlace>) -> Result<NodePlaces, AllocError>
        ensures { IfOk result (λ places. (p : ℕ × ℕ) → number_in p places ≡
            number_in p rows.items) }
    {
        let mut rows = rows;
        order_rows(&mut rows)?;
        Ok(NodePlaces { rows })
    }

    /// The number of the last row at an offset of a file; none where no row is there. Works in
    /// proportion to the logarithm of the number of rows.
    pub fn find(&self, file: u32, to: u64) -> Option<u32>
        ensures { result ≡ number_in (file, to) self.now }
    {
        find_in_all(self.rows.as_slice(), file, to)
    }
}
