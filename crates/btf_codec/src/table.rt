//! Tables of types.
use btf_strings::Strings;
use c_model::Nodes;
use dw_base::Order;

/// A table as a file spells it. Id 0 is void, and id k is `types[k - 1]`, to which `Ref::Node(k -
/// 1)` refers.
#[derive(Drop)]
pub struct Table<'a> {
    /// The byte order of the file.
    pub order: Order,
    /// How many types are the base's, which come first.
    pub base: u32,
    /// The base's types and the own types, in id order.
    pub types: Nodes<'a>,
    /// The own string section.
    pub names: &'a [u8],
}

/// A table that is to be written, with the strings that give its names their offsets.
#[derive(Drop)]
pub struct TableOut<'a> {
    /// How many types are the base's, which come first and aren't written.
    pub base: u32,
    /// The base's types and the own types, in id order.
    pub types: Nodes<'a>,
    /// The names of the own types and of their parts, and the own string section.
    pub strings: Strings<'a>,
}
