//! A case: the bytes of a file, and what they spell.
use dw_base::Order;
use std::alloc::Global;

/// The bytes of a file, and what they spell.
#[derive(Drop)]
pub struct Case {
    pub name: String,
    /// The place in the list of cases of the file whose table comes before, where there is one.
    pub base: Option<usize>,
    /// The byte order that is wanted.
    pub want: Option<Order>,
    /// The bytes of the file.
    pub bytes: Vec<u8>,
    /// The whole answer, each line of it with a newline.
    pub answer: String,
}

impl Case {
    /// The case of a name, so far without bytes and answer.
    pub fn new(alloc: Global, name: String) -> Case {
        Case {
            name,
            base: None,
            want: None,
            bytes: Vec::new(alloc),
            answer: String::new(alloc),
        }
    }
}
