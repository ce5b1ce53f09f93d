//! Tables of merged graphs, and graphs with the types of a base.
ghost use Rattle.std.specs.Prelude.{◌≡◌, ◌<◌, ◌^◌, IfSome, length};
ghost use Rattle.c_model.specs.Graph.{RefersWithin};

use crate::fault::CaseFault;
use crate::rows::CaseType;
use crate::worked::{DECLARED, DEFINED, DEFINED_OVER_DECLARED, Worked, WorkedType};
use btf_codec::{Table, TableOut};
use c_model::{CType, Classes, Graph, Nodes};
use dw_base::Order;
use small_graphs::fitting::{are_formed, graph_from, is_base, refer_to_one_another};
use small_graphs::rows::type_of;
use small_graphs::same::are_same;
use split_base::{TableFault, build, with_base};
use std::alloc::{AllocError, Global};

/// The table of a graph's classes over the strings of a base, or why there is none.
pub fn built<'a>(
    alloc: Global,
    graph: &Graph<'a>,
    classes: &Classes,
    base_names: Option<&'a [u8]>,
) -> Result<Result<TableOut<'a>, TableFault>, CaseFault> {
    if classes.numbers().len() != graph.nodes().len()
        || !are_formed(graph.nodes())
        || !is_base(base_names)
    {
        return Err(CaseFault::Unfit);
    }
    Ok(build(alloc, graph, classes, base_names))
}

/// Appends the types of these entries.
fn push_listed(
    alloc: Global,
    types: &mut Vec<CType<'static>>,
    entries: &[WorkedType],
) -> Result<(), AllocError> {
    for (head, numbers) in entries {
        types.push(type_of(alloc, head, CaseType::new(**head, numbers).targets())?)?;
    }
    Ok(())
}

/// The types of these entries.
fn listed(alloc: Global, entries: &[WorkedType]) -> Result<Vec<CType<'static>>, AllocError> {
    let mut types: Vec<CType<'static>> = Vec::new(alloc);
    push_listed(alloc, &mut types, entries)?;
    Ok(types)
}

/// The types of the table that is written beside a graph, those of the base first.
pub fn written(alloc: Global, worked: &Worked) -> Result<Vec<CType<'static>>, AllocError> {
    let mut types: Vec<CType<'static>> = listed(
        alloc,
        worked.types.get(..worked.base).unwrap_or(&[]),
    )?;
    push_listed(alloc, &mut types, worked.own)?;
    Ok(types)
}

/// Whether a table is the one that is written beside a graph, with these types.
pub fn is_table(table: &TableOut<'_>, types: &[CType<'_>], worked: &Worked) -> bool {
    table.base as usize == worked.base
        && are_same(table.types.items(), types)
        && table.strings.bytes() == worked.names
}

/// Whether a graph is the one of a declaring base and a defining file.
fn is_joined(alloc: Global, graph: &Graph<'_>) -> Result<bool, AllocError> {
    let wanted = listed(alloc, DEFINED_OVER_DECLARED)?;
    Ok(graph.base() == 2 && are_same(graph.nodes(), &wanted))
}

/// Whether the graph of a base and of a file, of at most so many nodes, is what it should be; or
/// why there is none.
fn joined_over(
    alloc: Global,
    base: &Table<'static>,
    most: u32,
    file: Graph<'static>,
) -> Result<Result<bool, TableFault>, AllocError>
    requires alone { base.now.base ≡ 0 }
    requires few { length base.now.types < 2 ^ 32 }
    requires within { RefersWithin (length base.now.types) base.now.types }
    requires files { file.base ≡ 0 }
{
    match with_base(alloc, base, most, file) {
        Ok(graph) => Ok(Ok(is_joined(alloc, &graph)?)),
        Err(fault) => Ok(Err(fault)),
    }
}

/// The table of a base of these types, where they refer to one another alone.
fn base_table(types: Vec<CType<'static>>) -> Option<Table<'static>>
    ensures alone { IfSome result (λ t. t.base ≡ 0) }
    ensures few { IfSome result (λ t. length t.types < 2 ^ 32) }
    ensures within { IfSome result (λ t. RefersWithin (length t.types) t.types) }
{
    if !refer_to_one_another(&types) {
        return None;
    }
    Some(Table {
        order: Order::Little,
        base: 0,
        types: Nodes::new(types),
        names: b"\0foo\0",
    })
}

/// Whether the graph of a declaring base and a defining file, of at most so many nodes, is what it
/// should be; or why there is none.
pub fn joined(alloc: Global, most: u32) -> Result<Result<bool, TableFault>, CaseFault> {
    let Some(file) = graph_from(0, listed(alloc, DEFINED)?) else {
        return Err(CaseFault::Unfit);
    };
    match base_table(listed(alloc, DECLARED)?) {
        Some(base) => Ok(joined_over(alloc, &base, most, file)?),
        None => Err(CaseFault::Unfit),
    }
}
