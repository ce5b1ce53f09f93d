//! The table of a partition.
ghost use Rattle.std.specs.Prelude.{◌≡◌, ◌<◌, ◌≤◌, ◌+◌, ◌*◌, ◌^◌, ◌⊎◌, None, Some, All, drop};
ghost use Rattle.std.specs.Prelude.{length, IfOk, IfErr, IfSome, OnOk};
ghost use Rattle.std.specs.List.{flat_map};
ghost use Rattle.std.specs.Option.{option_copied};
ghost use Rattle.btf_codec.specs.Fields.{fields_of};
ghost use Rattle.btf_codec.specs.Spelling.{HasOffsets};
ghost use Rattle.btf_strings.specs.Kept.{IsSection};
ghost use Rattle.btf_strings.specs.Names.{own_section};
ghost use Rattle.c_model.specs.Graph.{RefersWithin};
ghost use Rattle.c_model.specs.Kinds.{IsWellFormed};
ghost use Rattle.split_base.specs.Refusals.{strings_of, table_refusal, types_refusal};
ghost use Rattle.split_base.specs.Table.{own_types, table_of};
ghost use Rattle.split_base.specs.declared.fault.TableFault.TheVariants.{Memory};

use crate::fault::TableFault;
use crate::lengths::check_length;
use crate::names::put_names;
use crate::places::places_of;
use crate::sources::sources_of;
use crate::types::types_of;
use btf_codec::TableOut;
use c_model::{CType, Classes, Nodes, TypeGraph};
use std::alloc::Global;

/// The last id of a table.
const LAST_ID: u64 = 0x000f_ffff;

/// The table of a partition of a graph's nodes: the base's types as they are, and then one type for
/// each class without base nodes, in the order of the classes' first nodes. Such a type has the
/// label of its class's first node that is no forward, or of its first node if all are, and its
/// targets are the types of their classes. The names of the own types are put in id order, a type's
/// name before those of its parts, over the base's string section `base_names`, where there is one.
///
/// The graph may be kept in any way. Its labels that become those of types are copied; their names
/// are borrowed.
///
/// It is refused by `TooManyTypes`, with the number of types, exactly where there are more than
/// 0x000fffff; else by `NamesTooLong`, with the offset, at the first name that would get one past
/// 0x00ffffff; else by `TableTooLong`, with the number of bytes, exactly where the own types and
/// the own strings take more than 2^32 - 1 bytes. It is never refused by `NodesTooMany`.
pub fn build<'a, G: TypeGraph<'a>>(
    alloc: Global,
    graph: &G,
    classes: &Classes,
    base_names: Option<&'a [u8]>,
) -> Result<TableOut<'a>, TableFault>
    requires covers { length classes.now ≡ length (G.shape graph.now).nodes }
    requires well { All IsWellFormed (G.shape graph.now).nodes }
    requires names { IfSome (option_copied base_names) IsSection }
    ensures base { IfOk result (λ t. t.base ≡ (G.shape graph.now).base) }
    ensures table { IfOk result (λ t. t.types ≡ table_of (G.shape graph.now) classes.now) }
    ensures own { IfOk result (λ t. drop t.base t.types ≡
        own_types (G.shape graph.now) classes.now) }
    ensures strings { IfOk result (λ t. t.strings
        ≡ strings_of (option_copied base_names.entry) (own_types (G.shape graph.now) classes.now)) }
    // What can be written.
    ensures few { IfOk result (λ t. length t.types < 2 ^ 32) }
    ensures fits { IfOk result (λ t. t.base ≤ length t.types) }
    ensures offsets { IfOk result (λ t. All (HasOffsets t.strings) (drop t.base t.types)) }
    ensures within { IfOk result (λ t. RefersWithin (length t.types) (drop t.base t.types)) }
    ensures length { IfOk result (λ t. 4 * length (flat_map fields_of (drop t.base t.types))
        + length (own_section t.strings) < 2 ^ 32) }
    ensures formed { IfOk result (λ t. All IsWellFormed (drop t.base t.types)) }
    ensures accepted { OnOk result
        (table_refusal (option_copied base_names.entry) (G.shape graph.now) classes.now ≡ None) }
    ensures refusal { IfErr result (λ e. (e ≡ Memory)
        ⊎ (table_refusal (option_copied base_names.entry) (G.shape graph.now) classes.now
        ≡ Some e)) }
{
    let base = graph.base();
    let types = table_types(alloc, graph, classes)?;
    let own = &types[base as usize..];
    let strings = put_names(alloc, base_names, own)?;
    check_length(own, &strings)?;
    Ok(TableOut {
        base,
        types: Nodes::new(types),
        strings,
    })
}

/// The types of the table of a partition.
fn table_types<'a, G: TypeGraph<'a>>(
    alloc: Global,
    graph: &G,
    classes: &Classes,
) -> Result<Vec<CType<'a>>, TableFault>
    requires { length classes.now ≡ length (G.shape graph.now).nodes }
    ensures table { IfOk result (λ v. v.items ≡ table_of (G.shape graph.now) classes.now) }
    ensures few { IfOk result (λ v. length v.items < 2 ^ 20) }
    ensures accepted { OnOk result (types_refusal
        (length (table_of (G.shape graph.now) classes.now)) ≡ None) }
    ensures refusal { IfErr result (λ e. (e ≡ Memory)
        ⊎ (types_refusal (length (table_of (G.shape graph.now) classes.now)) ≡ Some e)) }
    // Each reference is to a node of the graph.
    ensures within { RefersWithin (length (G.shape graph.now).nodes) (G.shape graph.now).nodes }
{
    // For the proof: there are fewer than 2^32 nodes, and each reference is to one of them.
    let _ = graph.len();
    let places = places_of(alloc, graph, classes)?;
    check_count(u64::from(graph.base()) + places.firsts.len() as u64)?;
    let sources = sources_of(alloc, graph, &places)?;
    Ok(types_of(alloc, graph, &places.nodes, &sources)?)
}

/// Whether there are ids for so many types.
fn check_count(count: u64) -> Result<(), TableFault>
    ensures accepted { OnOk result ((count < 2 ^ 20) × (types_refusal count ≡ None)) }
    ensures refusal { IfErr result (λ e. types_refusal count ≡ Some e) }
{
    if count > LAST_ID {
        return Err(TableFault::TooManyTypes(count));
    }
    Ok(())
}
