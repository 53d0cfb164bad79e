//! The channels of a program, and the types of their nodes.
ghost use Rattle.reo_flat.specs.flatten_laws.Channels.{ChannelsAreKinds};
ghost use Rattle.reo_flat.specs.flatten_laws.NodeTypes.{NodesHaveTypes};
ghost use Rattle.reo_flat.specs.flatten_laws.Fitting.{PrimitivesFit, TypesAreValid};

use crate::flatten_laws::nodes::nodes_are_distinct;

/// Where types fit and bounds are kept, each channel becomes the primitive that it is: a filter or
/// a map by its expression, a buffer with an item for each of its literals, and never a stand-in.
pub fn channels_are_kinds()
    ensures { ChannelsAreKinds }
{}

/// The nodes with their types are the nodes, one for one.
pub fn nodes_have_types()
    ensures { NodesHaveTypes }
{}

/// In a program as a text says it that breaks no rule, what is placed fits the types of its nodes:
/// ports, filters and maps are of the type of their first node, the items of a buffer are of its
/// nodes' type and no more than fit, and a map's value is in the type of its second node for each
/// item of that of its first.
pub fn primitives_fit()
    ensures { PrimitivesFit }
{
    nodes_are_distinct();
    nodes_have_types();
}

/// And the types of its nodes are valid.
pub fn types_are_valid()
    ensures { TypesAreValid }
{}
