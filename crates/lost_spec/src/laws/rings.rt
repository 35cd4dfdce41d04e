//! A law of edges.

ghost use Rattle.lost_spec.specs.RingLaws.{VertexOnAnEdgeChangesNothing};

/// Where a vertex cuts an edge in two, the edge crosses at a point exactly where one of the two parts does.
pub fn vertex_on_an_edge_changes_nothing()
    ensures { VertexOnAnEdgeChangesNothing }
{}
