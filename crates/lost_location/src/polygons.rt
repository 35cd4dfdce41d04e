//! The polygons of a mapping, as they are kept.
ghost use Rattle.std.specs.Prelude.{◌≡◌};
ghost use Rattle.lost_location.specs.Polygons.{polygons_in};

use lost_geo::Polygon;
use std::slice;

/// Polygons, in the order given. A single one, as most mappings have, lies with what else a search looks at.
#[derive(Drop)]
pub(crate) enum Polygons {
    One(Polygon),
    Several(Vec<Polygon>),
}

impl Polygons {
    /// These polygons. It takes no memory.
    pub(crate) fn of(mut polygons: Vec<Polygon>) -> Polygons
        ensures { polygons_in result ≡ polygons.items }
    {
        if polygons.len() == 1 {
            if let Some(polygon) = polygons.pop() {
                return Polygons::One(polygon);
            }
        }
        polygons.shrink_to_fit();
        Polygons::Several(polygons)
    }

    /// The polygons.
    pub(crate) fn as_slice(&self) -> &[Polygon]
        ensures { result.now ≡ polygons_in self.now }
    {
        match self {
            Polygons::One(polygon) => slice::from_ref(polygon),
            Polygons::Several(polygons) => polygons.as_slice(),
        }
    }
}
