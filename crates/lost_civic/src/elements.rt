//! The elements of a civic location.

ghost use Rattle.std.specs.Prelude.{◌≡◌, ◌↔◌, false, ◌<◌, Some, IsNone, slice_get};
ghost use Rattle.lost_spec.specs.Civic.{element_names, is_known};
ghost use Rattle.lost_civic.specs.Element.{element_index, element_name, all_elements};

/// An element of a civic location, in the order of the table of names (RFC 4119, section 2.2.1, and RFC 5139,
/// section 3.1; the order is an own rule).
#[derive(Clone, Copy, PartialEq, Eq, PartialOrd, Ord, Hash, Debug)]
pub enum Element {
    /// `country`: the two letters of the country.
    Country,
    /// `A1`: a national subdivision, such as a state, a region or a province.
    A1,
    /// `A2`: a county or a parish.
    A2,
    /// `A3`: a city or a township.
    A3,
    /// `A4`: a division of a city, such as a borough.
    A4,
    /// `A5`: a neighborhood or a block.
    A5,
    /// `A6`: a group of streets below the neighborhood level.
    A6,
    /// `PRM`: the road's pre-modifier, such as "Old".
    Prm,
    /// `PRD`: the leading direction of the street.
    Prd,
    /// `RD`: the primary road or street.
    Rd,
    /// `STS`: the street's suffix or type, such as "Avenue".
    Sts,
    /// `POD`: the trailing direction of the street.
    Pod,
    /// `POM`: the road's post-modifier, such as "Extended".
    Pom,
    /// `RDSEC`: a section of the road.
    RdSec,
    /// `RDBR`: a branch of the road.
    RdBr,
    /// `RDSUBBR`: a branch of a road's branch.
    RdSubBr,
    /// `HNO`: the house number, its numeric part.
    Hno,
    /// `HNS`: the house number's suffix.
    Hns,
    /// `LMK`: a landmark or a vanity address.
    Lmk,
    /// `LOC`: additional information on the location, such as "south wing".
    Loc,
    /// `FLR`: the floor.
    Flr,
    /// `NAM`: the name of a residence, a business or an office's occupant.
    Nam,
    /// `PC`: the postal code.
    Pc,
    /// `BLD`: the building.
    Bld,
    /// `UNIT`: the unit, such as an apartment or a suite.
    UnitNumber,
    /// `ROOM`: the room.
    Room,
    /// `SEAT`: the seat, such as a desk or a cubicle.
    Seat,
    /// `PLC`: the type of the place.
    Plc,
    /// `PCN`: the postal community's name.
    Pcn,
    /// `POBOX`: the post office box.
    PoBox,
    /// `ADDCODE`: the additional code.
    AddCode,
}

impl Element {
    /// The elements, each once, in the order of the table.
    pub const ALL: [Element; 31] = [
        Element::Country,
        Element::A1,
        Element::A2,
        Element::A3,
        Element::A4,
        Element::A5,
        Element::A6,
        Element::Prm,
        Element::Prd,
        Element::Rd,
        Element::Sts,
        Element::Pod,
        Element::Pom,
        Element::RdSec,
        Element::RdBr,
        Element::RdSubBr,
        Element::Hno,
        Element::Hns,
        Element::Lmk,
        Element::Loc,
        Element::Flr,
        Element::Nam,
        Element::Pc,
        Element::Bld,
        Element::UnitNumber,
        Element::Room,
        Element::Seat,
        Element::Plc,
        Element::Pcn,
        Element::PoBox,
        Element::AddCode,
    ];

    /// The position of the element in the table, from 0 to 30.
    pub fn index(self) -> usize
        ensures position { result ≡ element_index self }
        ensures within { result < 31 }
    {
        self as usize
    }

    /// The name of the element, in exact case, such as `country` or `PC`.
    #[tactic(auto, unfolding(crate::specs::Element::element_name))]
    pub fn name(self) -> &'static str
        ensures value { result.now ≡ element_name self }
        ensures listed { slice_get element_names (element_index self) ≡ Some result.now }
    {
        match self {
            Element::Country => "country",
            Element::A1 => "A1",
            Element::A2 => "A2",
            Element::A3 => "A3",
            Element::A4 => "A4",
            Element::A5 => "A5",
            Element::A6 => "A6",
            Element::Prm => "PRM",
            Element::Prd => "PRD",
            Element::Rd => "RD",
            Element::Sts => "STS",
            Element::Pod => "POD",
            Element::Pom => "POM",
            Element::RdSec => "RDSEC",
            Element::RdBr => "RDBR",
            Element::RdSubBr => "RDSUBBR",
            Element::Hno => "HNO",
            Element::Hns => "HNS",
            Element::Lmk => "LMK",
            Element::Loc => "LOC",
            Element::Flr => "FLR",
            Element::Nam => "NAM",
            Element::Pc => "PC",
            Element::Bld => "BLD",
            Element::UnitNumber => "UNIT",
            Element::Room => "ROOM",
            Element::Seat => "SEAT",
            Element::Plc => "PLC",
            Element::Pcn => "PCN",
            Element::PoBox => "POBOX",
            Element::AddCode => "ADDCODE",
        }
    }

    /// The element that has this name, in exact case; None where no element has it.
    pub fn by_name(name: &str) -> Option<Element>
        ensures named { (element : Element) → (result ≡ Some element) ↔ (name.now ≡ element_name element) }
        ensures unknown { IsNone result ↔ (is_known name.now ≡ false) }
    {
        for element in Element::ALL {
            if name == element.name() {
                return Some(element);
            }
        }
        None
    }
}
