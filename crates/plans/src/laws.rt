//! A law of the packed places of submodules.
ghost use Rattle.std.specs.Prelude.{◌≡◌, List, map};
ghost use Rattle.pn_values.specs.declared.real.RealModule.{RealModule};
ghost use Rattle.connect_blocks.specs.declared.iocr.IocrType.{IocrType};
ghost use Rattle.cyclic_data.specs.declared.place.PlaceKind.TheVariants.{Data, Iocs};
ghost use Rattle.cyclic_data.specs.Places.{asked};
ghost use Rattle.cyclic_data.specs.Layout.{IsLayout};
ghost use Rattle.plans.specs.Packed.{layout_in, object_of, octets_of, packed, packed_places};
ghost use Rattle.plans.specs.Parts.{AreOrdered, data_of};

/// The packed places are those that the Connect asks for, and they are a layout. This is a law of the definitions of `Plan::layout` and
/// `Plan::connect`; the function does nothing.
#[tactic(auto, using(crate::proofs::Packed::modules_asked, crate::proofs::Packed::modules_good))]
pub fn packed_places_are_asked()
    // What the Connect asks for in a direction are the packed places,
    ensures asked { (direction : IocrType) (modules : List RealModule) → AreOrdered modules
        → asked direction (data_of modules) (map object_of (packed direction Data 0 (data_of modules)))
        (map object_of (packed direction Iocs (octets_of direction Data (data_of modules)) (data_of modules)))
        ≡ packed_places direction (data_of modules) }
    // and they are a layout.
    ensures good { (direction : IocrType) (modules : List RealModule) → AreOrdered modules
        → IsLayout (layout_in direction (data_of modules)).data_length direction (data_of modules)
        (packed_places direction (data_of modules)) }
{}
