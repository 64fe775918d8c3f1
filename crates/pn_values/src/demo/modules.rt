// The modules that are plugged in it.
ghost use Rattle.std.specs.Prelude.{◌≡◌, [], ◌∷◌};
ghost use Rattle.pn_values.specs.demo.Demo.{demo_real, module_of, plugged};

use crate::{Real, RealModule, RealSubmodule};
use arrayvec::ArrayVec;

/// The modules of the demo station: the access point with its interface and a port, a module of two bytes of input, and
/// one of two bytes of output.
#[tactic(auto, unfolding(crate::specs::demo::Demo::demo_real))]
pub fn demo_modules() -> Real
    ensures { result ≡ demo_real }
{
    let mut access_point = ArrayVec::new();
    access_point.push(submodule(1, 1, 0, 0));
    access_point.push(submodule(0x8000, 2, 0, 0));
    access_point.push(submodule(0x8001, 3, 0, 0));
    let mut modules = ArrayVec::new();
    modules.push(RealModule {
        slot: 0,
        ident: 1,
        submodules: access_point,
    });
    modules.push(single(1, 16, submodule(1, 16, 2, 0)));
    modules.push(single(2, 32, submodule(1, 32, 0, 2)));
    Real { modules }
}

/// A module with one submodule.
fn single(slot: u16, ident: u32, only: RealSubmodule) -> RealModule
    ensures { result ≡ module_of slot ident (only ∷ []) }
{
    let mut submodules = ArrayVec::new();
    submodules.push(only);
    RealModule {
        slot,
        ident,
        submodules,
    }
}

/// A submodule without parameter records.
fn submodule(subslot: u16, ident: u32, input: u16, output: u16) -> RealSubmodule
    ensures { result ≡ plugged subslot ident input output }
{
    RealSubmodule {
        subslot,
        ident,
        input,
        output,
        parameters: ArrayVec::new(),
    }
}
