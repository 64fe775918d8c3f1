ghost use Rattle.std.specs.Prelude.{◌≡◌, []};

use arrayvec::ArrayVec;

/// The modules that are plugged in a device: at most 16, in slots 0 to 15.
#[derive(Drop)]
pub struct Real {
    pub modules: ArrayVec<RealModule, 16>,
}

/// A module that is plugged in a slot, with at most four submodules.
#[derive(Default, Drop)]
pub struct RealModule {
    /// SlotNumber, 0 to 15.
    pub slot: u16,
    /// ModuleIdentNumber.
    pub ident: u32,
    pub submodules: ArrayVec<RealSubmodule, 4>,
}

/// A submodule that is plugged in a subslot.
#[derive(Default, Drop)]
pub struct RealSubmodule {
    /// SubslotNumber.
    pub subslot: u16,
    /// SubmoduleIdentNumber.
    pub ident: u32,
    /// Bytes of input data; 0 for none.
    pub input: u16,
    /// Bytes of output data; 0 for none.
    pub output: u16,
    pub parameters: ArrayVec<ParameterRecord, 2>,
}

/// A parameter record that a submodule accepts.
#[derive(Clone, Copy, Default)]
pub struct ParameterRecord {
    /// Index of the record, 0 to 32,767.
    pub index: u16,
    /// The exact length, 1 to 64 bytes.
    pub length: u16,
}

impl RealSubmodule {
    /// A copy, which needs no memory.
    pub fn copy(&self) -> RealSubmodule
        ensures { result ≡ self.now }
    {
        let mut parameters = ArrayVec::new();
        let _ = parameters.try_extend_from_slice(self.parameters.as_slice());
        RealSubmodule {
            subslot: self.subslot,
            ident: self.ident,
            input: self.input,
            output: self.output,
            parameters,
        }
    }
}

impl RealModule {
    /// A copy, which needs no memory.
    pub fn copy(&self) -> RealModule
        ensures { result ≡ self.now }
    {
        let mut submodules = ArrayVec::new();
        for part in self.submodules.as_slice() {
            submodules.push(part.copy());
        }
        RealModule {
            slot: self.slot,
            ident: self.ident,
            submodules,
        }
    }
}

impl Real {
    /// No modules.
    pub fn none() -> Real
        ensures { result.modules.items ≡ [] }
    {
        Real {
            modules: ArrayVec::new(),
        }
    }

    /// Replaces the modules by copies of others. They are made where they stay.
    pub fn replace_by(&mut self, given: &Real)
        ensures { self.new.modules.items ≡ given.now.modules.items }
    {
        self.modules.clear();
        for entry in given.modules.as_slice() {
            self.modules.push(entry.copy());
        }
    }
}
