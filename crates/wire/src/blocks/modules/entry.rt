//! The entries of a list.
ghost use Rattle.std.specs.Prelude.{◌≡◌, ◌+◌, ◌<◌, ◌≤◌, ◌++◌, [], List, ℕ};
ghost use Rattle.arrayvec.specs.ArrayVec.{array_vec_len};
ghost use Rattle.wire.specs.Codec.{Codec, Gives};
ghost use Rattle.wire.specs.declared.blocks.fault.BlockFault.{BlockFault};
ghost use Rattle.wire.specs.blocks.modules.Lists.{WritesAlike};

use crate::blocks::fault::BlockFault;
use arrayvec::ArrayVec;

/// An entry of a list: a module or a submodule.
pub trait Entry: Copy + Default + Drop {
    /// The format of an entry that follows these entries, which may decide whether it is accepted.
    ghost format: { List Self → Codec BlockFault Self };

    /// What is known of the fields of an entry that is written.
    ghost fits: { Self → Type 0 };

    /// Reads an entry that follows the entries `before`. Returns it and the rest.
    fn at<'a>(bytes: &'a [u8], before: &[Self]) -> Result<(Self, &'a [u8]), BlockFault>
        ensures { Gives (λ x. (x.0, x.1.now)) result ((format before.now).read bytes.now) };

    /// The number of octets that the entry takes.
    fn len(&self) -> usize
        ensures size { result ≡ (format []).size self.now }
        ensures few { result < 256 };

    /// The octets of an entry do not depend on the entries before it.
    ghost alike: { WritesAlike format };
}

/// An entry of a module.
pub trait Module: Entry {
    /// The number of submodules that belong to the module.
    ghost own: { Self → ℕ };

    /// The number of submodules that belong to the module.
    fn number_of_submodules(&self) -> u16
        ensures { result ≡ own self.now };
}

/// An entry that can be appended to a buffer of `N` octets.
pub trait Put<const N: usize>: Entry {
    /// Appends the entry. There must be room.
    fn put(&self, out: &mut ArrayVec<u8, N>)
        requires { array_vec_len out.old + (Self.format []).size self.now ≤ N }
        ensures items { (tail : List ℕ) → out.new.items ++ tail ≡ out.old.items ++ (Self.format []).write self.now tail }
        ensures len { array_vec_len out.new ≡ array_vec_len out.old + (Self.format []).size self.now }
        ensures fits { Self.fits self.now };
}
