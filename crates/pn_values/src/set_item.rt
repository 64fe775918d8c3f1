use crate::Command;

/// BlockError of the response to one block of a Set (IEC 61158-6-10, 4.3.1.4.6).
#[derive(Clone, Copy, Debug, Default, PartialEq, Eq)]
pub enum BlockError {
    /// The block was carried out.
    #[default]
    Done = 0,
    /// The option is not supported.
    Option = 1,
    /// The suboption, or this mode of it, is not supported.
    Suboption = 2,
    /// The length or the value is not valid.
    Value = 3,
    /// There is no more room for the value.
    Exhausted = 4,
    /// The value could not be stored.
    Local = 5,
    /// The value cannot be set while an application relation exists.
    InOperation = 6,
}

/// What one block of a Set asks for, or its error.
#[derive(Drop)]
pub enum SetItem {
    /// A command to carry out.
    Ask(Command),
    /// The signal lamp must flash. Nothing is stored, and the response is `Done`.
    Signal,
    /// The block is answered with this error, and nothing is done.
    Answer(BlockError),
}

// Only `ArrayVec` needs a default of its elements.
impl Default for SetItem {
    ghost use Rattle.std.specs.Prelude.{◌≡◌};
    ghost use Rattle.pn_values.specs.declared.set_item.SetItem.TheVariants.{Answer};
    ghost use Rattle.pn_values.specs.declared.set_item.BlockError.TheVariants.{Done};

    ghost is_default = { λ item. item ≡ Answer Done };

    fn default() -> SetItem {
        SetItem::Answer(BlockError::Done)
    }
}
