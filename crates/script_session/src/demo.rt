// How the demo device starts.
ghost use Rattle.std.specs.Prelude.{◌≡◌};
ghost use Rattle.script_session.specs.Demo.{demo_named, default_choices};

use asked_records::{NamedRecords, RecordName};
use relations::DeviceOptions;

/// The options of the device, and whether its application answers records.
#[derive(Clone, Copy)]
pub(crate) struct DemoOptions {
    pub(crate) device: DeviceOptions,
    pub(crate) answers_records: bool,
}

impl DemoOptions {
    /// All options have their defaults, and the application answers no records.
    pub(crate) fn new() -> DemoOptions
        ensures { result ≡ default_choices }
    {
        DemoOptions {
            device: DeviceOptions::default(),
            answers_records: false,
        }
    }

    /// The records that the application of the demo device answers.
    pub(crate) fn records(self) -> NamedRecords
        ensures { result ≡ demo_named self.answers_records }
    {
        if !self.answers_records {
            return NamedRecords::new();
        }
        let long = RecordName {
            slot: 1,
            subslot: 1,
            index: 0x2000,
            greatest_length: 1308,
            is_readable: true,
            is_writable: true,
        };
        let short = RecordName {
            slot: 2,
            subslot: 1,
            index: 0x2000,
            greatest_length: 4,
            is_readable: true,
            is_writable: false,
        };
        match NamedRecords::of(&[long, short]) {
            Ok(named) => named,
            Err(_) => NamedRecords::new(),
        }
    }
}
