//! I&M0 to I&M4, and the records that list modules or have the data of a submodule, read back.
ghost use Rattle.std.specs.Prelude.{◌≡◌, ◌≤◌, ℕ, true, Some, length};
ghost use Rattle.std.specs.List.{AllByRecursion};
ghost use Rattle.pn_values.specs.declared.identity.Identity.{Identity};
ghost use Rattle.pn_values.specs.declared.real.Real.{Real};
ghost use Rattle.pn_values.specs.declared.settings.Settings.{Settings};
ghost use Rattle.wire.specs.blocks.modules.Lists.{Listed};
ghost use Rattle.record_blocks.specs.declared.filter_data.FilterModule.{FilterModule};
ghost use Rattle.record_blocks.specs.declared.filter_data.FilterSubmodule.{FilterSubmodule};
ghost use Rattle.block_codec.specs.declared.block.Block.TheVariants as is;
ghost use Rattle.block_codec.specs.Block.{block_bytes};
ghost use Rattle.module_diff.specs.declared.expected.Expected.{Expected};
ghost use Rattle.im_records.specs.Records.{is_real, record_of};
ghost use Rattle.records.specs.declared.reads.listing.Level.{Level};
ghost use Rattle.records.specs.declared.reads.listing.Level.TheVariants.{Device};
ghost use Rattle.records.specs.reads.Listing.{api_bytes, identification_bytes, plugged_of};
ghost use Rattle.cyclic_data.specs.declared.place.PlaceKind.TheVariants.{Data};
ghost use Rattle.cyclic_data.specs.Image.{Cell, cell_at};
ghost use Rattle.cyclic_data.specs.exchange.Cyclic.{Cyclic};
ghost use Rattle.device_records.specs.Elements.{input_of, output_of};
ghost use Rattle.device_records.specs.Expected.{expected_at, expected_bytes};
ghost use Rattle.device_records.specs.Found.{found_bytes, found_of};
ghost use Rattle.fields_law.specs.Modules.{IsListing, IsPluggedList, IsPluggedModule, IsSizedListing};
ghost use Rattle.fields_law.specs.Records.{HasIm0, HasInput, HasOutput, HasText, IsApiData, IsSizedIdentity};

use block_codec::blocks_are_read;

/// I&M0 at each submodule that is plugged, and I&M1 to I&M4 at slot 0, subslot 1.
pub fn maintenance_is_read_back()
    // I&M0 has the identity of the device.
    ensures im0 { (identity : Identity) (real : Real) (settings : Settings) (slot subslot : ℕ) → IsSizedIdentity identity
        → is_real real slot subslot ≡ true → HasIm0 (record_of 0xAFF0 slot subslot identity real settings) identity }
    // Each of the others has its own text.
    ensures im1 { (identity : Identity) (real : Real) (settings : Settings) → length settings.im1 ≡ 54
        → HasText (record_of 0xAFF1 0 1 identity real settings) 0x0021 settings.im1 }
    ensures im2 { (identity : Identity) (real : Real) (settings : Settings) → length settings.im2 ≡ 16
        → HasText (record_of 0xAFF2 0 1 identity real settings) 0x0022 settings.im2 }
    ensures im3 { (identity : Identity) (real : Real) (settings : Settings) → length settings.im3 ≡ 54
        → HasText (record_of 0xAFF3 0 1 identity real settings) 0x0023 settings.im3 }
    ensures im4 { (identity : Identity) (real : Real) (settings : Settings) → length settings.im4 ≡ 54
        → HasText (record_of 0xAFF4 0 1 identity real settings) 0x0024 settings.im4 }
{
    blocks_are_read();
}

/// The records that list modules and submodules.
pub fn lists_are_read_back()
    // I&M0FilterData has two lists: of all submodules, and of the one of the device.
    ensures filter { (rows : Listed FilterModule FilterSubmodule) → IsSizedListing rows
        → IsListing (block_bytes (is.ImFilterDataSubmodule (record { api = 0; modules = rows }))) 0x0030 0 rows }
    ensures filter_device { (rows : Listed FilterModule FilterSubmodule) → IsSizedListing rows
        → IsListing (block_bytes (is.ImFilterDataDevice (record { api = 0; modules = rows }))) 0x0032 0 rows }
    // ExpectedIdentificationData is of type 0x0012, RealIdentificationData of type 0x0013.
    ensures expected { (expected : Expected) (level : Level) (slot subslot : ℕ) → IsSizedListing (expected_at expected level slot subslot).modules
        → IsListing (expected_bytes expected level slot subslot) 0x0012 1 (expected_at expected level slot subslot).modules }
    ensures plugged { (real : Real) (level : Level) (slot subslot : ℕ) → IsSizedListing (plugged_of real level slot subslot).modules
        → IsListing (identification_bytes 0x0013 (plugged_of real level slot subslot)) 0x0013 1 (plugged_of real level slot subslot).modules }
    ensures found { (expected : Expected) (real : Real) → IsSizedListing (found_of expected real).modules
        → IsListing (found_bytes expected real) 0x0013 1 (found_of expected real).modules }
    // RealIdentificationData of the device lists each module that is plugged, with all its submodules.
    ensures device { (real : Real) (slot subslot : ℕ) → AllByRecursion IsPluggedModule real.modules.items → length real.modules.items ≤ 16
        → IsPluggedList (identification_bytes 0x0013 (plugged_of real Device slot subslot)) real.modules.items }
    // APIData has API 0 alone.
    ensures apis { IsApiData api_bytes }
{
    blocks_are_read();
}

/// The records with the data of a submodule in cyclic frames.
pub fn elements_are_read_back()
    // RecordInputDataObjectElement has the input that is sent.
    ensures input { (cyclic : Cyclic) (slot subslot : ℕ) (sent : Cell) → cell_at Data slot subslot cyclic.shown.cells ≡ Some sent
        → length sent.value ≤ 1440 → HasInput (input_of cyclic slot subslot) cyclic slot subslot sent }
    // RecordOutputDataObjectElement has the output of the last frame that was accepted.
    ensures output { (cyclic : Cyclic) (slot subslot : ℕ) (taken : Cell) → cell_at Data slot subslot cyclic.taken.cells ≡ Some taken
        → length taken.value ≤ 1440 → HasOutput (output_of cyclic slot subslot) cyclic slot subslot taken }
{}
