//! A law of the definitions by which the answer to a Connect is read.
ghost use Rattle.std.specs.Prelude.{◌≡◌, ◌++◌, Ok, Some, true, ℕ, List};
ghost use Rattle.block_codec.specs.declared.block.Block.{Block};
ghost use Rattle.block_codec.specs.declared.block.Block.TheVariants.{AlarmCrBlockRes as alarm_res};
ghost use Rattle.block_codec.specs.Block.{block_bytes, block_of, front, kind_of};
ghost use Rattle.block_codec.specs.Kinds.{number_of};
ghost use Rattle.connects.specs.declared.answers.alarm_relation.AlarmRelation.{AlarmRelation};
ghost use Rattle.connects.specs.declared.answers.connect.Found.{Found};
ghost use Rattle.connects.specs.answers.AlarmRelation.{alarm_relation};
ghost use Rattle.connects.specs.answers.Connect.{Keeps, found_in, is_looked_for, next_found, with_alarm, with_block};

/// What a controller finds in blocks that were written. These are laws of the definitions; there is no code.
pub fn blocks_are_found()
    // A block that is looked for is found, if it can be read back.
    ensures known { (block : Block) (rest : List ℕ) (found : Found) → is_looked_for (number_of (kind_of block)) ≡ true
        → block_of (block_bytes block ++ rest) ≡ front block rest
        → next_found found (block_bytes block ++ rest) ≡ Some (with_block block found, rest) }
    // The AlarmCRBlockRes of a device with this product's profile is found, with reference 1 and 200 octets.
    ensures alarm { (rest : List ℕ) (found : Found) → next_found found (block_bytes (alarm_res (record {})) ++ rest)
        ≡ Some (with_alarm (record { local_alarm_reference = 1; max_alarm_data_length = 200 }) found, rest) }
    // Any AlarmCRBlockRes that can be written is read back.
    ensures written { (block : AlarmRelation) (rest : List ℕ) → alarm_relation.Fits block
        → alarm_relation.read (alarm_relation.write block rest) ≡ Ok (block, rest) }
    // A FrameID of outputs and an alarm endpoint that were found stay, whatever follows.
    ensures stays { (most : ℕ) (bytes : List ℕ) (found result : Found) → found_in most bytes found ≡ Some result → Keeps found result }
{}
