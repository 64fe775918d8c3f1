//! A law of lookups. No code is involved.
ghost use Rattle.std.specs.Prelude.{◌≡◌, Bool, false};
ghost use Rattle.pn_values.specs.declared.identity.Identity.{Identity};
ghost use Rattle.rpc_services.specs.declared.endpoint_mapper.lookup.Lookup.{Lookup};
ghost use Rattle.rpc_services.specs.endpoint_mapper.Entry.{told_handle};
ghost use Rattle.rpc_services.specs.endpoint_mapper.Lookup.{gets_entry};

/// A lookup ends.
pub fn lookups_end()
    // A lookup that goes on with the handle of an answer gets no entry, in either byte order: the entry is returned once.
    ensures { (identity : Identity) (little : Bool) (asked : Lookup) → asked.handle ≡ told_handle little identity → gets_entry asked ≡ false }
{}
