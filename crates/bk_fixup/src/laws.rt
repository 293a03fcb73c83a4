// Laws of keys. The functions do nothing: what they say is in their clauses.
ghost use Rattle.std.specs.List.{All};
ghost use Rattle.bk_func.specs.Records.{FuncRecord};
ghost use Rattle.bk_fixup.specs.Keys.{IsKey, keys_of, HasSmallConstants};

/// What a function lists as its keys are keys, where its constants are numbers of 64 bits with a sign.
pub fn keys_are_keys()
    ensures { (f : FuncRecord) → HasSmallConstants f → All IsKey (keys_of f) }
{}
