ghost use Rattle.std.specs.Prelude.{◌≡◌, ◌%◌, ◌<◌, length};
ghost use Rattle.sat_index.specs.Signature.{mask_of, IsSignature};

/// A word with one bit unset, which the literal says.
fn mask(lit: u32) -> u128
    ensures { result ≡ mask_of lit }
{
    u128::MAX ^ (1u128 << (lit % 128))
}

/// A word in which each literal of the clause unsets a bit.
pub fn signature_of(clause: &[u32]) -> u128
    ensures { IsSignature clause.now result }
{
    let mut made = u128::MAX;
    for lit in clause {
        made &= mask(*lit);
    }
    made
}
