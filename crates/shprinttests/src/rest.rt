//! What is left of a script. Parts are printed by it, so what it gives is said by contract.
ghost use Rattle.std.specs.Prelude.{◌≡◌, drop};

/// The bytes of a script from an offset on: none, where that is past its end.
pub fn rest(script: &[u8], from: usize) -> &[u8]
    ensures { result.now ≡ drop from script.now }
{
    script.get(from..).unwrap_or(b"")
}
