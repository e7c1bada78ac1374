//! Comparing bytes.

ghost use Rattle.std.specs.Prelude.{◌≡◌, bytes_eq};

/// Whether the two are the same bytes.
pub(crate) fn is_name(name: &[u8], other: &[u8]) -> bool
    ensures { result ≡ bytes_eq name.now other.now }
{
    name == other
}
