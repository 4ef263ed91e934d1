// Signed numbers from bytes.
ghost use Rattle.std.specs.Prelude.{◌≡◌, length};
ghost use Rattle.listing.specs.Listing.{residual_at};

// The residual whose four little-endian bytes these are.
pub(crate) fn residual_of(bytes: &[u8]) -> i32
    requires { length bytes.now ≡ 4 }
    ensures { result ≡ residual_at bytes.now 0 }
{
    i32::from_le_bytes([bytes[0], bytes[1], bytes[2], bytes[3]])
}
