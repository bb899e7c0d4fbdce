//! Bytes in an array, as C has them.
ghost use Rattle.std.specs.Prelude.{◌≡◌, ◌≤◌, ◌-◌, ◌++◌, length, replicate};

/// The bytes of a name, and zeros behind them.
pub(crate) fn packed_name(from: &[u8]) -> [u8; 20]
    requires { length from.now ≤ 20 }
    ensures { result ≡ from.now ++ replicate (20 - length from.now) 0 }
{
    let mut bytes = [0; 20];
    bytes[..from.len()].copy_from_slice(from);
    bytes
}

/// Writes the bytes of a packet, and zeros behind them.
pub(crate) fn pack_wire(from: &[u8], bytes: &mut [u8; 52])
    requires { length from.now ≤ 52 }
    ensures { bytes.new ≡ from.now ++ replicate (52 - length from.now) 0 }
{
    *bytes = [0; 52];
    bytes[..from.len()].copy_from_slice(from);
}
