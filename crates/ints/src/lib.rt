// Little-endian i32 at a position of a slice: read, and written.
#![tactic(auto)]

pub mod weights;

ghost use Rattle.std.specs.Prelude.{◌≡◌, ◌+◌, ◌≤◌, length};
ghost use Rattle.std.specs.Int.{w32};
ghost use Rattle.std.proofs.Common.{to_z, of_z};
ghost use Rattle.page_numbers.specs.Bytes.{int32, put32};

// The number that 32 bits stand for in two's complement.
pub fn from_bits(n: u32) -> i32
    ensures { result ≡ to_z w32 n }
{
    n.cast_signed()
}

// And back.
pub fn to_bits(z: i32) -> u32
    ensures { result ≡ of_z w32 z }
{
    z.cast_unsigned()
}

pub fn read_i32(s: &[u8], p: usize) -> i32
    requires { p + 4 ≤ length s.now }
    ensures { result ≡ int32 s.now p }
{
    from_bits(u32::from_le_bytes([s[p], s[p + 1], s[p + 2], s[p + 3]]))
}

pub fn write_i32(s: &mut [u8], p: usize, z: i32)
    requires { p + 4 ≤ length s.old }
    ensures { s.new ≡ put32 s.old p z }
{
    s[p..p + 4].copy_from_slice(&to_bits(z).to_le_bytes());
}
