//! What HMAC does to a key before it is hashed (RFC 2104, 2), and the exclusive-or of `Hi`.

ghost use Rattle.std.specs.Prelude.{◌≡◌, ◌≤◌, ◌++◌, length, drop};
ghost use Rattle.hmac_kdf.specs.Hi.{exclusive_or};
ghost use Rattle.hmac_kdf.specs.Hmac.{zero_filled, masked};

/// The bytes of a block of SHA-1 and of SHA-256: B of RFC 2104, 2.
pub const BLOCK_LEN: usize = 64;

/// The byte that ipad repeats (RFC 2104, 2).
pub const INNER_PAD: u8 = 0x36;

/// The byte that opad repeats (RFC 2104, 2).
pub const OUTER_PAD: u8 = 0x5C;

/// INT(1) of RFC 5802, 2.2: the number one in four octets, most significant first.
pub const FIRST_BLOCK: [u8; 4] = [0, 0, 0, 1];

/// The key with zeros after it, up to one block.
pub fn fill(key: &[u8]) -> [u8; 64]
    requires { length key.now ≤ 64 }
    ensures { result ≡ zero_filled key.now }
{
    let mut block = [0u8; BLOCK_LEN];
    put(key, &mut block);
    block
}

// Writes the bytes over the beginning of the block.
fn put(bytes: &[u8], block: &mut [u8; 64])
    requires { length bytes.now ≤ 64 }
    ensures { block.new ≡ bytes.now ++ drop (length bytes.now) block.old }
{
    block[..bytes.len()].copy_from_slice(bytes);
}

/// The block XORed with the pad that repeats a byte.
pub fn mask(block: &[u8; 64], pad: u8) -> [u8; 64]
    ensures { result ≡ masked pad block.now }
{
    let mut out = [0u8; BLOCK_LEN];
    for i in 0..BLOCK_LEN {
        out[i] = block[i] ^ pad;
    }
    out
}

/// XORs a string into another of the same length, octet by octet.
pub fn xor_into(sum: &mut [u8], u: &[u8])
    requires { length sum.old ≡ length u.now }
    ensures { sum.new ≡ exclusive_or sum.old u.now }
{
    for i in 0..sum.len() {
        sum[i] ^= u[i];
    }
}
