// Small numbers: leaf functions over signed bytes and over the bits of lent bytes, that every crate above calls.
#![tactic(auto)]

pub mod refusal;

ghost use Rattle.std.specs.Prelude.{◌≡◌, true, false, ◌*◌, ◌<◌, length, get_or, set};
ghost use Rattle.ints.specs.Signed.{pos_part, neg_part};
ghost use Rattle.ints.specs.Twos.{twos, from_twos};
ghost use Rattle.ints.specs.Bits.{Bytes, bits_of};

// How far v stands above 0, else 0.
pub fn pos_part(v: i8) -> u32
    ensures { result ≡ pos_part v }
{
    if v > 0 { v as u32 } else { 0 }
}

// How far v stands below 0, else 0. The wider negation takes -128 too.
pub fn neg_part(v: i8) -> u32
    ensures { result ≡ neg_part v }
{
    if v < 0 { (-(v as i32)) as u32 } else { 0 }
}

// The byte that holds the entry in two's complement. Every entry has one.
pub fn byte_of(e: i8) -> u8
    ensures { result ≡ twos e }
{
    e.cast_unsigned()
}

// The entry that the byte holds in two's complement. Every byte holds one.
pub fn entry_of(b: u8) -> i8
    ensures { result ≡ from_twos b }
{
    b.cast_signed()
}

// Sets bit k of the bytes, which is bit k % 8 of byte k / 8. The caller keeps k below eight times their number.
pub fn set_bit(bytes: &mut [u8], k: usize)
    requires { k < 8 * length bytes.old }
    ensures { (bits_of bytes.new ≡ set (bits_of bytes.old) k true) × Bytes bytes.new }
{
    bytes[k / 8] |= 1u8 << (k % 8);
}

// Whether bit k of the bytes is set. The caller keeps k below eight times their number.
pub fn bit(bytes: &[u8], k: usize) -> bool
    requires { k < 8 * length bytes.now }
    ensures { result ≡ get_or (bits_of bytes.now) k false }
{
    (bytes[k / 8] >> (k % 8)) & 1 == 1
}
