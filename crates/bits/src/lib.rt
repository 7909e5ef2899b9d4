// Fields of bits in a list of bytes, most significant bit first, and the reader that keeps the bytes and a bit position.
#![tactic(auto)]

mod reader;

ghost use Rattle.std.specs.Prelude.{◌≡◌, ◌+◌, ◌*◌, ◌≤◌, ◌<◌, ◌^◌, get_or};
ghost use Rattle.bits.specs.Bits.{field};

pub use reader::Reader;

// A byte, 0 past the end.
fn byte_at(bytes: &[u8], index: usize) -> u8
    ensures { result ≡ get_or bytes.now index 0 }
{
    bytes.get(index).copied().unwrap_or(0)
}

// Four bytes as one number, the first the most significant: the field of 32 bits from the first byte's start.
fn four_at(bytes: &[u8], index: usize) -> u64
    requires { index + 3 < 2 ^ 64 }
    ensures { result ≡ field bytes.now (index * 8) 32 }
{
    let four = [
        byte_at(bytes, index),
        byte_at(bytes, index + 1),
        byte_at(bytes, index + 2),
        byte_at(bytes, index + 3),
    ];
    u64::from(u32::from_be_bytes(four))
}

// The field of `width` bits from a bit position, by shifts and masks, across byte ends. Bits past the end count 0.
fn field_at(bytes: &[u8], position: usize, width: usize) -> u32
    requires { width ≤ 25 }
    ensures { result ≡ field bytes.now position width }
{
    let skipped = position & 7;
    let four = four_at(bytes, position >> 3);
    let shifted = four >> (32 - skipped - width);
    (shifted & ((1 << width) - 1)) as u32
}
