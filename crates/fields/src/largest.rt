// The largest value of a field, by the field's number, and the largest level.
ghost use Rattle.std.specs.Prelude.{◌≡◌};
ghost use Rattle.fields.specs.Largest.{largest_of_field};

// The largest exception level.
pub const LEVEL: u8 = 3;

// The largest value of field f, where a field has that number.
#[tactic(auto, unfolding(crate::specs::Largest::largest))]
pub fn largest(f: u8) -> Option<u64>
    ensures { result ≡ largest_of_field f }
{
    match f {
        0x00..=0x0B
        | 0x10..=0x12
        | 0x20..=0x26
        | 0x28..=0x31
        | 0x33
        | 0x35..=0x36
        | 0x38..=0x3E
        | 0x80..=0x87
        | 0x89..=0x8A => Some(1),
        0x0C | 0x27 => Some(31),
        0x32 => Some(0x7FFFFFFF),
        0x34 => Some(0x1FFFFFFFF),
        0x37 => Some(0x17FFFFFFF),
        0x40..=0x5E => Some(0xFFFF),
        0x88 => Some(3),
        0x8B => Some(0xFFFFFFFF),
        0x60..=0x7F | 0x8C..=0x8D => Some(0xFFFFFFFFFFFFFFFF),
        _ => None,
    }
}
