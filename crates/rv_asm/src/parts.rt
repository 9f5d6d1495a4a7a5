//! Numbers and distances in two parts, for an instruction that takes the upper 20 bits and one that adds the other 12 with their
//! sign (RISC-V Instruction Set Manual, volume I, "Integer Register-Immediate Instructions").

ghost use Rattle.std.specs.Prelude.{◌≡◌};
ghost use Rattle.rv_asm.specs.Parts.{high, low, LeapsArrive};

/// What LUI or AUIPC takes of a number, from 0 to 2^20 - 1.
pub fn high_part(value: u32) -> i32
    ensures { result ≡ high value }
{
    (value.wrapping_add(2048) / 4096).cast_signed()
}

/// What the instruction behind it adds, from -2048 to 2047.
pub fn low_part(value: u32) -> i32
    ensures { result ≡ low value }
{
    (value.wrapping_add(2048) % 4096).cast_signed() - 2048
}

/// Both parts of the distance from one address to another, added to the first modulo 2^32, give the other.
pub fn leaps_arrive()
    ensures { LeapsArrive }
{}
