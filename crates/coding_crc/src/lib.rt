// CRC-16 a byte at a time. What it means is defined in crate `coding_rules` (specs/Crc.antt).

#![tactic(auto)]

ghost use Rattle.std.specs.Prelude.{◌≡◌, ◌-◌};
ghost use Rattle.bits.specs.Bit.{digit};
ghost use Rattle.coding_rules.specs.Crc.{crc_run, crc_of};

// Takes the eight bits of a byte, highest first, at once: the low byte of the register moves up, and the joined high byte leaves its remainder.
fn crc_byte(register: u16, x: u8) -> u16
    ensures { result ≡ crc_run register (λ j. digit x (7 - j)) 8 }
{
    let joined = (register / 256) ^ u16::from(x);
    let t = joined ^ (joined / 16);
    ((register % 256) * 256) ^ (((t % 16) * 4096) ^ (t * 32) ^ t)
}

// Gives CRC-16/IBM-3740 of a message of any length.
pub fn crc16(bytes: &[u8]) -> u16
    ensures { result ≡ crc_of bytes.now }
{
    let mut register: u16 = 0xffff;
    for byte in bytes {
        register = crc_byte(register, *byte);
    }
    register
}
